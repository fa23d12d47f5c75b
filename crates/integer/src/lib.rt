// Integer sums, logical operations and skip tests on words of 24 bits, held in u32.
#![tactic(auto)]

ghost use Rattle.std.specs.Prelude.{◌≡◌, ◌+◌, ◌%◌, ◌^◌, ◌<◌};
ghost use Rattle.registers.specs.Reg.{word_range};
ghost use Rattle.integer.specs.Sums.{adder, sum, difference, sum_with_carry, difference_with_carry, sum24};
ghost use Rattle.integer.specs.Bitwise.{logical_and, logical_or, logical_xor, cleared};
ghost use Rattle.integer.specs.Skip.{comparison, is_high, is_low, is_equal, is_not_equal, bits_one, bits_zero};

use registers::{LONG_WORD_RANGE, Register, WORD_RANGE, signed25};

// AR(0:23), and 1 for an overflow and for a carry: EX(22) and EX(23), set beside a word that is stored whatever they say, so the word is no Option.
#[derive(Clone, Copy)]
pub struct Sum {
    pub word: u32,
    pub over: u32,
    pub carry: u32,
}

// One pass of the adder of AR, with a carry in.
fn add_once(a: Register<25>, b: Register<25>, c: u32) -> Sum
    requires { c < 2 }
    ensures value { result ≡ adder a b c }
    ensures bounds { (result.word < 2 ^ 24) × (result.over < 2) × (result.carry < 2) }
{
    let carry_in = u64::from(c);
    let ar = a.wrapping_add(b).wrapping_add(Register::new(carry_in));
    let carry = a.last::<24>().bits() + b.last::<24>().bits() + carry_in;
    Sum {
        word: ar.word(),
        over: ar.overflow(),
        carry: (carry / LONG_WORD_RANGE) as u32,
    }
}

// WA, BA and the first sum of AA.
#[tactic(auto, unfolding(crate::specs::Sums::sum, crate::specs::Sums::sum_with_carry))]
pub fn add(a: u32, b: u32) -> Sum
    requires { (a < 2 ^ 24) × (b < 2 ^ 24) }
    ensures value { result ≡ sum a b }
    ensures bounds { (result.word < 2 ^ 24) × (result.over < 2) × (result.carry < 2) }
{
    add_with_carry(a, b, 0)
}

// WS, BS, AC and the first difference of SS: A - B is A + not B + 1.
#[tactic(auto, unfolding(crate::specs::Sums::difference, crate::specs::Sums::difference_with_carry))]
pub fn subtract(a: u32, b: u32) -> Sum
    requires { (a < 2 ^ 24) × (b < 2 ^ 24) }
    ensures value { result ≡ difference a b }
    ensures bounds { (result.word < 2 ^ 24) × (result.over < 2) × (result.carry < 2) }
{
    subtract_with_carry(a, b, 1)
}

// The second sum of AA, with the carry of the first.
#[tactic(auto, unfolding(crate::specs::Sums::sum_with_carry))]
pub fn add_with_carry(a: u32, b: u32, c: u32) -> Sum
    requires { (a < 2 ^ 24) × (b < 2 ^ 24) × (c < 2) }
    ensures value { result ≡ sum_with_carry a b c }
    ensures bounds { (result.word < 2 ^ 24) × (result.over < 2) × (result.carry < 2) }
{
    add_once(signed25(a), signed25(b), c)
}

// The second difference of SS, with the carry of the first.
#[tactic(auto, unfolding(crate::specs::Sums::difference_with_carry))]
pub fn subtract_with_carry(a: u32, b: u32, c: u32) -> Sum
    requires { (a < 2 ^ 24) × (b < 2 ^ 24) × (c < 2) }
    ensures value { result ≡ difference_with_carry a b c }
    ensures bounds { (result.word < 2 ^ 24) × (result.over < 2) × (result.carry < 2) }
{
    add_once(signed25(a), signed25(b).complement(), c)
}

// A sum of addresses: every carry out of 24 bits is dropped.
#[tactic(auto, unfolding(crate::specs::Sums::sum24))]
pub fn sum24(a: u32, b: u32) -> u32
    ensures value { result ≡ sum24 a b }
    ensures bound { result < word_range }
{
    std::num::wrapping_add_u32(a, b) % WORD_RANGE
}

// LA
pub fn and24(a: u32, b: u32) -> u32
    requires { (a < 2 ^ 24) × (b < 2 ^ 24) }
    ensures value { result ≡ logical_and a b }
    ensures bound { result < 2 ^ 24 }
{
    a & b
}

// LO
pub fn or24(a: u32, b: u32) -> u32
    requires { (a < 2 ^ 24) × (b < 2 ^ 24) }
    ensures value { result ≡ logical_or a b }
    ensures bound { result < 2 ^ 24 }
{
    a | b
}

// LX
pub fn xor24(a: u32, b: u32) -> u32
    requires { (a < 2 ^ 24) × (b < 2 ^ 24) }
    ensures value { result ≡ logical_xor a b }
    ensures bound { result < 2 ^ 24 }
{
    a ^ b
}

// IC: the bits of a where b has a one are cleared.
pub fn clear24(a: u32, b: u32) -> u32
    requires { (a < 2 ^ 24) × (b < 2 ^ 24) }
    ensures value { result ≡ cleared a b }
    ensures bound { result < 2 ^ 24 }
{
    a ^ (a & b)
}

// AR := signed W - signed SB
fn compare(w: u32, sb: u32) -> Register<25>
    requires { (w < 2 ^ 24) × (sb < 2 ^ 24) }
    ensures { result ≡ comparison w sb }
{
    signed25(w).wrapping_sub(signed25(sb))
}

// SH
#[tactic(auto, unfolding(crate::specs::Skip::is_high))]
pub fn is_high(w: u32, sb: u32) -> bool
    requires { (w < 2 ^ 24) × (sb < 2 ^ 24) }
    ensures { result ≡ is_high w sb }
{
    let ar = compare(w, sb).bits();
    0 < ar && ar < LONG_WORD_RANGE
}

// SL
#[tactic(auto, unfolding(crate::specs::Skip::is_low))]
pub fn is_low(w: u32, sb: u32) -> bool
    requires { (w < 2 ^ 24) × (sb < 2 ^ 24) }
    ensures { result ≡ is_low w sb }
{
    LONG_WORD_RANGE <= compare(w, sb).bits()
}

// SE
#[tactic(auto, unfolding(crate::specs::Skip::is_equal))]
pub fn is_equal(w: u32, sb: u32) -> bool
    requires { (w < 2 ^ 24) × (sb < 2 ^ 24) }
    ensures { result ≡ is_equal w sb }
{
    compare(w, sb).bits() == 0
}

// SN
#[tactic(auto, unfolding(crate::specs::Skip::is_equal, crate::specs::Skip::is_not_equal))]
pub fn is_not_equal(w: u32, sb: u32) -> bool
    requires { (w < 2 ^ 24) × (sb < 2 ^ 24) }
    ensures { result ≡ is_not_equal w sb }
{
    !is_equal(w, sb)
}

// SO
pub fn bits_one(w: u32, sb: u32) -> bool
    requires { (w < 2 ^ 24) × (sb < 2 ^ 24) }
    ensures { result ≡ bits_one w sb }
{
    sb ^ (w & sb) == 0
}

// SZ, and SX with EX in the place of W.
pub fn bits_zero(x: u32, sb: u32) -> bool
    requires { (x < 2 ^ 24) × (sb < 2 ^ 24) }
    ensures { result ≡ bits_zero x sb }
{
    x & sb == 0
}
