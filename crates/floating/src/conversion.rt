// Convert Floating to Integer.
ghost use Rattle.std.specs.Prelude.{◌≡◌, ◌^◌, ◌<◌};
ghost use Rattle.floating.specs.Operands.{fraction, exponent, register_fraction};
ghost use Rattle.floating.specs.Convert.{cf_places, cf_rounded, cf_end, cf_by_places, cf, fraction_shifts};

use super::Converted;
use registers::{BIT_0, LONG_WORD_RANGE, Register, WORD_RANGE};

// The rounding, and the test for overflow.
#[tactic(auto, unfolding(crate::specs::Convert::cf_end))]
fn rounded(word: u32, af: Register<39>) -> Converted
    ensures { result ≡ cf_end word (cf_rounded af) }
{
    let up = Register::new(af.bits() / 8192 % 2 * 16384);
    let af = af.wrapping_add(up);
    if af.bits_differ() {
        Converted {
            word: u64::from(word),
            over: 1,
        }
    } else {
        Converted {
            word: af.bits() / 16384 % LONG_WORD_RANGE,
            over: 0,
        }
    }
}

// b is SB + 2 ** 23.
#[tactic(auto, unfolding(crate::specs::Convert::cf_by_places, crate::specs::Convert::cf_shifts))]
fn by_places(b: u32, word: u32, af: Register<39>) -> Converted
    ensures { result ≡ cf_by_places b word af }
{
    if b < BIT_0 {
        if af.bits() == 0 {
            return rounded(word, af);
        }
        return Converted {
            word: u64::from(word),
            over: 1,
        };
    }
    if b >= 8388672 {
        return rounded(word, Register::new(0));
    }
    rounded(word, af.shifted_right_by(b - BIT_0))
}

// Wfrac, and fraction(SB): 36 bits of two words.
pub fn fraction(pre: u32, word: u32) -> Register<36>
    requires { (pre < 2 ^ 24) × (word < 2 ^ 24) }
    ensures { result ≡ fraction pre word }
{
    Register::new(u64::from(pre) * 4096 + u64::from(word) / 4096)
}

// AF(-1:35) := signed Wfrac; AF(36:37) := 0.
pub fn register_fraction(pre: u32, word: u32) -> Register<39>
    requires { (pre < 2 ^ 24) × (word < 2 ^ 24) }
    ensures { result ≡ register_fraction (fraction pre word) }
{
    fraction(pre, word).signed::<37>().at_left()
}

// 23 - SB - signed Wexp, 24 bits.
fn places(word: u32, sb: u32) -> u32
    requires { (word < 2 ^ 24) × (sb < 2 ^ 24) }
    ensures value { result ≡ cf_places (exponent word) sb }
    ensures bound { result < 2 ^ 24 }
{
    let e = registers::signed_byte(word % 4096);
    (23 + (WORD_RANGE - sb) + (WORD_RANGE - e)) % WORD_RANGE
}

// The single shifts that CF makes.
pub fn shifts(word: u32, sb: u32) -> u32
    requires { (word < 2 ^ 24) × (sb < 2 ^ 24) }
    ensures { (result ≡ fraction_shifts word sb) × (result < 64) }
{
    let n = places(word, sb);
    if n < 64 { n } else { 0 }
}

#[tactic(auto, unfolding(crate::specs::Convert::cf))]
pub fn convert(pre: u32, word: u32, sb: u32) -> Converted
    requires { (pre < 2 ^ 24) × (word < 2 ^ 24) × (sb < 2 ^ 24) }
    ensures { result ≡ cf pre word sb }
{
    let n = places(word, sb);
    by_places((n + BIT_0) % WORD_RANGE, word, register_fraction(pre, word))
}
