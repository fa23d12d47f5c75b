// The shift operations, on N bits.
#![tactic(auto)]

ghost use Rattle.std.specs.Prelude.{◌≡◌, ◌^◌, ◌<◌};
ghost use Rattle.registers.specs.Reg.{iter};
ghost use Rattle.shift.specs.Shift.{places, left_step, arithmetic, logical, shifts_made};

use registers::{BIT_0, Register, WORD_RANGE};

// A register, and 1 where a shift to the left changed the sign: EX(22), set beside a word that is stored whatever it says, so the word is no Option.
#[derive(Clone, Copy)]
pub struct Shifted {
    pub word: u64,
    pub over: u32,
}

// How many places: m = abs(SB), or 48.
#[tactic(auto, unfolding(crate::specs::Shift::places))]
fn count(m: u32) -> u32
    ensures { (result ≡ places m) × (result < 64) }
{
    if m < 64 { m } else { 48 }
}

// The single shifts that AS, AD, LS and LD make.
#[tactic(auto, unfolding(crate::specs::Shift::shifts_made))]
pub fn shifts(sb: u32) -> u32
    requires { sb < 2 ^ 24 }
    ensures { (result ≡ shifts_made sb) × (result < 64) }
{
    if sb < BIT_0 {
        count(sb)
    } else {
        count(WORD_RANGE - sb)
    }
}

// One place at a time: each is looked at for overflow.
#[tactic(auto, unfolding(crate::specs::Shift::left_step), using(registers::proofs::Loops::iter_none, registers::proofs::Loops::iter_next))]
fn shift_left<const N: u32>(n: u32, w: Register<N>) -> Shifted
    requires { 1 < N }
    ensures value { result ≡ iter (left_step N) n (record { word = w.entry; over = 0 }) }
    ensures bounds { (result.word < 2 ^ N) × (result.over < 2) }
{
    let mut x = w;
    let mut over = 0u32;
    for _ in 0..n {
        over = over.max(x.overflow());
        x = x.shifted_left();
    }
    Shifted {
        word: x.bits(),
        over,
    }
}

#[tactic(auto, unfolding(crate::specs::Shift::arithmetic, crate::specs::Shift::shifts_made))]
fn arithmetic<const N: u32>(sb: u32, w: Register<N>) -> Shifted
    requires { (sb < 2 ^ 24) × (1 < N) }
    ensures value { result ≡ arithmetic N sb w.entry }
    ensures bounds { (result.word < 2 ^ N) × (result.over < 2) }
{
    let n = shifts(sb);
    if sb < BIT_0 {
        shift_left(n, w)
    } else {
        Shifted {
            word: w.shifted_right_by(n).bits(),
            over: 0,
        }
    }
}

#[tactic(auto, unfolding(crate::specs::Shift::logical), using(crate::proofs::Places::places_right))]
fn logical<const N: u32>(sb: u32, w: Register<N>) -> Register<N>
    requires { sb < 2 ^ 24 }
    ensures { result ≡ logical N sb w.entry }
{
    let n = shifts(sb);
    if sb < BIT_0 {
        w.logical_left(n)
    } else {
        w.logical_right(n)
    }
}

// AS
pub fn arithmetic24(sb: u32, w: u32) -> Shifted
    requires { (sb < 2 ^ 24) × (w < 2 ^ 24) }
    ensures value { result ≡ arithmetic 24 sb w }
    ensures bounds { (result.word < 2 ^ 24) × (result.over < 2) }
{
    arithmetic(sb, Register::<24>::new(u64::from(w)))
}

// AD, x is Wpre concat W.
pub fn arithmetic48(sb: u32, x: u64) -> Shifted
    requires { (sb < 2 ^ 24) × (x < 2 ^ 48) }
    ensures value { result ≡ arithmetic 48 sb x }
    ensures bounds { (result.word < 2 ^ 48) × (result.over < 2) }
{
    arithmetic(sb, Register::<48>::new(x))
}

// LS
pub fn logical24(sb: u32, w: u32) -> u32
    requires { (sb < 2 ^ 24) × (w < 2 ^ 24) }
    ensures value { result ≡ logical 24 sb w }
    ensures bound { result < 2 ^ 24 }
{
    logical(sb, Register::<24>::new(u64::from(w))).word()
}

// LD, x is Wpre concat W.
pub fn logical48(sb: u32, x: u64) -> u64
    requires { (sb < 2 ^ 24) × (x < 2 ^ 48) }
    ensures value { result ≡ logical 48 sb x }
    ensures bound { result < 2 ^ 48 }
{
    logical(sb, Register::<48>::new(x)).bits()
}
