// Normalizing a register of N bits.
#![tactic(auto)]

ghost use Rattle.std.specs.Prelude.{◌≡◌, ◌^◌, ◌<◌, ◌≤◌};
ghost use Rattle.normalize.specs.Norm.{normalize, normalized, shifts_by};

use registers::Register;

// The register, and the count of shifts or, of NS and ND, the byte to store.
#[derive(Clone, Copy)]
pub struct Normal {
    pub word: u64,
    pub shifts: u32,
}

pub fn normalize<const N: u32>(w: Register<N>) -> Normal
    requires width { (1 < N) × (N ≤ 48) }
    requires not_zero { 0 < w }
    ensures value { result ≡ normalize N w.entry }
    ensures bounds { (result.word < 2 ^ N) × (result.shifts < N) }
{
    prove!(w.bits() > 0);
    let mut x = w;
    let mut i = 0u32;
    // document 01 names this form: the break yields the count
    let shifts = loop {
        if x.bits_differ() {
            break i;
        }
        x = x.shifted_left();
        i += 1;
    };
    Normal {
        word: x.bits(),
        shifts,
    }
}

// The single shifts that NS and ND made, by SC(12:23).
pub fn shifts_made(b: u32) -> u32
    requires { b < 2 ^ 12 }
    ensures value { result ≡ shifts_by b }
    ensures bound { result < 4096 }
{
    if b == 2048 { 0 } else { (4096 - b) % 4096 }
}

// NS and ND: the register, and SC(12:23).
fn normalized<const N: u32>(w: Register<N>) -> Normal
    requires { (1 < N) × (N ≤ 48) }
    ensures value { result ≡ normalized N w.entry }
    ensures bounds { (result.word < 2 ^ N) × (result.shifts < 2 ^ 12) }
{
    if w.bits() == 0 {
        return Normal {
            word: 0,
            shifts: 2048,
        };
    }
    let r = normalize(w);
    Normal {
        shifts: (4096 - r.shifts) % 4096,
        ..r
    }
}

// NS: W, and SC(12:23).
pub fn normalize_single(w: u32) -> Normal
    requires { w < 2 ^ 24 }
    ensures value { result ≡ normalized 24 w }
    ensures bounds { (result.word < 2 ^ 24) × (result.shifts < 2 ^ 12) }
{
    normalized(Register::<24>::new(u64::from(w)))
}

// ND: Wpre concat W, and SC(12:23).
pub fn normalize_double(w: u64) -> Normal
    requires { w < 2 ^ 48 }
    ensures value { result ≡ normalized 48 w }
    ensures bounds { (result.word < 2 ^ 48) × (result.shifts < 2 ^ 12) }
{
    normalized(Register::<48>::new(w))
}
