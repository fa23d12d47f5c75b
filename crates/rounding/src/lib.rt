// AF and SC: normalizing, rounding, storing in Wpre and W.
#![tactic(auto)]

ghost use Rattle.std.specs.Prelude.{◌≡◌, ◌/◌, ◌%◌, ◌^◌, ◌<◌};
ghost use Rattle.rounding.specs.Round.{left_shifts, normalize_once, normalize_round};
ghost use Rattle.rounding.specs.Store.{precise, stored_floating, precise_store, round_store};
ghost use Rattle.rounding.specs.Convert.{ci, integer_shifts};

use registers::{LONG_WORD_RANGE, Register, signed25};

// A fraction in AF and an exponent in SC.
#[derive(Clone, Copy)]
pub struct Unpacked {
    pub af: Register<39>,
    pub sc: Register<13>,
}

// Wpre and W, and 1 where EX(22) and IR(2) are set, beside words that are stored whatever it says, so they are no Option.
#[derive(Clone, Copy)]
pub struct Pair {
    pub pre: u64,
    pub word: u64,
    pub over: u32,
}

// Left shifts until AF(0) <> AF(1).
#[tactic(auto, unfolding(crate::specs::Round::left_shifts))]
fn left_shifts(x: Unpacked) -> Unpacked
    requires { x.af / 2 ^ 38 ≡ x.af / 2 ^ 37 % 2 }
    ensures { result ≡ left_shifts x }
{
    if x.af.bits() == 0 {
        return Unpacked {
            sc: Register::new(6144),
            ..x
        };
    }
    let r = normalize::normalize(x.af.last::<38>());
    Unpacked {
        af: Register::<38>::new(r.word).signed(),
        sc: x.sc.wrapping_sub(Register::new(u64::from(r.shifts))),
    }
}

// From Again to the rounding.
#[tactic(auto, unfolding(crate::specs::Round::normalize_once))]
fn normalize_once(x: Unpacked) -> Unpacked
    ensures { result ≡ normalize_once x }
{
    if x.af.bits_differ() {
        return Unpacked {
            af: x.af.shifted_right(),
            sc: x.sc.wrapping_add(Register::new(1)),
        };
    }
    left_shifts(x)
}

pub fn normalize_round(x: Unpacked) -> Unpacked
    ensures { result ≡ normalize_round x }
{
    let y = normalize_once(x);
    if y.af.bits() / 2 % 2 == 0 {
        return y;
    }
    let up = y.af.wrapping_add(Register::new(4)).bits() / 4 * 4;
    normalize_once(Unpacked {
        af: Register::new(up),
        ..y
    })
}

// Only EX(21) is looked at.
#[tactic(auto, unfolding(crate::specs::Store::precise))]
fn precise_af(ex: u32, af: Register<39>) -> Register<39>
    ensures { result ≡ precise ex af }
{
    let n = af.bits();
    if ex / 4 % 2 == 1 {
        Register::new(n / 16 * 16 + n / 16 % 2 * 12 + n % 4)
    } else {
        af
    }
}

fn store(x: Unpacked, over: u32) -> Pair
    ensures { result ≡ stored_floating x.af x.sc over }
{
    let n = x.af.bits();
    Pair {
        pre: n / 16384 % LONG_WORD_RANGE,
        word: n / 4 % 4096 * 4096 + x.sc.bits() % 4096,
        over,
    }
}

// Test Precision Mode and Store.
pub fn precise_store(ex: u32, x: Unpacked, over: u32) -> Pair
    ensures { result ≡ precise_store ex x.af x.sc over }
{
    store(
        Unpacked {
            af: precise_af(ex, x.af),
            ..x
        },
        over,
    )
}

// Normalize and Round Floating; Test Precision Mode and Store.
#[tactic(auto, unfolding(crate::specs::Store::round_store))]
pub fn round_store(ex: u32, x: Unpacked) -> Pair
    ensures { result ≡ round_store ex x }
{
    let y = normalize_round(x);
    precise_store(ex, y, y.sc.overflow())
}

// CI: W, and the effective address.
#[tactic(auto, unfolding(crate::specs::Convert::ci))]
pub fn convert_integer(w: u32, sb: u32) -> Pair
    requires { w < 2 ^ 24 }
    ensures { result ≡ ci w sb }
{
    if w == 0 {
        return Pair {
            pre: 0,
            word: 2048,
            over: 0,
        };
    }
    let x = normalize_round(Unpacked {
        af: signed25(w).at_left(),
        sc: Register::new(23),
    });
    let sc = x.sc.wrapping_add(Register::new(u64::from(sb % 8192)));
    store(Unpacked { sc, ..x }, x.sc.overflow().max(sc.overflow()))
}

// The left shifts that CI made to normalize, by the exponent x % 4096 that it left.
pub fn integer_shifts(w: u32, sb: u32, x: u64) -> u32
    requires { (w < 2 ^ 24) × (x ≡ (ci w sb).word) }
    ensures value { result ≡ integer_shifts w }
    ensures bound { result < 4096 }
{
    if w == 0 {
        return 0;
    }
    (23 + sb % 4096 + 4096 - (x % 4096) as u32) % 4096
}
