// Multiply Integer Word, by one multiplication of signed numbers.
#![tactic(auto)]

ghost use Rattle.std.specs.Prelude.{◌≡◌, pos, ◌-ℤ◌, ◌+◌, ◌%◌, ◌^◌, ◌<◌};
ghost use Rattle.multiply.specs.Wm.{wm};

use registers::{BIT_0, WORD_RANGE};

// A word as a signed number, with 2^23 added: bit 0 has the weight -2^23.
fn with_offset(x: u32) -> u32
    requires { x < 2 ^ 24 }
    ensures { result ≡ (x + 2 ^ 23) % 2 ^ 24 }
{
    (x + BIT_0) % WORD_RANGE
}

// A word as a signed number: an i64 at once, by `i64::from`, costs 2 host instructions more (docs/PERFORMANCE.md).
fn signed_number(x: u32) -> i64
    requires { x < 2 ^ 24 }
    ensures { result ≡ pos ((x + 2 ^ 23) % 2 ^ 24) -ℤ pos (2 ^ 23) }
{
    let u = with_offset(x);
    (u as i32 - 8388608) as i64
}

fn last_48_bits(p: u64) -> u64
    ensures { result ≡ p % 2 ^ 48 }
{
    p % (1 << 48)
}

// WM: Wpre concat W, of W and the storage word. With 2^48 added the product is not negative, and has the same last 48 bits.
pub fn multiply(w: u32, s: u32) -> u64
    requires { (w < 2 ^ 24) × (s < 2 ^ 24) }
    ensures value { result ≡ wm w s }
    ensures bound { result < 2 ^ 48 }
{
    let x = signed_number(w);
    let y = signed_number(s);
    last_48_bits((x * y + (1 << 48)) as u64)
}
