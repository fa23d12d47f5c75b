// Registers of the RC 4000: a word, 24 bits, in a u32, and a register of any width in a `Register`.
#![tactic(auto)]

ghost use Rattle.std.specs.Prelude.{◌≡◌, ◌^◌, ◌<◌};
ghost use Rattle.registers.specs.Reg.{word_range, signed, signed_byte};

mod register;

pub use register::Register;

// 2^24: one more than the largest word, and the weight of a cell's key; the same for a double-length register.
pub const WORD_RANGE: u32 = 1 << 24;

pub const LONG_WORD_RANGE: u64 = 1 << 24;

// The weight of bit 0 of a word.
pub const BIT_0: u32 = 1 << 23;

// R := signed C, from 24 to 25 bits.
pub fn signed25(x: u32) -> Register<25>
    requires { x < 2 ^ 24 }
    ensures { result ≡ signed 24 25 x }
{
    Register::<24>::new(u64::from(x)).signed()
}

// signed byte, with no branch: a displacement's sign changes from one instruction to the next.
#[tactic(auto, unfolding(crate::specs::Reg::signed_byte))]
pub fn signed_byte(b: u32) -> u32
    requires { b < 4096 }
    ensures value { result ≡ signed_byte b }
    ensures bound { result < word_range }
{
    ((b + 2048) % 4096 + 16775168) % WORD_RANGE
}
