// A register of N bits. Bit 0 is the left-most, with the weight 2 ^ (N - 1).
ghost use Rattle.std.specs.Prelude.{◌≡◌, ◌+◌, ◌-◌, ◌*◌, ◌/◌, ◌%◌, ◌^◌, ◌<◌, ◌≤◌, not, ◌==◌};
ghost use Rattle.registers.specs.Reg.{word_range, bit_from_right, sign, signed, complement, bits_differ, asr, shl, iter};

use std::marker::Model;

// Its bits, as a number.
#[derive(Clone, Copy)]
pub struct Register<const N: u32> {
    bits: u64,
}

impl<const N: u32> Model for Register<N> {
    ghost use Rattle.std.specs.Prelude.{ℕ, ◌^◌, ◌<◌};

    ghost Value = { ℕ };

    ghost view = { λ r. r.bits };

    ghost invariant = { λ r. (r.bits < 2 ^ N) × (0 < N) × (N < 64) };

    ghost inverse = { λ n. record { bits = n } };
}

impl<const N: u32> Register<N> {
    pub fn new(bits: u64) -> Self
        requires width { (0 < N) × (N < 64) }
        requires bits { bits < 2 ^ N }
        ensures { result ≡ bits }
    {
        Register { bits }
    }

    pub fn bits(self) -> u64
        ensures value { result ≡ self.entry }
        ensures bound { result < 2 ^ N }
    {
        self.bits
    }

    // The last 24 bits.
    pub fn word(self) -> u32
        ensures value { result ≡ self.entry % 2 ^ 24 }
        ensures bound { result < 2 ^ 24 }
    {
        (self.bits % (1 << 24)) as u32
    }

    // R(0:M-1)
    pub fn first<const M: u32>(self) -> Register<M>
        requires { (0 < M) × (M ≤ N) }
        ensures { result ≡ self.entry / 2 ^ (N - M) }
    {
        Register {
            bits: self.bits >> (N - M),
        }
    }

    // R(N-M:N-1)
    pub fn last<const M: u32>(self) -> Register<M>
        requires { (0 < M) × (M ≤ N) }
        ensures { result ≡ self.entry % 2 ^ M }
    {
        Register {
            bits: self.bits % (1 << M),
        }
    }

    // M bits: R, and zeros at its right.
    pub fn at_left<const M: u32>(self) -> Register<M>
        requires { (N ≤ M) × (M < 64) }
        ensures { result ≡ self.entry * 2 ^ (M - N) }
    {
        Register {
            bits: self.bits << (M - N),
        }
    }

    // M bits: signed R.
    pub fn signed<const M: u32>(self) -> Register<M>
        requires { (N ≤ M) × (M < 64) }
        ensures { result ≡ signed N M self.entry }
    {
        Register {
            bits: self.bits + self.sign() * ((1 << M) - (1 << N)),
        }
    }

    // R(0)
    pub fn sign(self) -> u64
        ensures value { result ≡ sign N self.entry }
        ensures bound { result < 2 }
    {
        self.bits >> (N - 1)
    }

    // R(0) <> R(1)
    pub fn bits_differ(self) -> bool
        requires { 1 < N }
        ensures { result ≡ not (sign N self.entry == bit_from_right (N - 2) self.entry) }
    {
        self.sign() != (self.bits >> (N - 2)) % 2
    }

    // 1 where R(0) <> R(1): what R(1:N-1) should hold does not fit.
    pub fn overflow(self) -> u32
        requires { 1 < N }
        ensures value { result ≡ bits_differ (sign N self.entry) (bit_from_right (N - 2) self.entry) }
        ensures bound { result < 2 }
    {
        u32::from(self.bits_differ())
    }

    // R := not R
    pub fn complement(self) -> Self
        ensures { result ≡ complement N self.entry }
    {
        Register {
            bits: (1 << N) - 1 - self.bits,
        }
    }

    // R := R + x; what goes out at the left is dropped.
    pub fn wrapping_add(self, x: Self) -> Self
        ensures { result ≡ (self.entry + x.entry) % 2 ^ N }
    {
        Register {
            bits: (self.bits + x.bits) % (1 << N),
        }
    }

    // R := R - x
    pub fn wrapping_sub(self, x: Self) -> Self
        ensures { result ≡ (self.entry + (2 ^ N - x.entry)) % 2 ^ N }
    {
        Register {
            bits: (self.bits + ((1 << N) - x.bits)) % (1 << N),
        }
    }

    // R := shiftleft R
    pub fn shifted_left(self) -> Self
        ensures { result ≡ shl N self.entry }
    {
        Register {
            bits: self.bits * 2 % (1 << N),
        }
    }

    // R := shiftleft R; R(N-1) := bit
    pub fn shifted_in(self, bit: u64) -> Self
        requires { bit < 2 }
        ensures { result ≡ shl N self.entry + bit }
    {
        Register {
            bits: self.bits * 2 % (1 << N) + bit,
        }
    }

    // R(1:N-1) := R(0:N-2), R(0) stays.
    pub fn shifted_right(self) -> Self
        ensures { result ≡ asr N self.entry }
    {
        Register {
            bits: self.bits / 2 + (self.sign() << (N - 1)),
        }
    }

    // The same n times.
    #[tactic(auto, using(crate::proofs::Loops::iter_none, crate::proofs::Loops::iter_next))]
    pub fn shifted_right_by(self, n: u32) -> Self
        ensures { result ≡ iter (asr N) n self.entry }
    {
        let mut x = self;
        for _ in 0..n {
            x = x.shifted_right();
        }
        x
    }

    // R := shiftleft R, n times.
    pub fn logical_left(self, n: u32) -> Self
        requires { n < 64 }
        ensures { result ≡ iter (shl N) n self.entry }
    {
        Register {
            bits: (self.bits << n) % (1 << N),
        }
    }

    // R := shiftright R, n times.
    pub fn logical_right(self, n: u32) -> Self
        requires { n < 64 }
        ensures { result ≡ self.entry / 2 ^ n }
    {
        Register {
            bits: self.bits >> n,
        }
    }
}
