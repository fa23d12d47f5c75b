// The operands of the cases.
ghost use Rattle.std.specs.Prelude.{◌^◌, ◌<◌};

use cases_common::Generator;

// EX, Wpre, W and a storage double word.
#[derive(Clone, Copy)]
pub struct Case {
    pub ex: u32,
    pub pre: u32,
    pub word: u32,
    pub first: u32,
    pub second: u32,
    ghost words: { (pre < 2 ^ 24) × (word < 2 ^ 24) × (first < 2 ^ 24) × (second < 2 ^ 24) },
}

// Wpre of an edge fraction: 0, one unit, minus one unit, 0.5, -0.5, -1.0, the largest, two not normalized, the one below -0.5.
const EDGE_PRE: [u32; 10] = [
    0, 0, 16777215, 4194304, 12582912, 8388608, 8388607, 1, 16777000, 12582911,
];

// Its W(0:11).
const EDGE_LOW: [u32; 10] = [0, 1, 4095, 0, 0, 0, 4095, 2748, 5, 4095];

// -2048, -2047, -1, 0, 1, 35 to 39, 2046, 2047.
const EDGE_EXPONENTS: [u32; 12] = [2048, 2049, 4095, 0, 1, 35, 36, 37, 38, 39, 2046, 2047];

const EDGE_INTEGERS: [u32; 12] = [
    0, 1, 2, 3, 4194303, 4194304, 8388607, 8388608, 8388609, 12582911, 12582912, 16777215,
];

// The last six: -4096, -2072, -2071, -2048, -23, -1.
const EDGE_ADDRESSES: [u32; 24] = [
    0, 1, 22, 23, 24, 41, 63, 64, 87, 2023, 2024, 2047, 2048, 4096, 8191, 8192, 8388607, 8388608,
    16773120, 16775144, 16775145, 16775168, 16777193, 16777215,
];

fn edge_pre(k: u32) -> u32
    ensures { result < 2 ^ 24 }
{
    EDGE_PRE[(k % 10) as usize]
}

fn edge_word(k: u32) -> u32
    ensures { result < 2 ^ 24 }
{
    EDGE_LOW[(k % 10) as usize] * 4096 + EDGE_EXPONENTS[(k / 10 % 12) as usize]
}

// Even cases: the exponent of W, and -40 to 40.
fn near_exponent(i: u32, more: u32, word: u32, second: u32) -> u32
    requires { second < 2 ^ 24 }
    ensures { result < 2 ^ 24 }
{
    if i % 2 == 0 {
        second / 4096 * 4096 + (word % 4096 + more % 81 + 4056) % 4096
    } else {
        second
    }
}

// A fraction near to 0, from above if `more` says k, from below if it says k + 2.
fn near_zero(k: u32, more: u32, w: u32) -> u32
    requires { (k < 2) × (w < 2 ^ 24) }
    ensures { result < 2 ^ 24 }
{
    let kind = more / 128 % 8;
    if kind == k {
        w % 256
    } else if kind == k + 2 {
        16777215 - w % 256
    } else {
        w
    }
}

impl Case {
    // Every two of the 120 edge operands, with EX(21) zero and one.
    pub fn edge_pair(n: u32) -> Case {
        let a = n / 2 % 120;
        let b = n / 240;
        Case {
            ex: n % 2 * 4,
            pre: edge_pre(a),
            word: edge_word(a),
            first: edge_pre(b),
            second: edge_word(b),
        }
    }

    // An edge integer with the edge address after each twelve.
    pub fn edge_integer(n: u32) -> Case {
        Case {
            ex: 0,
            pre: EDGE_INTEGERS[(n % 12) as usize],
            word: 0,
            first: EDGE_ADDRESSES[(n / 12 % 24) as usize],
            second: 0,
        }
    }

    // An edge operand with the edge address after each 120.
    pub fn edge_fraction(n: u32) -> Case {
        Case {
            ex: 0,
            pre: edge_pre(n % 120),
            word: edge_word(n % 120),
            first: EDGE_ADDRESSES[(n / 120 % 24) as usize],
            second: 0,
        }
    }

    pub fn drawn(generator: &mut Generator, i: u32) -> Case {
        let ex = generator.draw();
        let pre = generator.draw_word();
        let word = generator.draw_word();
        let first = generator.draw_word();
        let second = generator.draw_word();
        let more = generator.draw_word();
        Case {
            ex,
            pre: near_zero(0, more, pre),
            word,
            first: near_zero(1, more, first),
            second: near_exponent(i, more, word, second),
        }
    }

    // SB of CI. Even cases: -4096 to 4095.
    pub fn scale(self, i: u32) -> u32 {
        if i % 2 == 0 {
            (self.first % 8192 + 16773120) % 16777216
        } else {
            self.first
        }
    }

    // SB of CF. Even cases: an address for which 23 - SB - Wexp is -8 to 71.
    pub fn address(self, i: u32) -> u32
        ensures { result < 2 ^ 24 }
    {
        if i % 2 == 0 {
            (33554463 - registers::signed_byte(self.word % 4096) - self.first % 80) % 16777216
        } else {
            self.first
        }
    }
}
