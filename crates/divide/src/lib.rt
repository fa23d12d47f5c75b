// Divide Integer Word, by its steps. ARBR has 49 bits, AR 25 and BR 24. The 24 steps have ARBR in a u64: by `Register<49>` the bench's division takes 196.5
// host instructions for each emulated one, the limit is 190 (host/count).
#![tactic(auto)]

ghost use Rattle.std.specs.Prelude.{◌≡◌, ◌^◌, ◌<◌};
ghost use Rattle.registers.specs.Reg.{add_ar, sub_ar};
ghost use Rattle.divide.specs.Wd.{wd_step, wd_loop, abs24, kept, stored_division, wd_sign, wd_correction, wd_end, wd};

use registers::{LONG_WORD_RANGE, Register, signed25};

const LONG_BIT_0: u64 = 1 << 23;

// Wpre and W, and 1 where the quotient does not fit and the pair is kept: the bit EX(22). The record of the definition `wd` has the kept pair too, so this
// is no Option.
#[derive(Clone, Copy)]
pub struct Divided {
    pub pre: u32,
    pub word: u32,
    pub over: u32,
}

// AR := AR + x on ARBR.
fn add_ar(x: u64, p: u64) -> u64
    requires { (x < 2 ^ 25) × (p < 2 ^ 49) }
    ensures { (result ≡ add_ar x p) × (result < 2 ^ 49) }
{
    (p + x * LONG_WORD_RANGE) % 562949953421312
}

// AR := AR - x on ARBR.
fn sub_ar(x: u64, p: u64) -> u64
    requires { (x < 2 ^ 25) × (p < 2 ^ 49) }
    ensures { (result ≡ sub_ar x p) × (result < 2 ^ 49) }
{
    (p + (33554432 - x) * LONG_WORD_RANGE) % 562949953421312
}

fn step(s: u64, p: u64) -> u64
    requires { (s < 2 ^ 24) × (p < 2 ^ 49) }
    ensures { (result ≡ wd_step s p) × (result < 2 ^ 49) }
{
    let x = s + s / LONG_BIT_0 * LONG_WORD_RANGE;
    if p / 281474976710656 == s / LONG_BIT_0 {
        sub_ar(x, p * 2 % 562949953421312 + 1)
    } else {
        add_ar(x, p * 2 % 562949953421312)
    }
}

fn steps(s: u64, p: u64) -> u64
    requires { (s < 2 ^ 24) × (p < 2 ^ 49) }
    ensures { (result ≡ wd_loop s p) × (result < 2 ^ 49) }
{
    let mut q = p;
    for _ in 0u32..24 {
        q = step(s, q);
    }
    q * 2 % 562949953421312 + 1
}

// What the steps leave: the pair, the divisor and ARBR.
#[derive(Clone, Copy)]
struct Division {
    pre: Register<24>,
    word: Register<24>,
    divisor: Register<24>,
    ar: Register<25>,
    br: Register<24>,
}

impl Division {
    // Wpre := AR(0:23); W := BR
    fn store(self) -> Divided
        ensures { result ≡ stored_division self.ar self.br }
    {
        Divided {
            pre: self.ar.word(),
            word: self.br.word(),
            over: 0,
        }
    }

    fn keep(self) -> Divided
        ensures { result ≡ kept self.pre self.word }
    {
        Divided {
            pre: self.pre.word(),
            word: self.word.word(),
            over: 1,
        }
    }

    // A remainder that is not zero takes the dividend's sign.
    #[tactic(auto, unfolding(crate::specs::Wd::wd_sign))]
    fn match_sign(self) -> Divided
        ensures { result ≡ wd_sign self.pre self.divisor self.ar self.br }
    {
        let x = self.divisor.signed();
        let one = Register::new(1);
        if self.ar.bits() == 0 || self.ar.sign() == self.pre.sign() {
            self.store()
        } else if self.ar.sign() == self.divisor.sign() {
            let (ar, br) = (self.ar.wrapping_sub(x), self.br.wrapping_add(one));
            Division { ar, br, ..self }.store()
        } else {
            let (ar, br) = (self.ar.wrapping_add(x), self.br.wrapping_sub(one));
            Division { ar, br, ..self }.store()
        }
    }

    // The remainder is as large as the divisor: the quotient goes up or down by one, with the signs as printed.
    #[tactic(auto, unfolding(crate::specs::Wd::wd_correction))]
    fn correct(self) -> Divided
        ensures { result ≡ wd_correction self.pre self.word self.divisor self.ar self.br }
    {
        let ar = Register::new(0);
        let one = Register::new(1);
        if self.divisor.sign() == 1 {
            let br = self.br.wrapping_sub(one);
            return Division { ar, br, ..self }.match_sign();
        }
        let br = self.br.wrapping_add(one);
        if self.ar.bits() % 2 == br.sign() {
            return self.keep();
        }
        Division { ar, br, ..self }.match_sign()
    }

    #[tactic(auto, unfolding(crate::specs::Wd::wd_end))]
    fn finish(self) -> Divided
        ensures { result ≡ wd_end self.pre self.word self.divisor self.ar self.br }
    {
        if self.ar.bits() % 2 == self.br.sign() {
            return self.keep();
        }
        if magnitude(self.ar.first()) == magnitude(self.divisor) {
            return self.correct();
        }
        let ar = self.ar.shifted_right();
        Division { ar, ..self }.match_sign()
    }
}

#[tactic(auto, unfolding(crate::specs::Wd::abs24))]
fn magnitude(x: Register<24>) -> u64
    ensures { result ≡ abs24 x }
{
    let n = x.bits();
    if n < LONG_BIT_0 {
        n
    } else {
        LONG_WORD_RANGE - n
    }
}

// WD: Wpre and W by the storage word.
#[tactic(auto, unfolding(crate::specs::Wd::wd))]
pub fn divide(pre: u32, w: u32, s: u32) -> Divided
    requires { (pre < 2 ^ 24) × (w < 2 ^ 24) × (s < 2 ^ 24) }
    ensures value { result ≡ wd pre w s }
    ensures bounds { (result.pre < 2 ^ 24) × (result.word < 2 ^ 24) × (result.over < 2) }
{
    let divisor = Register::new(u64::from(s));
    let word = Register::<24>::new(u64::from(w));
    let pair = signed25(pre).at_left::<49>().bits() + word.bits();
    let q = Register::<49>::new(steps(u64::from(s), pair));
    let d = Division {
        pre: Register::new(u64::from(pre)),
        word,
        divisor,
        ar: q.first(),
        br: q.last(),
    };
    d.finish()
}
