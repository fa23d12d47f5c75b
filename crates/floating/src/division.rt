// Divide Floating: the loop on AF and BF.
ghost use Rattle.std.specs.Prelude.{◌≡◌, ◌+◌, ◌<◌};
ghost use Rattle.registers.specs.Reg.{iter};
ghost use Rattle.floating.specs.Divide.{next_digit, fd_start, fd_add, fd_step, fd_loop, fd_result, divide_floating};

use super::Operands;
use registers::Register;
use rounding::{Pair, Unpacked};

// Of SC, as printed (docs/DECISIONS.md, A3).
const DIVIDE_OFFSET: u64 = 35;

#[derive(Clone, Copy)]
pub struct Quotient {
    pub af: Register<39>,
    pub bf: Register<36>,
    pub digit: Register<1>,
    pub passes: u32,
}

fn next_digit(x: Register<39>, af: Register<39>) -> Register<1>
    ensures { result ≡ next_digit x af }
{
    Register::new((af.sign() + x.sign() + 1) % 2)
}

#[tactic(auto, unfolding(crate::specs::Divide::fd_start))]
fn start(x: Register<39>, af: Register<39>) -> Quotient
    ensures value { result ≡ fd_start x af }
    ensures none { result.passes ≡ 0 }
{
    if af.sign() == x.sign() {
        let af = af.wrapping_sub(x).shifted_left();
        Quotient {
            af,
            bf: Register::new(0),
            digit: next_digit(x, af),
            passes: 0,
        }
    } else {
        let af = af.wrapping_add(x).shifted_left();
        Quotient {
            af,
            bf: Register::new(0).complement(),
            digit: next_digit(x, af),
            passes: 0,
        }
    }
}

#[tactic(auto, unfolding(crate::specs::Divide::fd_add))]
fn add(x: Register<39>, digit: Register<1>, af: Register<39>) -> Register<39>
    ensures { result ≡ fd_add x digit af }
{
    if digit.bits() == 1 {
        af.wrapping_sub(x)
    } else {
        af.wrapping_add(x)
    }
}

fn step(x: Register<39>, q: Quotient) -> Quotient
    requires { q.passes < 71 }
    ensures value { result ≡ fd_step x q }
    ensures counted { result.passes ≡ q.passes + 1 }
{
    let t = add(x, q.digit, q.af);
    Quotient {
        af: t.shifted_left(),
        bf: q.bf.shifted_in(q.digit.bits()),
        digit: next_digit(x, t),
        passes: q.passes + 1,
    }
}

// The first 35 passes: before each of them BF(0) and BF(1) are as at the start, and equal, so the loop goes on (`proofs/Passes.antt`).
#[tactic(auto, using(registers::proofs::Loops::iter_none, registers::proofs::Loops::iter_next))]
fn first_passes(x: Register<39>, af: Register<39>) -> Quotient
    ensures value { result ≡ iter (fd_step x) 35 (fd_start x af) }
    ensures counted { result.passes ≡ 35 }
{
    let mut q = start(x, af);
    for _ in 0u32..35 {
        q = step(x, q);
    }
    q
}

fn divide_loop(x: Register<39>, af: Register<39>) -> Quotient
    ensures value { result ≡ fd_loop x af }
    ensures counted { result.passes < 72 }
{
    let mut q = first_passes(x, af);
    while q.passes < 71 {
        if q.bf.bits_differ() {
            return q;
        }
        q = step(x, q);
    }
    q
}

// BF as the fraction, with the digit after it for rounding.
fn result(o: Operands, x: Register<39>, q: Quotient) -> Unpacked
    requires { q.passes < 72 }
    ensures { result ≡ fd_result o.wexp o.sbexp x q }
{
    let bf = q.bf.signed::<37>().bits();
    let difference = o.wexp.signed::<13>().wrapping_sub(o.sbexp.signed());
    Unpacked {
        af: Register::new(bf * 4 + next_digit(x, q.af).bits() * 2),
        sc: difference
            .wrapping_add(Register::new(DIVIDE_OFFSET))
            .wrapping_sub(Register::new(u64::from(q.passes))),
    }
}

#[tactic(auto, unfolding(crate::specs::Divide::divide_floating))]
pub fn divide_floating(ex: u32, pre: u32, word: u32, o: Operands) -> Pair
    ensures { result ≡ divide_floating ex pre word o }
{
    let pre = u64::from(pre);
    let word = u64::from(word);
    if o.sf.first::<24>().bits() == 0 {
        return Pair { pre, word, over: 1 };
    }
    if o.af.first::<25>().bits() == 0 {
        let word = word / 4096 * 4096 + 2048;
        return Pair { pre, word, over: 0 };
    }
    let x = o.sf.signed();
    let q = divide_loop(x, o.af);
    rounding::round_store(ex, result(o, x, q))
}
