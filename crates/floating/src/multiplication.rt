// Multiply Floating: 35 steps on AF and BF, and a last subtraction.
ghost use Rattle.std.specs.Prelude.{◌≡◌, ◌/◌};
ghost use Rattle.registers.specs.Reg.{asr};
ghost use Rattle.floating.specs.Multiply.{fm_step, fm_end, fm_loop, multiply_floating};

use super::Operands;
use registers::Register;
use rounding::{Pair, Unpacked};

#[derive(Clone, Copy)]
pub struct Product {
    pub af: Register<39>,
    pub bf: Register<36>,
}

fn shifted(p: Product) -> Product
    ensures { result ≡ record { af = asr 39 p.af; bf = p.bf / 2 } }
{
    Product {
        af: p.af.shifted_right(),
        bf: p.bf.logical_right(1),
    }
}

#[tactic(auto, unfolding(crate::specs::Multiply::fm_step))]
fn step(x: Register<39>, p: Product) -> Product
    ensures { result ≡ fm_step x p }
{
    if p.bf.bits() % 2 == 1 {
        let af = p.af.wrapping_add(x);
        shifted(Product { af, ..p })
    } else {
        shifted(p)
    }
}

#[tactic(auto, unfolding(crate::specs::Multiply::fm_end))]
fn end(x: Register<39>, p: Product) -> Register<39>
    ensures { result ≡ fm_end x p }
{
    if p.bf.bits() % 2 == 1 {
        p.af.wrapping_sub(x)
    } else {
        p.af
    }
}

#[tactic(auto, unfolding(crate::specs::Multiply::fm_loop), using(registers::proofs::Loops::iter_none, registers::proofs::Loops::iter_next))]
fn multiply_loop(x: Register<39>, bf: Register<36>) -> Register<39>
    ensures { result ≡ fm_loop x bf }
{
    let mut p = Product {
        af: Register::new(0),
        bf,
    };
    for _ in 0u32..35 {
        p = step(x, p);
    }
    end(x, p)
}

#[tactic(auto, unfolding(crate::specs::Multiply::multiply_floating))]
pub fn multiply_floating(ex: u32, o: Operands) -> Pair
    ensures { result ≡ multiply_floating ex o }
{
    let x = o.sf.signed();
    let af = multiply_loop(x, o.af.first::<37>().last());
    let sc = o.wexp.signed::<13>().wrapping_add(o.sbexp.signed());
    rounding::round_store(ex, Unpacked { af, sc })
}
