// Add Floating and Subtract Floating: ADD says which.
ghost use Rattle.std.specs.Prelude.{◌≡◌};
ghost use Rattle.floating.specs.Add.{fa_sum, fa_negligible, fa_align, fa_by_difference, add_floating};

use super::Operands;
use registers::Register;
use rounding::{Pair, Unpacked};

#[tactic(auto, unfolding(crate::specs::Add::fa_sum))]
fn sum<const ADD: bool>(ex: u32, wexp: Register<12>, af: Register<39>, sf: Register<38>) -> Pair
    ensures { result ≡ fa_sum ADD ex wexp af sf }
{
    let x = sf.signed();
    let sc = wexp.signed();
    if ADD {
        let af = af.wrapping_add(x);
        return rounding::round_store(ex, Unpacked { af, sc });
    }
    let af = af.wrapping_sub(x);
    rounding::round_store(ex, Unpacked { af, sc })
}

// SC <= -38: the register operand does not count.
#[tactic(auto, unfolding(crate::specs::Add::fa_negligible))]
fn negligible<const ADD: bool>(ex: u32, o: Operands) -> Pair
    ensures { result ≡ fa_negligible ADD ex o }
{
    if ADD {
        let (af, sc) = (o.sf.signed(), o.sbexp.signed());
        return rounding::precise_store(ex, Unpacked { af, sc }, 0);
    }
    sum::<ADD>(ex, o.sbexp, Register::new(0), o.sf)
}

// -38 < SC < 38; b is SC + 2 ** 12.
#[tactic(auto, unfolding(crate::specs::Add::fa_align))]
fn align<const ADD: bool>(b: u32, ex: u32, o: Operands) -> Pair
    ensures { result ≡ fa_align b ADD ex o }
{
    if b > 4096 {
        return sum::<ADD>(ex, o.wexp, o.af, o.sf.shifted_right_by(b - 4096));
    }
    if b < 4096 {
        return sum::<ADD>(ex, o.sbexp, o.af.shifted_right_by(4096 - b), o.sf);
    }
    sum::<ADD>(ex, o.wexp, o.af, o.sf)
}

#[tactic(auto, unfolding(crate::specs::Add::fa_by_difference))]
fn by_difference<const ADD: bool>(b: u32, ex: u32, o: Operands) -> Pair
    ensures { result ≡ fa_by_difference b ADD ex o }
{
    if b >= 4134 {
        let (af, sc) = (o.af, o.wexp.signed());
        return rounding::precise_store(ex, Unpacked { af, sc }, 0);
    }
    if b <= 4058 {
        return negligible::<ADD>(ex, o);
    }
    align::<ADD>(b, ex, o)
}

#[tactic(auto, unfolding(crate::specs::Add::add_floating))]
pub fn add_floating<const ADD: bool>(ex: u32, o: Operands) -> Pair
    ensures { result ≡ add_floating ADD ex o }
{
    let sc = o.wexp.signed::<13>().wrapping_sub(o.sbexp.signed());
    let b = sc.wrapping_add(Register::new(4096)).word();
    by_difference::<ADD>(b, ex, o)
}
