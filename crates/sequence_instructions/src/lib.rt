// Jumps, skips and monitor control (14.8): each function does the micro-operations of its meaning, in their order.
#![tactic(auto, unfolding(definition_instructions::specs::Codes::execute, definition_instructions::specs::Meaning::meaning, definition_instructions::specs::MicroOps::execute_operation, definition_instructions::specs::MicroOps::micro_step, definition_instructions::specs::MicroOps::micro_steps, definition_instructions::specs::MicroOps::monitor_step, definition_instructions::specs::MicroOps::monitor_steps, definition_instructions::specs::MicroOps::skipped))]

ghost use Rattle.std.specs.Prelude.{◌≡◌, ◌<◌};
ghost use Rattle.registers.specs.Reg.{word_range};
ghost use Rattle.control_row.specs.Endings.{ending, ending_of};
ghost use Rattle.definition_instructions.specs.Codes.{execute};
ghost use Rattle.definition_instructions.specs.Meaning.{JL, SH, SL, SE, SN, SO, SZ, SX, SP, JE, JD, IC, IS, ML, MS, XL, XS, PL, PS, KL, KS};
ghost use Rattle.definition_instructions.specs.MicroOps.{skipped};

use control_row::{End, Row};
use registers::{BIT_0, WORD_RANGE};

// if test then IC := IC + 2.
fn skip_if(k: &mut Row, test: bool)
    ensures { k.new ≡ skipped k.old test }
{
    if test {
        let a = k.ic();
        let n = integer::sum24(a, 2);
        k.set_ic(n);
    }
}

// Jump with Register Link.
pub fn jl(s: &mut [u32], k: &mut Row, w: u32, sb: u32) -> End
    ensures { ending_of result s.new k.new ≡ ending (execute JL w sb s.old k.old) }
{
    if machine::is_absent(s, sb) {
        return End::Faulted;
    }
    if k.is_violation(s, sb / 2) {
        return End::Faulted;
    }
    let n = k.ic();
    machine::put_link(s, w, n);
    k.set_ic(sb / 2 * 2);
    End::Done
}

// Skip if Register High.
pub fn sh(s: &mut [u32], k: &mut Row, w: u32, sb: u32) -> End
    requires { sb < word_range }
    ensures { ending_of result s.new k.new ≡ ending (execute SH w sb s.old k.old) }
{
    let x = machine::word_at(s, w);
    let t = integer::is_high(x, sb);
    skip_if(k, t);
    End::Done
}

// Skip if Register Low.
pub fn sl(s: &mut [u32], k: &mut Row, w: u32, sb: u32) -> End
    requires { sb < word_range }
    ensures { ending_of result s.new k.new ≡ ending (execute SL w sb s.old k.old) }
{
    let x = machine::word_at(s, w);
    let t = integer::is_low(x, sb);
    skip_if(k, t);
    End::Done
}

// Skip if Register Equal.
pub fn se(s: &mut [u32], k: &mut Row, w: u32, sb: u32) -> End
    requires { sb < word_range }
    ensures { ending_of result s.new k.new ≡ ending (execute SE w sb s.old k.old) }
{
    let x = machine::word_at(s, w);
    let t = integer::is_equal(x, sb);
    skip_if(k, t);
    End::Done
}

// Skip if Register Not Equal.
pub fn sn(s: &mut [u32], k: &mut Row, w: u32, sb: u32) -> End
    requires { sb < word_range }
    ensures { ending_of result s.new k.new ≡ ending (execute SN w sb s.old k.old) }
{
    let x = machine::word_at(s, w);
    let t = integer::is_not_equal(x, sb);
    skip_if(k, t);
    End::Done
}

// Skip if Register Bits One.
pub fn so(s: &mut [u32], k: &mut Row, w: u32, sb: u32) -> End
    requires { sb < word_range }
    ensures { ending_of result s.new k.new ≡ ending (execute SO w sb s.old k.old) }
{
    let x = machine::word_at(s, w);
    let t = integer::bits_one(x, sb);
    skip_if(k, t);
    End::Done
}

// Skip if Register Bits Zero.
pub fn sz(s: &mut [u32], k: &mut Row, w: u32, sb: u32) -> End
    requires { sb < word_range }
    ensures { ending_of result s.new k.new ≡ ending (execute SZ w sb s.old k.old) }
{
    let x = machine::word_at(s, w);
    let t = integer::bits_zero(x, sb);
    skip_if(k, t);
    End::Done
}

// Skip if No Exceptions.
pub fn sx(s: &mut [u32], k: &mut Row, w: u32, sb: u32) -> End
    requires { sb < word_range }
    ensures { ending_of result s.new k.new ≡ ending (execute SX w sb s.old k.old) }
{
    let x = k.ex();
    let t = integer::bits_zero(x % 8, sb);
    skip_if(k, t);
    End::Done
}

// Skip if No Protection.
pub fn sp(s: &mut [u32], k: &mut Row, w: u32, sb: u32) -> End
    ensures { ending_of result s.new k.new ≡ ending (execute SP w sb s.old k.old) }
{
    if machine::is_absent(s, sb) {
        return End::Faulted;
    }
    let p = k.is_forbidden(s, sb / 2);
    skip_if(k, !p);
    End::Done
}

// Jump with Interrupt Enabled.
pub fn je(s: &mut [u32], k: &mut Row, w: u32, sb: u32) -> End
    ensures { ending_of result s.new k.new ≡ ending (execute JE w sb s.old k.old) }
{
    if k.is_task() {
        return End::Faulted;
    }
    if machine::is_absent(s, sb) {
        return End::Faulted;
    }
    k.set_enabled(true);
    let n = k.ic();
    machine::put_link(s, w, n);
    k.set_ic(sb / 2 * 2);
    End::Done
}

// Jump with Interrupt Disabled.
pub fn jd(s: &mut [u32], k: &mut Row, w: u32, sb: u32) -> End
    ensures { ending_of result s.new k.new ≡ ending (execute JD w sb s.old k.old) }
{
    if k.is_task() {
        return End::Faulted;
    }
    if machine::is_absent(s, sb) {
        return End::Faulted;
    }
    k.set_enabled(false);
    let n = k.ic();
    machine::put_link(s, w, n);
    k.set_ic(sb / 2 * 2);
    End::Done
}

// Clear Interrupt Bits.
pub fn ic(s: &mut [u32], k: &mut Row, w: u32, sb: u32) -> End
    requires { sb < word_range }
    ensures { ending_of result s.new k.new ≡ ending (execute IC w sb s.old k.old) }
{
    if k.is_task() {
        return End::Faulted;
    }
    let x = k.ir();
    let r = integer::clear24(x % WORD_RANGE, sb);
    k.set_ir(r);
    End::Done
}

// Store Interrupt Register.
pub fn is(s: &mut [u32], k: &mut Row, w: u32, sb: u32) -> End
    ensures { ending_of result s.new k.new ≡ ending (execute IS w sb s.old k.old) }
{
    if machine::is_absent(s, sb) {
        return End::Faulted;
    }
    if k.is_violation(s, sb / 2) {
        return End::Faulted;
    }
    let x = k.ir();
    machine::put_word(s, sb / 2, x);
    End::Done
}

// Load Mask Register: IM(0) is always one.
pub fn ml(s: &mut [u32], k: &mut Row, w: u32, sb: u32) -> End
    ensures { ending_of result s.new k.new ≡ ending (execute ML w sb s.old k.old) }
{
    if k.is_task() {
        return End::Faulted;
    }
    if machine::is_absent(s, sb) {
        return End::Faulted;
    }
    let y = machine::word_at(s, sb / 2);
    k.set_im(BIT_0 + y % BIT_0);
    End::Done
}

// Store Mask Register.
pub fn ms(s: &mut [u32], k: &mut Row, w: u32, sb: u32) -> End
    ensures { ending_of result s.new k.new ≡ ending (execute MS w sb s.old k.old) }
{
    if machine::is_absent(s, sb) {
        return End::Faulted;
    }
    if k.is_violation(s, sb / 2) {
        return End::Faulted;
    }
    let x = k.im();
    machine::put_word(s, sb / 2, x);
    End::Done
}

// Load Exception Register.
pub fn xl(s: &mut [u32], k: &mut Row, w: u32, sb: u32) -> End
    ensures { ending_of result s.new k.new ≡ ending (execute XL w sb s.old k.old) }
{
    if machine::is_absent(s, sb) {
        return End::Faulted;
    }
    let b = machine::byte_at(s, sb);
    k.set_ex(b);
    End::Done
}

// Store Exception Register.
pub fn xs(s: &mut [u32], k: &mut Row, w: u32, sb: u32) -> End
    ensures { ending_of result s.new k.new ≡ ending (execute XS w sb s.old k.old) }
{
    if machine::is_absent(s, sb) {
        return End::Faulted;
    }
    if k.is_violation(s, sb / 2) {
        return End::Faulted;
    }
    let x = k.ex();
    machine::put_byte(s, sb, x);
    End::Done
}

// Load Protection Register.
pub fn pl(s: &mut [u32], k: &mut Row, w: u32, sb: u32) -> End
    ensures { ending_of result s.new k.new ≡ ending (execute PL w sb s.old k.old) }
{
    if k.is_task() {
        return End::Faulted;
    }
    if machine::is_absent(s, sb) {
        return End::Faulted;
    }
    let b = machine::byte_at(s, sb);
    k.set_pr(b);
    End::Done
}

// Store Protection Register.
pub fn ps(s: &mut [u32], k: &mut Row, w: u32, sb: u32) -> End
    ensures { ending_of result s.new k.new ≡ ending (execute PS w sb s.old k.old) }
{
    if machine::is_absent(s, sb) {
        return End::Faulted;
    }
    if k.is_violation(s, sb / 2) {
        return End::Faulted;
    }
    let x = k.pr();
    machine::put_byte(s, sb, x);
    End::Done
}

// Load Protection Key.
pub fn kl(s: &mut [u32], k: &mut Row, w: u32, sb: u32) -> End
    ensures { ending_of result s.new k.new ≡ ending (execute KL w sb s.old k.old) }
{
    if machine::is_absent(s, sb) {
        return End::Faulted;
    }
    let q = machine::key_at(s, sb / 2);
    machine::put_word(s, w, q);
    End::Done
}

// Store Protection Key.
pub fn ks(s: &mut [u32], k: &mut Row, w: u32, sb: u32) -> End
    ensures { ending_of result s.new k.new ≡ ending (execute KS w sb s.old k.old) }
{
    if k.is_task() {
        return End::Faulted;
    }
    if machine::is_absent(s, sb) {
        return End::Faulted;
    }
    let x = machine::word_at(s, w);
    machine::put_key(s, sb / 2, x);
    End::Done
}
