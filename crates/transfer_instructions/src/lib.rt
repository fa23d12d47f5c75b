// Address handling, register transfer and byte transfer (14.8): each function does the micro-operations of its meaning, in their order.
#![tactic(auto, unfolding(definition_instructions::specs::Codes::execute, definition_instructions::specs::Meaning::meaning, definition_instructions::specs::MicroOps::execute_operation, definition_instructions::specs::MicroOps::micro_step, definition_instructions::specs::MicroOps::micro_steps, definition_instructions::specs::MicroOps::monitor_step, definition_instructions::specs::MicroOps::monitor_steps))]

ghost use Rattle.std.specs.Prelude.{◌≡◌};
ghost use Rattle.control_row.specs.Endings.{ending, ending_of};
ghost use Rattle.definition_instructions.specs.Codes.{execute};
ghost use Rattle.definition_instructions.specs.Meaning.{AM, AL, HL, HS, RL, RS, RX, DL, DS, BZ, BL};

use control_row::{End, Row};

// Modify Next Address.
pub fn am(s: &mut [u32], k: &mut Row, w: u32, sb: u32) -> End
    ensures { ending_of result s.new k.new ≡ ending (execute AM w sb s.old k.old) }
{
    k.set_pending(sb);
    End::Done
}

// Load Address.
pub fn al(s: &mut [u32], k: &mut Row, w: u32, sb: u32) -> End
    ensures { ending_of result s.new k.new ≡ ending (execute AL w sb s.old k.old) }
{
    machine::put_word(s, w, sb);
    End::Done
}

// Load Half Register.
pub fn hl(s: &mut [u32], k: &mut Row, w: u32, sb: u32) -> End
    ensures { ending_of result s.new k.new ≡ ending (execute HL w sb s.old k.old) }
{
    if machine::is_absent(s, sb) {
        return End::Faulted;
    }
    let x = machine::word_at(s, w);
    let b = machine::byte_at(s, sb);
    machine::put_word(s, w, x / 4096 * 4096 + b);
    End::Done
}

// Store Half Register.
pub fn hs(s: &mut [u32], k: &mut Row, w: u32, sb: u32) -> End
    ensures { ending_of result s.new k.new ≡ ending (execute HS w sb s.old k.old) }
{
    if machine::is_absent(s, sb) {
        return End::Faulted;
    }
    if k.is_violation(s, sb / 2) {
        return End::Faulted;
    }
    let x = machine::word_at(s, w);
    machine::put_byte(s, sb, x);
    End::Done
}

// Load Register.
pub fn rl(s: &mut [u32], k: &mut Row, w: u32, sb: u32) -> End
    ensures { ending_of result s.new k.new ≡ ending (execute RL w sb s.old k.old) }
{
    if machine::is_absent(s, sb) {
        return End::Faulted;
    }
    let y = machine::word_at(s, sb / 2);
    machine::put_word(s, w, y);
    End::Done
}

// Store Register.
pub fn rs(s: &mut [u32], k: &mut Row, w: u32, sb: u32) -> End
    ensures { ending_of result s.new k.new ≡ ending (execute RS w sb s.old k.old) }
{
    if machine::is_absent(s, sb) {
        return End::Faulted;
    }
    if k.is_violation(s, sb / 2) {
        return End::Faulted;
    }
    let x = machine::word_at(s, w);
    machine::put_word(s, sb / 2, x);
    End::Done
}

// Exchange Register and Store: W is loaded before Test Protection.
pub fn rx(s: &mut [u32], k: &mut Row, w: u32, sb: u32) -> End
    ensures { ending_of result s.new k.new ≡ ending (execute RX w sb s.old k.old) }
{
    if machine::is_absent(s, sb) {
        return End::Faulted;
    }
    let x = machine::word_at(s, w);
    let y = machine::word_at(s, sb / 2);
    machine::put_word(s, w, y);
    if k.is_violation(s, sb / 2) {
        return End::Faulted;
    }
    machine::put_word(s, sb / 2, x);
    End::Done
}

// Load Double Register: the first word is read after W was written.
pub fn dl(s: &mut [u32], k: &mut Row, w: u32, sb: u32) -> End
    ensures { ending_of result s.new k.new ≡ ending (execute DL w sb s.old k.old) }
{
    if machine::is_absent(s, sb) {
        return End::Faulted;
    }
    let y = machine::word_at(s, sb / 2);
    machine::put_word(s, w, y);
    let a = machine::first_word(sb);
    let u = machine::word_at(s, a / 2);
    let p = machine::previous_register(w);
    machine::put_word(s, p, u);
    End::Done
}

// Store Double Register: the second word is tested and written, then the first.
pub fn ds(s: &mut [u32], k: &mut Row, w: u32, sb: u32) -> End
    ensures { ending_of result s.new k.new ≡ ending (execute DS w sb s.old k.old) }
{
    if machine::is_absent(s, sb) {
        return End::Faulted;
    }
    if k.is_violation(s, sb / 2) {
        return End::Faulted;
    }
    let x = machine::word_at(s, w);
    machine::put_word(s, sb / 2, x);
    let a = machine::first_word(sb);
    if k.is_violation(s, a / 2) {
        return End::Faulted;
    }
    let p = machine::previous_register(w);
    let u = machine::word_at(s, p);
    machine::put_word(s, a / 2, u);
    End::Done
}

// Load Byte with Zeroes.
pub fn bz(s: &mut [u32], k: &mut Row, w: u32, sb: u32) -> End
    ensures { ending_of result s.new k.new ≡ ending (execute BZ w sb s.old k.old) }
{
    if machine::is_absent(s, sb) {
        return End::Faulted;
    }
    let b = machine::byte_at(s, sb);
    machine::put_word(s, w, b);
    End::Done
}

// Load Integer Byte.
pub fn bl(s: &mut [u32], k: &mut Row, w: u32, sb: u32) -> End
    ensures { ending_of result s.new k.new ≡ ending (execute BL w sb s.old k.old) }
{
    if machine::is_absent(s, sb) {
        return End::Faulted;
    }
    let b = machine::byte_at(s, sb);
    let e = registers::signed_byte(b);
    machine::put_word(s, w, e);
    End::Done
}
