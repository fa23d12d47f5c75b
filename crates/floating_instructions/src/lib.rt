// Conversions and floating-point arithmetic (14.8): each function does the micro-operations of its meaning, in their order.
#![tactic(auto, unfolding(definition_instructions::specs::Codes::execute, definition_instructions::specs::Meaning::meaning, definition_instructions::specs::MicroOps::execute_operation, definition_instructions::specs::MicroOps::micro_step, definition_instructions::specs::MicroOps::micro_steps, definition_instructions::specs::MicroOps::monitor_step, definition_instructions::specs::MicroOps::monitor_steps, definition_times::specs::Times::operation_time))]

ghost use Rattle.std.specs.Prelude.{◌≡◌, ◌<◌};
ghost use Rattle.registers.specs.Reg.{word_range};
ghost use Rattle.control_row.specs.Endings.{ending, ending_of};
ghost use Rattle.definition_instructions.specs.Codes.{execute};
ghost use Rattle.definition_instructions.specs.Meaning.{CI, CF, FA, FS, FM, FD};
ghost use Rattle.definition_instructions.specs.Machine.{computer};
ghost use Rattle.definition_times.specs.Times.{operation_time};
ghost use Rattle.timer_row.specs.Row.{passing};

use control_row::{End, Row};
use machine::{FLOATING_OVERFLOW, INTEGER_OVERFLOW};
use timer_row::Clock;

// Convert Integer to Floating.
pub fn ci(s: &mut [u32], k: &mut Row, t: &mut Clock, w: u32, sb: u32) -> End
    ensures value { ending_of result s.new k.new ≡ ending (execute CI w sb s.old k.old) }
    ensures time { t.new ≡ passing (operation_time CI sb w (computer s.old k.old)) t.old }
{
    k.clear_flags();
    let x = machine::word_at(s, w);
    let r = rounding::convert_integer(x, sb);
    let n = rounding::integer_shifts(x, sb, r.word);
    t.advance(40 + 5 * n);
    k.note_overflow(r.over, FLOATING_OVERFLOW);
    let p = machine::previous_register(w);
    machine::put_long(s, p, r.pre);
    machine::put_long(s, w, r.word);
    End::Done
}

// Convert Floating to Integer.
pub fn cf(s: &mut [u32], k: &mut Row, w: u32, sb: u32) -> End
    requires { sb < word_range }
    ensures { ending_of result s.new k.new ≡ ending (execute CF w sb s.old k.old) }
{
    k.clear_flags();
    let p = machine::previous_register(w);
    let u = machine::word_at(s, p);
    let x = machine::word_at(s, w);
    let r = floating::convert_floating(u, x, sb);
    k.note_overflow(r.over, INTEGER_OVERFLOW);
    machine::put_long(s, w, r.word);
    End::Done
}

// Add Floating.
pub fn fa(s: &mut [u32], k: &mut Row, w: u32, sb: u32) -> End
    ensures { ending_of result s.new k.new ≡ ending (execute FA w sb s.old k.old) }
{
    let e = k.ex();
    k.clear_flags();
    if machine::is_absent(s, sb) {
        return End::Faulted;
    }
    let p = machine::previous_register(w);
    let x = machine::word_at(s, p);
    let y = machine::word_at(s, w);
    let a = machine::first_word(sb);
    let u = machine::word_at(s, a / 2);
    let v = machine::word_at(s, sb / 2);
    let r = floating::add(e, x, y, u, v);
    k.note_overflow(r.over, FLOATING_OVERFLOW);
    machine::put_long(s, p, r.pre);
    machine::put_long(s, w, r.word);
    End::Done
}

// Subtract Floating.
pub fn fs(s: &mut [u32], k: &mut Row, w: u32, sb: u32) -> End
    ensures { ending_of result s.new k.new ≡ ending (execute FS w sb s.old k.old) }
{
    let e = k.ex();
    k.clear_flags();
    if machine::is_absent(s, sb) {
        return End::Faulted;
    }
    let p = machine::previous_register(w);
    let x = machine::word_at(s, p);
    let y = machine::word_at(s, w);
    let a = machine::first_word(sb);
    let u = machine::word_at(s, a / 2);
    let v = machine::word_at(s, sb / 2);
    let r = floating::subtract(e, x, y, u, v);
    k.note_overflow(r.over, FLOATING_OVERFLOW);
    machine::put_long(s, p, r.pre);
    machine::put_long(s, w, r.word);
    End::Done
}

// Multiply Floating.
pub fn fm(s: &mut [u32], k: &mut Row, w: u32, sb: u32) -> End
    ensures { ending_of result s.new k.new ≡ ending (execute FM w sb s.old k.old) }
{
    let e = k.ex();
    k.clear_flags();
    if machine::is_absent(s, sb) {
        return End::Faulted;
    }
    let p = machine::previous_register(w);
    let x = machine::word_at(s, p);
    let y = machine::word_at(s, w);
    let a = machine::first_word(sb);
    let u = machine::word_at(s, a / 2);
    let v = machine::word_at(s, sb / 2);
    let r = floating::multiply(e, x, y, u, v);
    k.note_overflow(r.over, FLOATING_OVERFLOW);
    machine::put_long(s, p, r.pre);
    machine::put_long(s, w, r.word);
    End::Done
}

// Divide Floating.
pub fn fd(s: &mut [u32], k: &mut Row, w: u32, sb: u32) -> End
    ensures { ending_of result s.new k.new ≡ ending (execute FD w sb s.old k.old) }
{
    let e = k.ex();
    k.clear_flags();
    if machine::is_absent(s, sb) {
        return End::Faulted;
    }
    let p = machine::previous_register(w);
    let x = machine::word_at(s, p);
    let y = machine::word_at(s, w);
    let a = machine::first_word(sb);
    let u = machine::word_at(s, a / 2);
    let v = machine::word_at(s, sb / 2);
    let r = floating::divide(e, x, y, u, v);
    k.note_overflow(r.over, FLOATING_OVERFLOW);
    machine::put_long(s, p, r.pre);
    machine::put_long(s, w, r.word);
    End::Done
}
