// Integer arithmetic, logical operations and shifts (14.8): each function does the micro-operations of its meaning, in their order.
#![tactic(auto, unfolding(definition_instructions::specs::Codes::execute, definition_instructions::specs::Meaning::meaning, definition_instructions::specs::MicroOps::execute_operation, definition_instructions::specs::MicroOps::micro_step, definition_instructions::specs::MicroOps::micro_steps, definition_instructions::specs::MicroOps::monitor_step, definition_instructions::specs::MicroOps::monitor_steps, definition_times::specs::Times::operation_time))]

ghost use Rattle.std.specs.Prelude.{◌≡◌, ◌<◌};
ghost use Rattle.registers.specs.Reg.{word_range};
ghost use Rattle.machine.specs.Fields.{overflowed, carry_set};
ghost use Rattle.definition_instructions.specs.Operands.{integer_overflow};
ghost use Rattle.control_row.specs.Endings.{ending, ending_of};
ghost use Rattle.definition_instructions.specs.Codes.{execute};
ghost use Rattle.definition_instructions.specs.Meaning.{AC, BA, BS, WA, WS, WM, WD, AA, SS, LA, LO, LX, AS, AD, LS, LD, NS, ND};
ghost use Rattle.definition_instructions.specs.Machine.{computer};
ghost use Rattle.definition_times.specs.Times.{operation_time};
ghost use Rattle.timer_row.specs.Row.{passing};

use control_row::{End, Row};
use integer::Sum;
use machine::INTEGER_OVERFLOW;
use timer_row::Clock;

// Test Integer.
fn test_integer(k: &mut Row, r: Sum)
    ensures { k.new ≡ carry_set (overflowed k.old r.over integer_overflow) r.carry }
{
    k.note_overflow(r.over, INTEGER_OVERFLOW);
    k.note_carry(r.carry);
}

// Load Address Complemented.
pub fn ac(s: &mut [u32], k: &mut Row, w: u32, sb: u32) -> End
    requires { sb < word_range }
    ensures { ending_of result s.new k.new ≡ ending (execute AC w sb s.old k.old) }
{
    k.clear_flags();
    let r = integer::subtract(0, sb);
    machine::put_word(s, w, r.word);
    test_integer(k, r);
    End::Done
}

// Add Integer Byte.
pub fn ba(s: &mut [u32], k: &mut Row, w: u32, sb: u32) -> End
    ensures { ending_of result s.new k.new ≡ ending (execute BA w sb s.old k.old) }
{
    k.clear_flags();
    if machine::is_absent(s, sb) {
        return End::Faulted;
    }
    let x = machine::word_at(s, w);
    let b = machine::byte_at(s, sb);
    let y = registers::signed_byte(b);
    let r = integer::add(x, y);
    machine::put_word(s, w, r.word);
    test_integer(k, r);
    End::Done
}

// Subtract Integer Byte.
pub fn bs(s: &mut [u32], k: &mut Row, w: u32, sb: u32) -> End
    ensures { ending_of result s.new k.new ≡ ending (execute BS w sb s.old k.old) }
{
    k.clear_flags();
    if machine::is_absent(s, sb) {
        return End::Faulted;
    }
    let x = machine::word_at(s, w);
    let b = machine::byte_at(s, sb);
    let y = registers::signed_byte(b);
    let r = integer::subtract(x, y);
    machine::put_word(s, w, r.word);
    test_integer(k, r);
    End::Done
}

// Add Integer Word.
pub fn wa(s: &mut [u32], k: &mut Row, w: u32, sb: u32) -> End
    ensures { ending_of result s.new k.new ≡ ending (execute WA w sb s.old k.old) }
{
    k.clear_flags();
    if machine::is_absent(s, sb) {
        return End::Faulted;
    }
    let x = machine::word_at(s, w);
    let y = machine::word_at(s, sb / 2);
    let r = integer::add(x, y);
    machine::put_word(s, w, r.word);
    test_integer(k, r);
    End::Done
}

// Subtract Integer Word.
pub fn ws(s: &mut [u32], k: &mut Row, w: u32, sb: u32) -> End
    ensures { ending_of result s.new k.new ≡ ending (execute WS w sb s.old k.old) }
{
    k.clear_flags();
    if machine::is_absent(s, sb) {
        return End::Faulted;
    }
    let x = machine::word_at(s, w);
    let y = machine::word_at(s, sb / 2);
    let r = integer::subtract(x, y);
    machine::put_word(s, w, r.word);
    test_integer(k, r);
    End::Done
}

// Multiply Integer Word: EX is unchanged.
pub fn wm(s: &mut [u32], k: &mut Row, w: u32, sb: u32) -> End
    ensures { ending_of result s.new k.new ≡ ending (execute WM w sb s.old k.old) }
{
    if machine::is_absent(s, sb) {
        return End::Faulted;
    }
    let x = machine::word_at(s, w);
    let y = machine::word_at(s, sb / 2);
    let r = multiply::multiply(x, y);
    machine::put_pair(s, w, r);
    End::Done
}

// Divide Integer Word.
pub fn wd(s: &mut [u32], k: &mut Row, w: u32, sb: u32) -> End
    ensures { ending_of result s.new k.new ≡ ending (execute WD w sb s.old k.old) }
{
    k.clear_flags();
    if machine::is_absent(s, sb) {
        return End::Faulted;
    }
    let p = machine::previous_register(w);
    let u = machine::word_at(s, p);
    let x = machine::word_at(s, w);
    let y = machine::word_at(s, sb / 2);
    let r = divide::divide(u, x, y);
    k.note_overflow(r.over, INTEGER_OVERFLOW);
    machine::put_word(s, p, r.pre);
    machine::put_word(s, w, r.word);
    End::Done
}

// Add Integer Double Word: the first word is read after W was written.
pub fn aa(s: &mut [u32], k: &mut Row, w: u32, sb: u32) -> End
    ensures { ending_of result s.new k.new ≡ ending (execute AA w sb s.old k.old) }
{
    k.clear_flags();
    if machine::is_absent(s, sb) {
        return End::Faulted;
    }
    let x = machine::word_at(s, w);
    let y = machine::word_at(s, sb / 2);
    let r = integer::add(x, y);
    machine::put_word(s, w, r.word);
    let p = machine::previous_register(w);
    let u = machine::word_at(s, p);
    let a = machine::first_word(sb);
    let v = machine::word_at(s, a / 2);
    let q = integer::add_with_carry(u, v, r.carry);
    machine::put_word(s, p, q.word);
    test_integer(k, q);
    End::Done
}

// Subtract Integer Double Word: the first word is read after W was written.
pub fn ss(s: &mut [u32], k: &mut Row, w: u32, sb: u32) -> End
    ensures { ending_of result s.new k.new ≡ ending (execute SS w sb s.old k.old) }
{
    k.clear_flags();
    if machine::is_absent(s, sb) {
        return End::Faulted;
    }
    let x = machine::word_at(s, w);
    let y = machine::word_at(s, sb / 2);
    let r = integer::subtract(x, y);
    machine::put_word(s, w, r.word);
    let p = machine::previous_register(w);
    let u = machine::word_at(s, p);
    let a = machine::first_word(sb);
    let v = machine::word_at(s, a / 2);
    let q = integer::subtract_with_carry(u, v, r.carry);
    machine::put_word(s, p, q.word);
    test_integer(k, q);
    End::Done
}

// Logical And.
pub fn la(s: &mut [u32], k: &mut Row, w: u32, sb: u32) -> End
    ensures { ending_of result s.new k.new ≡ ending (execute LA w sb s.old k.old) }
{
    if machine::is_absent(s, sb) {
        return End::Faulted;
    }
    let x = machine::word_at(s, w);
    let y = machine::word_at(s, sb / 2);
    let r = integer::and24(x, y);
    machine::put_word(s, w, r);
    End::Done
}

// Logical Or.
pub fn lo(s: &mut [u32], k: &mut Row, w: u32, sb: u32) -> End
    ensures { ending_of result s.new k.new ≡ ending (execute LO w sb s.old k.old) }
{
    if machine::is_absent(s, sb) {
        return End::Faulted;
    }
    let x = machine::word_at(s, w);
    let y = machine::word_at(s, sb / 2);
    let r = integer::or24(x, y);
    machine::put_word(s, w, r);
    End::Done
}

// Logical Exclusive Or.
pub fn lx(s: &mut [u32], k: &mut Row, w: u32, sb: u32) -> End
    ensures { ending_of result s.new k.new ≡ ending (execute LX w sb s.old k.old) }
{
    if machine::is_absent(s, sb) {
        return End::Faulted;
    }
    let x = machine::word_at(s, w);
    let y = machine::word_at(s, sb / 2);
    let r = integer::xor24(x, y);
    machine::put_word(s, w, r);
    End::Done
}

// Shift Single Arithmetically (AS; `as` is a word of the language).
pub fn shift_as(s: &mut [u32], k: &mut Row, w: u32, sb: u32) -> End
    requires { sb < word_range }
    ensures { ending_of result s.new k.new ≡ ending (execute AS w sb s.old k.old) }
{
    k.clear_flags();
    let x = machine::word_at(s, w);
    let r = shift::arithmetic24(sb, x);
    k.note_overflow(r.over, INTEGER_OVERFLOW);
    machine::put_long(s, w, r.word);
    End::Done
}

// Shift Double Arithmetically.
pub fn ad(s: &mut [u32], k: &mut Row, w: u32, sb: u32) -> End
    requires { sb < word_range }
    ensures { ending_of result s.new k.new ≡ ending (execute AD w sb s.old k.old) }
{
    k.clear_flags();
    let x = machine::pair_at(s, w);
    let r = shift::arithmetic48(sb, x);
    k.note_overflow(r.over, INTEGER_OVERFLOW);
    machine::put_pair(s, w, r.word);
    End::Done
}

// Shift Single Logically.
pub fn ls(s: &mut [u32], k: &mut Row, w: u32, sb: u32) -> End
    requires { sb < word_range }
    ensures { ending_of result s.new k.new ≡ ending (execute LS w sb s.old k.old) }
{
    let x = machine::word_at(s, w);
    let r = shift::logical24(sb, x);
    machine::put_word(s, w, r);
    End::Done
}

// Shift Double Logically.
pub fn ld(s: &mut [u32], k: &mut Row, w: u32, sb: u32) -> End
    requires { sb < word_range }
    ensures { ending_of result s.new k.new ≡ ending (execute LD w sb s.old k.old) }
{
    let x = machine::pair_at(s, w);
    let r = shift::logical48(sb, x);
    machine::put_pair(s, w, r);
    End::Done
}

// Normalize Single: the byte is stored after the shift.
pub fn ns(s: &mut [u32], k: &mut Row, t: &mut Clock, w: u32, sb: u32) -> End
    ensures value { ending_of result s.new k.new ≡ ending (execute NS w sb s.old k.old) }
    ensures time { t.new ≡ passing (operation_time NS sb w (computer s.old k.old)) t.old }
{
    let x = machine::word_at(s, w);
    let r = normalize::normalize_single(x);
    let n = normalize::shifts_made(r.shifts);
    t.advance(50 + 5 * n);
    machine::put_long(s, w, r.word);
    if machine::is_absent(s, sb) {
        return End::Faulted;
    }
    if k.is_violation(s, sb / 2) {
        return End::Faulted;
    }
    machine::put_byte(s, sb, r.shifts);
    End::Done
}

// Normalize Double: the byte is stored after the shift.
pub fn nd(s: &mut [u32], k: &mut Row, t: &mut Clock, w: u32, sb: u32) -> End
    ensures value { ending_of result s.new k.new ≡ ending (execute ND w sb s.old k.old) }
    ensures time { t.new ≡ passing (operation_time ND sb w (computer s.old k.old)) t.old }
{
    let x = machine::pair_at(s, w);
    let r = normalize::normalize_double(x);
    let n = normalize::shifts_made(r.shifts);
    t.advance(55 + 5 * n);
    machine::put_pair(s, w, r.word);
    if machine::is_absent(s, sb) {
        return End::Faulted;
    }
    if k.is_violation(s, sb / 2) {
        return End::Faulted;
    }
    machine::put_byte(s, sb, r.shifts);
    End::Done
}
