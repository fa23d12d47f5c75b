// The instructions that reach devices, IO and AW (14.8, chapter 8): each function does the micro-operations of its meaning, in their order.
#![tactic(auto, unfolding(timer_row::specs::Row::passing, timer_row::specs::Row::with_passed, definition_times::specs::Times::device_time, definition_times::specs::Times::io_time, definition_instructions::specs::Codes::execute_device, definition_instructions::specs::MicroOps::execute_device_operation, definition_instructions::specs::Meaning::device_meaning, definition_instructions::specs::Meaning::commanded, definition_instructions::specs::MicroOps::device_steps, definition_instructions::specs::MicroOps::device_step, definition_instructions::specs::MicroOps::monitor_step, definition_instructions::specs::MicroOps::micro_step, definition_instructions::specs::Meaning::rejection, definition_instructions::specs::Channel::shifted_in, definition_instructions::specs::Channel::device_buffer, definition_instructions::specs::Machine::reset_system))]

ghost use Rattle.std.specs.Prelude.{◌≡◌, true, ◌/◌, ◌<◌};
ghost use Rattle.registers.specs.Reg.{word_range};
ghost use Rattle.control_row.specs.Endings.{ending, ending_of, ending_with};
ghost use Rattle.machine.specs.Fields.{flags_cleared};
ghost use Rattle.machine.specs.Store.{put_word, put_key};
ghost use Rattle.definition_instructions.specs.Machine.{machine};
ghost use Rattle.definition_instructions.specs.Channel.{read_from, shifted_in, four_left};
ghost use Rattle.definition_instructions.specs.MicroOps.{device_steps};
ghost use Rattle.definition_instructions.specs.Meaning.{IO, AW, rejection, autoloading};
ghost use Rattle.definition_instructions.specs.Codes.{execute_device};
ghost use Rattle.channel_row.specs.Row.{channel_at, Same};
ghost use Rattle.definition_times.specs.Times.{device_time};
ghost use Rattle.timer_row.specs.Row.{passing, clock_after};

use channel_row::Channel;
use control_row::{End, Row};
use machine::Control;
use registers::WORD_RANGE;
use timer_row::Clock;

// EX(22:23): disconnected, busy.
fn rejection(rejected: bool) -> u32
    ensures value { result ≡ rejection rejected }
    ensures bound { result < 4 }
{
    if rejected { 2 } else { 0 }
}

// Input/Output. Each way through it adds its own time; one that ends in a fault adds none.
pub fn io(s: &mut [u32], k: &mut Row, t: &mut Clock, h: &mut Channel, w: u32, sb: u32) -> End
    ensures value { ending_with (channel_at h.new) (ending_of result s.new k.new) ≡ ending (execute_device IO w sb (machine s.old k.old (channel_at h.old))) }
    ensures same { Same h.old h.new }
    ensures time { clock_after result t.new ≡ clock_after result (passing (device_time IO sb (machine s.old k.old (channel_at h.old))) t.old) }
{
    if k.is_task() {
        return End::Faulted;
    }
    let rejected = h.is_disconnected(sb / 64, sb % 4);
    let r = rejection(rejected);
    let x = k.ex();
    k.set_ex(x / 4 * 4 + r);
    if rejected {
        t.advance(40);
        return End::Done;
    }
    if sb % 4 == 0 {
        let v = h.buffer(sb / 64);
        machine::put_word(s, w, v);
        t.advance(70);
        return End::Done;
    }
    if sb % 4 == 1 {
        t.advance(65);
        return End::Done;
    }
    if sb % 4 == 2 {
        h.read(sb / 64);
        t.advance(50);
        return End::Done;
    }
    let v = machine::word_at(s, w);
    h.write(sb / 64, v);
    t.advance(65);
    End::Done
}

// AR(0:17) := AR(6:23); AR(18:23) := 0; AR := AR or SB.
fn shift_in(ar: u32, sb: u32) -> u32
    requires { (ar < word_range) × (sb < word_range) }
    ensures value { result ≡ shifted_in ar sb }
    ensures bound { result < word_range }
{
    integer::or24(ar * 64 % WORD_RANGE, sb)
}

// Start Input: the next character is read, and shifted into AR.
fn input(k: &mut Row, h: &mut Channel, ar: u32) -> u32
    requires { ar < word_range }
    ensures register { result ≡ shifted_in ar (channel_at h.new).reader }
    ensures bound { result < word_range }
    ensures control { k.new ≡ flags_cleared k.old }
    ensures channel { channel_at h.new ≡ read_from 0 (channel_at h.old) }
    ensures same { Same h.old h.new }
{
    h.read(0);
    k.clear_flags();
    let c = h.buffer(0);
    shift_in(ar, c)
}

// word(SB) := AR(0:23); protection key(SB) := 0.
fn load(s: &mut [u32], sb: u32, ar: u32)
    ensures { s.new ≡ put_key (put_word s.old (sb / 2) ar) (sb / 2) 0 }
{
    machine::put_word(s, sb / 2, ar);
    machine::put_key(s, sb / 2, 0);
}

// Autoload Word where four characters are left: they go into the word addressed.
pub fn autoload(s: &mut [u32], k: &mut Row, h: &mut Channel, sb: u32) -> End
    requires { four_left (channel_at h.old).characters ≡ true }
    ensures value { ending_with (channel_at h.new) (ending_of result s.new k.new) ≡ ending (device_steps 0 (autoloading sb (channel_at h.old).characters) (machine s.old k.old (channel_at h.old))) }
    ensures same { Same h.old h.new }
{
    let a = input(k, h, 0);
    let b = input(k, h, a);
    let c = input(k, h, b);
    let v = input(k, h, c);
    if machine::is_absent(s, sb) {
        return End::Faulted;
    }
    load(s, sb, v);
    End::Done
}

// Autoload Word.
pub fn aw(s: &mut [u32], k: &mut Row, h: &mut Channel, w: u32, sb: u32) -> End
    ensures value { ending_with (channel_at h.new) (ending_of result s.new k.new) ≡ ending (execute_device AW w sb (machine s.old k.old (channel_at h.old))) }
    ensures same { Same h.old h.new }
{
    if k.is_task() {
        return End::Faulted;
    }
    if h.has_four() {
        return autoload(s, k, h, sb);
    }
    let n = k.ic();
    machine::put_word(s, Control::RETURN_ADDRESS / 2, n);
    End::Reset
}
