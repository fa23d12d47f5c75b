// One cycle (14.5): lines, fetch, decode, effective address, operation, entry.
#![tactic(auto, unfolding(definition_runs::specs::Cycle::execute_instruction, timer_row::specs::Row::passing, timer_row::specs::Row::with_passed))]

ghost use Rattle.std.specs.Prelude.{◌≡◌, ◌+◌, ◌<◌, ◌≤◌, length};
ghost use Rattle.registers.specs.Reg.{word_range};
ghost use Rattle.acceptance.specs.Accept.{most_cells};
ghost use Rattle.definition_instructions.specs.Machine.{machine};
ghost use Rattle.channel_row.specs.Row.{channel_at, Same};
ghost use Rattle.definition_runs.specs.Cycle.{effective_address, execute_instruction, decode, fetch, cycle};
ghost use Rattle.definition_runs.specs.Timed.{instruction_time, cycle_time};
ghost use Rattle.definition_times.specs.Times.{indirect_time, execution_time};
ghost use Rattle.timer_row.specs.Row.{passing, clock_after};
ghost use Rattle.control_row.specs.Endings.{ending, ending_of, ending_with};
ghost use Rattle.fetch.specs.Fetch.{Fetched};
ghost use Rattle.cycle.specs.Steps.{cycle_of};

use channel_row::Channel;
use control_row::{End, Row};
use machine::{Instruction, Kind};
use registers::WORD_RANGE;
use timer_row::{Clock, ENTRY};

// How a cycle ended.
#[derive(Clone, Copy)]
pub enum CycleEnd {
    Executed,
    Reset,
    Entered(Kind),
}

fn execute_instruction(
    s: &mut [u32],
    k: &mut Row,
    t: &mut Clock,
    h: &mut Channel,
    i: Instruction,
    a: u32,
) -> End
    requires { a < word_range }
    ensures value { ending_with (channel_at h.new) (ending_of result s.new k.new) ≡ ending (execute_instruction s.old k.old (channel_at h.old) i a) }
    ensures same { Same h.old h.new }
    ensures time { clock_after result t.new ≡ clock_after result (passing (indirect_time i.code i.m + execution_time i.code i.w (effective_address s.old i.m a) (machine s.old k.old (channel_at h.old))) t.old) }
{
    let sb = fetch::effective_address(s, t, i.code, i.m, a);
    if fetch::is_indirect_absent(s, i.m, a) {
        return End::Faulted;
    }
    dispatch::execute(s, k, t, h, i.code, i.w, sb)
}

// v is the instruction at IC, with the key of its cell over it.
fn decode(s: &mut [u32], k: &mut Row, t: &mut Clock, h: &mut Channel, v: u32) -> End
    requires { Fetched s.old k.old.ic v }
    ensures value { ending_with (channel_at h.new) (ending_of result s.new k.new) ≡ ending (decode s.old k.old (channel_at h.old)) }
    ensures same { Same h.old h.new }
    ensures time { clock_after result t.new ≡ clock_after result (passing (instruction_time (machine s.old k.old (channel_at h.old))) t.old) }
{
    if fetch::is_fetch_violation(k, v / WORD_RANGE) {
        fetch::raise_ic(k);
        return End::Faulted;
    }
    let i = Instruction::of_word(v % WORD_RANGE);
    let a = fetch::address(s, k, t, i);
    fetch::raise_ic(k);
    k.set_pending(0);
    execute_instruction(s, k, t, h, i, a)
}

// The instruction is read before the tests, where an absent cell reads as 0: so one comparison serves the reading and the test.
fn fetch(s: &mut [u32], k: &mut Row, t: &mut Clock, h: &mut Channel) -> End
    requires { (k.old.ic < word_range) × (length s.old ≤ most_cells) }
    ensures value { ending_with (channel_at h.new) (ending_of result s.new k.new) ≡ ending (fetch s.old k.old (channel_at h.old)) }
    ensures same { Same h.old h.new }
    ensures time { clock_after result t.new ≡ clock_after result (passing (instruction_time (machine s.old k.old (channel_at h.old))) t.old) }
{
    let ic = k.ic();
    let v = fetch::fetched(s, ic);
    if fetch::is_fetch_absent(s, ic) {
        return End::Faulted;
    }
    decode(s, k, t, h, v)
}

pub fn cycle(s: &mut [u32], k: &mut Row, t: &mut Clock, h: &mut Channel) -> CycleEnd
    requires { (k.old.ic < word_range) × (length s.old ≤ most_cells) }
    ensures value { cycle_of result s.new k.new (channel_at h.new) ≡ cycle (machine s.old k.old (channel_at h.old)) }
    ensures same { Same h.old h.new }
    ensures time { t.new ≡ passing (cycle_time (machine s.old k.old (channel_at h.old))) t.old }
{
    if let Some(p) = interruption::line_of(k) {
        interruption::clear_line(k, p);
        interruption::enter(s, p * 2, k);
        t.advance(ENTRY);
        return CycleEnd::Entered(Kind::Line(p * 2));
    }
    let begun = t.passed();
    match fetch(s, k, t, h) {
        End::Done => CycleEnd::Executed,
        End::Reset => CycleEnd::Reset,
        End::Faulted => {
            interruption::enter(s, 0, k);
            t.enter(begun);
            CycleEnd::Entered(Kind::Exception)
        }
    }
}
