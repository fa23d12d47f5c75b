// The cycles of a run, until the budget is used, the reset state or an entry.
#![tactic(auto, unfolding(crate::specs::Ends::goes_on, crate::specs::Ends::stopped, crate::specs::Ends::run_of))]

ghost use Rattle.std.specs.Prelude.{◌≡◌, ◌<◌};
ghost use Rattle.registers.specs.Reg.{word_range};
ghost use Rattle.machine.specs.Verdicts.{Accepted};
ghost use Rattle.machine.specs.Fields.{raised};
ghost use Rattle.acceptance.specs.Accept.{budget_range, judge_registers, judge_machine};
ghost use Rattle.definition_runs.specs.Timed.{timed_machine};
ghost use Rattle.definition_runs.specs.Lent.{machine_lent, returned, handed_back};
ghost use Rattle.channel_row.specs.Row.{channel_at, Same};
ghost use Rattle.definition_runs.specs.Run.{run_cycles};
ghost use Rattle.timer_row.specs.Row.{timer_at, BelowLimit};
ghost use Rattle.run_loop.specs.Ends.{goes_on, stopped, run_end_of, control_after, run_of, begun_in_reset};

use channel_row::Channel;
use control_row::Row;
use cycle::CycleEnd;
use machine::{Control, Devices, Outcome, Record, Refusal, Run};
use timer_row::Clock;

// How the cycles ended; cells and row stand beside it.
#[derive(Clone, Copy)]
struct RunEnd {
    answer: Result<Outcome, Refusal>,
    executed: u32,
    entries: u32,
}

// Does the run go on after this cycle.
#[tactic(auto, unfolding(crate::specs::Ends::goes_on))]
fn goes_on(e: CycleEnd) -> bool
    ensures { result ≡ goes_on e }
{
    matches!(e, CycleEnd::Executed)
}

// The run that ends with this cycle, n instructions before it.
fn stop(e: CycleEnd, n: u32) -> RunEnd
    requires { n < budget_range }
    ensures { result ≡ stopped e n }
{
    match e {
        CycleEnd::Executed => RunEnd {
            answer: Ok(Outcome::Spent),
            executed: n + 1,
            entries: 0,
        },
        CycleEnd::Reset => RunEnd {
            answer: Ok(Outcome::Reset),
            executed: n + 1,
            entries: 0,
        },
        CycleEnd::Entered(k) => RunEnd {
            answer: Ok(Outcome::Interrupted(k)),
            executed: n,
            entries: 1,
        },
    }
}

// The first branch is never taken: its test tells the compiler that the registers' cells are there, so that no cycle tests it.
fn cycles(s: &mut [u32], k: &mut Row, t: &mut Clock, budget: u32, h: &mut Channel) -> RunEnd
    requires { (judge_registers s.old k.old ≡ Accepted) × (budget < budget_range) × BelowLimit t.old }
    ensures value { run_end_of result s.new (record { registers = k.new; timer = timer_at t.new }) (channel_at h.new) ≡ run_cycles budget (timed_machine s.old (record { registers = k.old; timer = timer_at t.old }) (channel_at h.old)) }
    ensures same { Same h.old h.new }
{
    if s.len() < 8 {
        return RunEnd {
            answer: Ok(Outcome::Spent),
            executed: 0,
            entries: 0,
        };
    }
    k.outside_reset();
    let mut left = budget;
    while left > 0 {
        let e = cycle::cycle(s, k, t, h);
        if goes_on(e) {
            t.end_cycle(k);
            k.outside_reset();
            left -= 1;
        } else {
            t.end_cycle(k);
            return stop(e, budget - left);
        }
    }
    RunEnd {
        answer: Ok(Outcome::Spent),
        executed: budget,
        entries: 0,
    }
}

// The control record after the cycles: the row has no place for the reset state.
fn control_after(a: Result<Outcome, Refusal>, c: Control) -> Control
    ensures { result ≡ control_after a c }
{
    match a {
        Ok(Outcome::Reset) => c.in_reset(),
        _ => c,
    }
}

// No more characters are left than were lent.
fn finished(e: RunEnd, k: &Row, t: &Clock, h: &Channel, characters: &[u8]) -> Run
    ensures { result ≡ run_of characters.now e (record { registers = k.now; timer = timer_at t.now }) (channel_at h.now) }
{
    Run {
        control: Record {
            registers: control_after(e.answer, k.control()),
            timer: t.timer(),
        },
        answer: e.answer,
        executed: e.executed,
        entries: e.entries,
        devices: h.devices(),
        taken: characters.len().saturating_sub(h.left()),
        typed: h.typed(),
    }
}

// A run begun in the reset state.
fn in_reset(r: Record, d: Devices) -> Run
    ensures { result ≡ begun_in_reset r d }
{
    Run {
        control: r,
        answer: Ok(Outcome::Reset),
        executed: 0,
        entries: 0,
        devices: d,
        taken: 0,
        typed: 0,
    }
}

pub fn run(
    s: &mut [u32],
    r: Record,
    budget: u32,
    d: Devices,
    characters: &[u8],
    typing: &mut [u8],
) -> Run
    requires { (judge_machine s.old r ≡ Accepted) × (budget < budget_range) × (d.reader < word_range) × (d.typewriter < word_range) }
    ensures { returned result s.new typing.new ≡ handed_back characters.now (run_cycles budget (machine_lent s.old r d characters.now typing.old)) }
{
    if r.registers.reset {
        return in_reset(r, d);
    }
    let mut k = Row::of(r.registers);
    let mut t = Clock::of(r.timer);
    let mut h = Channel::new(d, characters, typing);
    let e = cycles(s, &mut k, &mut t, budget, &mut h);
    finished(e, &k, &t, &h, characters)
}

// A run whose lines join first. It repeats `run` so that `cycles` has two call sites: with one alone the compiler would put the loop into its
// caller and the row into registers, which do not hold it (docs/PERFORMANCE.md).
pub fn run_raised(
    s: &mut [u32],
    r: Record,
    lines: u32,
    budget: u32,
    d: Devices,
    characters: &[u8],
    typing: &mut [u8],
) -> Run
    requires { (judge_machine s.old (record { registers = raised r.registers lines; timer = r.timer }) ≡ Accepted) × (budget < budget_range) × (d.reader < word_range) × (d.typewriter < word_range) }
    ensures { returned result s.new typing.new ≡ handed_back characters.now (run_cycles budget (machine_lent s.old (record { registers = raised r.registers lines; timer = r.timer }) d characters.now typing.old)) }
{
    let n = machine::raise(r.registers, lines);
    if n.reset {
        let m = Record {
            registers: n,
            timer: r.timer,
        };
        return in_reset(m, d);
    }
    let mut k = Row::of(n);
    let mut t = Clock::of(r.timer);
    let mut h = Channel::new(d, characters, typing);
    let e = cycles(s, &mut k, &mut t, budget, &mut h);
    finished(e, &k, &t, &h, characters)
}
