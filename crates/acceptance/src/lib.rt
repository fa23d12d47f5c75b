// The tests that stores, control records and runs are judged by, in the order of documents 01 and 02.
#![tactic(auto)]

ghost use Rattle.std.specs.Prelude.{◌≡◌};
ghost use Rattle.machine.specs.Verdicts.{Accepted};
ghost use Rattle.acceptance.specs.Accept.{size_fits, cells_fit, state_fits, control_fits, timer_fits, judge_store, judge_registers, judge_machine, judge_call, judge_devices, characters_fit, devices_fit, judge_run, judge_autoload};

use machine::{Control, Devices, Record, Refusal, Timer};
use registers::WORD_RANGE;

// The cells of the largest store.
pub const MOST_CELLS: usize = 8388608;
// One more than the largest cell: a word with a key of 3 bits over it.
pub const CELL_RANGE: u32 = 134217728;
// One more than the largest set of raised lines, bits 3 to 23.
const LINE_RANGE: u32 = 2097152;
// One more than the largest budget.
const BUDGET_RANGE: u32 = 65536;

#[tactic(auto, unfolding(crate::specs::Accept::size_fits))]
pub fn size_fits(n: usize) -> bool
    ensures { result ≡ size_fits n }
{
    8 <= n && n <= MOST_CELLS
}

// The whole store is looked at, so that the compiler can test several cells at once.
fn cells_fit(s: &[u32]) -> bool
    ensures { result ≡ cells_fit s.now }
{
    let mut fit = true;
    for x in s {
        if *x >= CELL_RANGE {
            fit = false;
        }
    }
    fit
}

#[tactic(auto, unfolding(crate::specs::Accept::state_fits))]
fn state_fits(c: Control) -> bool
    ensures { result ≡ state_fits c }
{
    !c.reset || (c.monitor && !c.enabled)
}

#[tactic(auto, unfolding(crate::specs::Accept::control_fits))]
pub fn control_fits(c: Control) -> bool
    ensures { result ≡ control_fits c }
{
    c.ic < WORD_RANGE
        && c.ir < WORD_RANGE
        && c.im < WORD_RANGE
        && c.pending < WORD_RANGE
        && 128 <= c.pr
        && c.pr < 256
        && c.ex < 8
        && state_fits(c)
}

#[tactic(auto, unfolding(crate::specs::Accept::judge_store))]
pub fn judge_store(s: &[u32]) -> Result<(), Refusal>
    ensures { result ≡ judge_store s.now }
{
    if !size_fits(s.len()) {
        return Err(Refusal::StoreSize);
    }
    if !cells_fit(s) {
        return Err(Refusal::CellValue);
    }
    Ok(())
}

#[tactic(auto, unfolding(crate::specs::Accept::judge_store, crate::specs::Accept::judge_registers))]
pub fn judge_registers(s: &[u32], c: Control) -> Result<(), Refusal>
    ensures { result ≡ judge_registers s.now c }
{
    judge_store(s)?;
    if !control_fits(c) {
        return Err(Refusal::ControlField);
    }
    Ok(())
}

// With a period of 0 the interval timer is off: phase and line may be any.
#[tactic(auto, unfolding(crate::specs::Accept::timer_fits))]
pub fn timer_fits(t: Timer) -> bool
    ensures { result ≡ timer_fits t }
{
    t.period == 0 || (3 <= t.line && t.line < 24 && t.phase < t.period)
}

// Cells and control record: 1, 2, 3, 18.
#[tactic(auto, unfolding(crate::specs::Accept::judge_machine))]
pub fn judge_machine(s: &[u32], r: Record) -> Result<(), Refusal>
    ensures { result ≡ judge_machine s.now r }
{
    judge_registers(s, r.registers)?;
    if !timer_fits(r.timer) {
        return Err(Refusal::TimerField);
    }
    Ok(())
}

// Tests 1 to 5 of a run, 18 among them.
fn judge_call(s: &[u32], r: Record, lines: u32, budget: u32) -> Result<(), Refusal>
    ensures { result ≡ judge_call (judge_machine s.now r) lines budget }
{
    judge_machine(s, r)?;
    if lines >= LINE_RANGE {
        return Err(Refusal::Lines);
    }
    if budget >= BUDGET_RANGE {
        return Err(Refusal::Budget);
    }
    Ok(())
}

// All characters are looked at, as in `cells_fit`.
fn characters_fit(s: &[u8]) -> bool
    ensures { result ≡ characters_fit s.now }
{
    let mut fit = true;
    for x in s {
        if *x >= 64 {
            fit = false;
        }
    }
    fit
}

#[tactic(auto, unfolding(crate::specs::Accept::devices_fit))]
pub fn devices_fit(d: Devices, characters: &[u8]) -> bool
    ensures { result ≡ devices_fit d.reader d.typewriter characters.now }
{
    d.reader < WORD_RANGE && d.typewriter < WORD_RANGE && characters_fit(characters)
}

// Test 13.
fn judge_devices(d: Devices, characters: &[u8]) -> Result<(), Refusal>
    ensures { result ≡ judge_devices Accepted (devices_fit d.reader d.typewriter characters.now) }
{
    if !devices_fit(d, characters) {
        return Err(Refusal::Device);
    }
    Ok(())
}

#[tactic(auto, unfolding(crate::specs::Accept::judge_run))]
pub fn judge_run(
    s: &[u32],
    r: Record,
    lines: u32,
    budget: u32,
    d: Devices,
    characters: &[u8],
) -> Result<(), Refusal>
    ensures { result ≡ judge_run s.now r lines budget d.reader d.typewriter characters.now }
{
    judge_call(s, r, lines, budget)?;
    judge_devices(d, characters)
}

#[tactic(auto, unfolding(crate::specs::Accept::judge_autoload))]
pub fn judge_autoload(s: &[u32], r: Record, d: Devices, characters: &[u8]) -> Result<(), Refusal>
    ensures { result ≡ judge_autoload s.now r d.reader d.typewriter characters.now }
{
    judge_machine(s, r)?;
    judge_devices(d, characters)
}
