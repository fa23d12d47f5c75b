// The instruction at IC with its tests, and the effective address (14.5).
#![tactic(auto, unfolding(definition_runs::specs::Cycle::relative, definition_runs::specs::Cycle::indexed, definition_runs::specs::Cycle::address, definition_runs::specs::Cycle::indirect_absent, definition_runs::specs::Cycle::effective_address, definition_times::specs::Times::indirect_time, crate::specs::Fetch::fetch_absent, crate::specs::Fetch::violates, crate::specs::Fetch::fetch_mode, crate::specs::Fetch::relative_time, crate::specs::Fetch::indexed_time, control_row::specs::Row::keeps_mode, control_row::specs::Row::with_monitor, machine::specs::Fields::in_task, machine::specs::Fields::with_ic))]

ghost use Rattle.std.specs.Prelude.{◌≡◌, ◌+◌, ◌*◌, ◌/◌, ◌%◌, ◌<◌, ◌≤◌, length};
ghost use Rattle.registers.specs.Reg.{word_range};
ghost use Rattle.acceptance.specs.Accept.{most_cells};
ghost use Rattle.machine.specs.Fields.{with_ic};
ghost use Rattle.integer.specs.Sums.{sum24};
ghost use Rattle.definition_runs.specs.Cycle.{relative, indexed, address, indirect_absent, effective_address};
ghost use Rattle.definition_times.specs.Times.{modification_time, indirect_time};
ghost use Rattle.timer_row.specs.Row.{passing};
ghost use Rattle.fetch.specs.Fetch.{Fetched, fetch_absent, violates, fetch_mode, relative_time, indexed_time};

use control_row::Row;
use machine::Instruction;
use registers::WORD_RANGE;
use timer_row::Clock;

// The cell of an even IC; of an odd IC a place that no store has: so one comparison tells an even IC that is there.
fn rotated(ic: u32) -> u32
    requires { ic < word_range }
    ensures { result ≡ ic / 2 + ic % 2 * 2147483648 }
{
    ic / 2 + ic % 2 * 2147483648
}

// The instruction at IC, with the key of its cell over it.
pub fn fetched(s: &[u32], ic: u32) -> u32
    requires { (ic < word_range) × (length s.now ≤ most_cells) }
    ensures { Fetched s.now ic result }
{
    let h = rotated(ic);
    if (h as usize) < s.len() {
        return machine::cell_at(s, h);
    }
    let f = machine::byte_at(s, ic);
    let n = integer::sum24(ic, 1);
    let d = machine::byte_at(s, n);
    let q = machine::key_at(s, ic / 2);
    q * WORD_RANGE + f * 4096 + d
}

fn relative(t: &mut Clock, m: u32, x: u32, ic: u32, a: u32) -> u32
    requires { a < word_range }
    ensures value { result ≡ relative m ic a }
    ensures bound { result < word_range }
    ensures time { t.new ≡ passing (relative_time m x) t.old }
{
    if m < 2 {
        t.advance(0);
        return a;
    }
    if x == 0 {
        t.advance(5);
        return integer::sum24(a, ic);
    }
    t.advance(10);
    integer::sum24(a, ic)
}

fn indexed(s: &[u32], t: &mut Clock, x: u32, a: u32) -> u32
    requires { a < word_range }
    ensures value { result ≡ indexed s.now x a }
    ensures bound { result < word_range }
    ensures time { t.new ≡ passing (indexed_time x) t.old }
{
    if x == 0 {
        t.advance(0);
        return a;
    }
    t.advance(5);
    let w = machine::word_at(s, x);
    integer::sum24(a, w)
}

// The address before indirection; its time passes.
pub fn address(s: &[u32], k: &Row, t: &mut Clock, i: Instruction) -> u32
    requires { i.d < 4096 }
    ensures value { result ≡ address s.now k.now i }
    ensures bound { result < word_range }
    ensures time { t.new ≡ passing (modification_time i.m i.x) t.old }
{
    let d = registers::signed_byte(i.d);
    let q = k.pending();
    let p = integer::sum24(d, q);
    let n = k.ic();
    let a = relative(t, i.m, i.x, n, p);
    indexed(s, t, i.x, a)
}

pub fn is_indirect_absent(s: &[u32], m: u32, a: u32) -> bool
    ensures { result ≡ indirect_absent s.now m a }
{
    m % 2 != 0 && machine::is_absent(s, a)
}

fn indirect_time(code: u32, m: u32) -> u32
    ensures { result ≡ indirect_time code m }
{
    if m % 2 == 0 {
        return 0;
    }
    if code < 32 {
        return 15;
    }
    if code < 48 {
        return 10;
    }
    15
}

// Indirection; its time passes.
pub fn effective_address(s: &[u32], t: &mut Clock, code: u32, m: u32, a: u32) -> u32
    requires { a < word_range }
    ensures value { result ≡ effective_address s.now m a }
    ensures bound { result < word_range }
    ensures time { t.new ≡ passing (indirect_time code m) t.old }
{
    let n = indirect_time(code, m);
    t.advance(n);
    if m % 2 == 0 {
        a
    } else {
        machine::word_at(s, a / 2)
    }
}

// Test Protection of the fetch from a cell with the key q; where it passes, monitor mode := PR(PK) = 1. Most fetches keep the mode.
pub fn is_fetch_violation(k: &mut Row, q: u32) -> bool
    ensures test { result ≡ violates k.old q }
    ensures mode { k.new ≡ fetch_mode k.old q }
{
    if k.keeps_mode(q) {
        return false;
    }
    if k.is_task() {
        return true;
    }
    k.set_monitor(false);
    false
}

// IC := IC + 2.
pub fn raise_ic(k: &mut Row)
    ensures { k.new ≡ with_ic k.old (sum24 k.old.ic 2) }
{
    let a = k.ic();
    let n = integer::sum24(a, 2);
    k.set_ic(n);
}

// IC or IC + 1 does not exist.
pub fn is_fetch_absent(s: &[u32], ic: u32) -> bool
    requires { (ic < word_range) × (length s.now ≤ most_cells) }
    ensures { result ≡ fetch_absent s.now ic }
{
    let h = rotated(ic);
    if (h as usize) < s.len() {
        return false;
    }
    machine::is_absent(s, ic) || machine::is_absent(s, integer::sum24(ic, 1))
}
