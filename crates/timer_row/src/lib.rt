// The timer during a run, in one lent row: a cycle adds its time in one place, and at its end one comparison tells whether elapsed time and phase have
// to be worked out (docs/PERFORMANCE.md).
#![tactic(auto)]

ghost use Rattle.std.specs.Prelude.{◌≡◌, ◌%◌, ◌<◌, true};
ghost use Rattle.acceptance.specs.Accept.{timer_fits};
ghost use Rattle.definition_times.specs.Timer.{timer_after, interval_ends, line_bit, line_raised};
ghost use Rattle.timer_row.specs.Row.{timer_at, passing, with_passed, limit_of, BelowLimit};

use control_row::Row;
use machine::Timer;
use std::marker::Model;

// The time that passed since the timer was last worked out, and how much may pass before it is worked out again.
#[derive(Clone, Copy)]
pub struct Clock {
    passed: u32,
    limit: u32,
    timer: Timer,
}

impl Model for Clock {
    ghost use Rattle.std.specs.Prelude.{◌≡◌, true, refl};
    ghost use Rattle.acceptance.specs.Accept.{timer_fits};
    ghost use Rattle.timer_row.specs.Row.{Clock, limit_of};

    ghost Value = { Clock };

    ghost view = { λ t. record { passed = t.passed; timer = t.timer } };

    ghost invariant = { λ t. (t.limit ≡ limit_of t.timer) × (timer_fits t.timer ≡ true) };

    ghost inverse = { λ c. record { passed = c.passed; limit = limit_of c.timer; timer = c.timer } };

    ghost inverse_ok = { λ a h. rw (h.0) refl };
}

// The time of an entry.
pub const ENTRY: u32 = 75;

// 2 ** 31.
const LONGEST: u32 = 2147483648;

fn limit(r: Timer) -> u32
    requires { timer_fits r ≡ true }
    ensures value { result ≡ limit_of r }
    ensures some { 0 < result }
{
    if r.period == 0 {
        return LONGEST;
    }
    let n = r.period - r.phase;
    if n < LONGEST { n } else { LONGEST }
}

fn phase_after(n: u32, r: Timer) -> u32
    requires { timer_fits r ≡ true }
    ensures { result ≡ (timer_after n r).phase }
{
    if r.period == 0 {
        return r.phase;
    }
    let left = r.period - r.phase;
    if n < left {
        return r.phase + n;
    }
    (n - left) % r.period
}

#[tactic(auto, unfolding(definition_times::specs::Timer::timer_after, definition_times::specs::Timer::elapsed_after))]
fn timer_after(n: u32, r: Timer) -> Timer
    requires { timer_fits r ≡ true }
    ensures { result ≡ timer_after n r }
{
    Timer {
        elapsed: r.elapsed.wrapping_add(n),
        phase: phase_after(n, r),
        ..r
    }
}

fn interval_ends(n: u32, r: Timer) -> bool
    requires { timer_fits r ≡ true }
    ensures { result ≡ interval_ends n r }
{
    if r.period == 0 {
        return false;
    }
    n >= r.period - r.phase
}

fn line_bit(line: u8) -> u32
    requires { line < 24 }
    ensures { result ≡ line_bit line }
{
    1 << (23 - line as u32)
}

// The line is raised where an interval ends.
#[tactic(auto, unfolding(definition_times::specs::Timer::line_raised))]
fn raise_line(k: &mut Row, n: u32, r: Timer)
    requires { timer_fits r ≡ true }
    ensures { k.new ≡ line_raised n r k.old }
{
    if interval_ends(n, r) {
        k.raise(line_bit(r.line));
    }
}

impl Clock {
    // The clock of a timer.
    pub fn of(r: Timer) -> Clock
        requires { timer_fits r ≡ true }
        ensures value { timer_at result ≡ r }
        ensures below { BelowLimit result }
    {
        Clock {
            passed: 0,
            limit: limit(r),
            timer: r,
        }
    }

    // The time that passed.
    pub fn passed(&self) -> u32
        ensures { result ≡ self.now.passed }
    {
        self.passed
    }

    // The time n passes.
    #[tactic(auto, unfolding(crate::specs::Row::passing))]
    pub fn advance(&mut self, n: u32)
        ensures { self.new ≡ passing n self.old }
    {
        self.passed = self.passed.wrapping_add(n);
    }

    // An entry is made in a cycle that began when the time n had passed: it takes its own time alone.
    #[tactic(auto, unfolding(crate::specs::Row::passing, crate::specs::Row::with_passed))]
    pub fn enter(&mut self, n: u32)
        ensures { self.new ≡ passing 75 (with_passed n self.old) }
    {
        self.passed = n.wrapping_add(ENTRY);
    }

    // The timer as it stands now.
    pub fn timer(&self) -> Timer
        ensures { result ≡ timer_at self.now }
    {
        timer_after(self.passed, self.timer)
    }

    // Elapsed time and phase are worked out, and the line is raised where an interval ends.
    fn update(&mut self, k: &mut Row)
        ensures control { k.new ≡ line_raised self.old.passed self.old.timer k.old }
        ensures timer { timer_at self.new ≡ timer_at self.old }
        ensures below { BelowLimit self.new }
    {
        raise_line(k, self.passed, self.timer);
        *self = Clock::of(self.timer());
    }

    // The end of a cycle.
    pub fn end_cycle(&mut self, k: &mut Row)
        ensures control { k.new ≡ line_raised self.old.passed self.old.timer k.old }
        ensures timer { timer_at self.new ≡ timer_at self.old }
        ensures below { BelowLimit self.new }
    {
        if self.passed >= self.limit {
            self.update(k);
        }
    }
}
