// The control registers during a run, in one lent row: a record passed by value moves through memory in every cycle (docs/PERFORMANCE.md). It is the
// row of a machine outside the reset state, where alone cycles are made.
#![tactic(auto)]

ghost use Rattle.std.specs.Prelude.{◌≡◌, false, cond, ◌<◌};
ghost use Rattle.machine.specs.Store.{forbidden, violation};
ghost use Rattle.machine.specs.Fields.{in_task, with_ic, with_ir, with_im, with_pending, with_pr, with_ex, with_enabled, raised, flags_cleared, overflowed, carry_set};
ghost use Rattle.control_row.specs.Row.{mode_mask, keeps_mode, with_monitor};

use machine::Control;
use registers::WORD_RANGE;
use std::marker::Model;

// The mask answers the protection test of a fetch and the mode together.
#[derive(Clone, Copy)]
pub struct Row {
    ic: u32,
    ir: u32,
    im: u32,
    pending: u32,
    pr: u32,
    ex: u32,
    monitor: bool,
    enabled: bool,
    mask: u32,
}

impl Model for Row {
    ghost use Rattle.std.specs.Prelude.{◌≡◌, ◌<◌, false, refl};
    ghost use Rattle.machine.specs.declared.Control.{Control};
    ghost use Rattle.control_row.specs.Row.{mode_mask};

    ghost Value = { Control };

    ghost view = { λ k. record { ic = k.ic; ir = k.ir; im = k.im; pending = k.pending; pr = k.pr; ex = k.ex; monitor = k.monitor; enabled = k.enabled; reset = false } };

    ghost invariant = { λ k. (k.pr < 256) × (k.mask ≡ mode_mask k.pr k.monitor) };

    ghost inverse = { λ c. record { ic = c.ic; ir = c.ir; im = c.im; pending = c.pending; pr = c.pr; ex = c.ex; monitor = c.monitor; enabled = c.enabled; mask = mode_mask c.pr c.monitor } };

    ghost inverse_ok = { λ a h. rw (h.1) refl };
}

// How an instruction ended.
#[derive(Clone, Copy)]
pub enum End {
    Done,
    Reset,
    Faulted,
}

// ---- the tests of a control record, whatever its fields; those of a row are its methods

// Test Mode.
#[tactic(auto, unfolding(machine::specs::Fields::in_task))]
pub fn is_task(c: Control) -> bool
    ensures { result ≡ in_task c }
{
    !c.monitor
}

// The cell is forbidden, whatever the mode.
#[tactic(auto, unfolding(machine::specs::Store::forbidden))]
pub fn is_forbidden(s: &[u32], c: Control, i: u32) -> bool
    ensures { result ≡ forbidden s.now c i }
{
    machine::is_key_forbidden(c.pr, machine::key_at(s, i))
}

// Test Protection: task mode, and the cell is forbidden.
#[tactic(auto, unfolding(machine::specs::Fields::in_task, machine::specs::Store::forbidden, machine::specs::Store::violation))]
pub fn is_violation(s: &[u32], c: Control, i: u32) -> bool
    ensures { result ≡ violation s.now c i }
{
    is_task(c) && is_forbidden(s, c, i)
}

// ---- the row

#[tactic(auto, unfolding(crate::specs::Row::mode_mask))]
fn mode_mask(pr: u32, monitor: bool) -> u32
    requires { pr < 256 }
    ensures { result ≡ mode_mask pr monitor }
{
    if monitor { pr } else { 255 - pr }
}

#[tactic(auto, unfolding(machine::specs::Store::forbidden, machine::specs::Store::violation, machine::specs::Fields::in_task, machine::specs::Fields::with_ic, machine::specs::Fields::with_ir, machine::specs::Fields::with_im, machine::specs::Fields::with_pending, machine::specs::Fields::with_pr, machine::specs::Fields::with_ex, machine::specs::Fields::with_enabled, machine::specs::Fields::raised, machine::specs::Fields::flags_cleared, machine::specs::Fields::overflowed, machine::specs::Fields::carry_set, crate::specs::Row::with_monitor, crate::specs::Row::mode_mask))]
impl Row {
    // The row of a control record outside the reset state.
    pub fn of(c: Control) -> Row
        requires { (c.pr < 256) × (c.reset ≡ false) }
        ensures { result ≡ c }
    {
        Row {
            ic: c.ic,
            ir: c.ir,
            im: c.im,
            pending: c.pending,
            pr: c.pr,
            ex: c.ex,
            monitor: c.monitor,
            enabled: c.enabled,
            mask: mode_mask(c.pr, c.monitor),
        }
    }

    pub fn control(&self) -> Control
        ensures { result ≡ self.now }
    {
        Control {
            ic: self.ic,
            ir: self.ir,
            im: self.im,
            pending: self.pending,
            pr: self.pr,
            ex: self.ex,
            monitor: self.monitor,
            enabled: self.enabled,
            reset: false,
        }
    }

    pub fn ic(&self) -> u32
        ensures { result ≡ self.now.ic }
    {
        self.ic
    }

    pub fn ir(&self) -> u32
        ensures { result ≡ self.now.ir }
    {
        self.ir
    }

    pub fn im(&self) -> u32
        ensures { result ≡ self.now.im }
    {
        self.im
    }

    pub fn pending(&self) -> u32
        ensures { result ≡ self.now.pending }
    {
        self.pending
    }

    pub fn pr(&self) -> u32
        ensures { result ≡ self.now.pr }
    {
        self.pr
    }

    pub fn ex(&self) -> u32
        ensures { result ≡ self.now.ex }
    {
        self.ex
    }

    // A row is that of a machine outside the reset state: for proofs, it does nothing.
    pub fn outside_reset(&self)
        ensures { self.now.reset ≡ false }
    {
        let _ = &self.ic;
    }

    // Test Mode.
    pub fn is_task(&self) -> bool
        ensures { result ≡ in_task self.now }
    {
        !self.monitor
    }

    pub fn is_enabled(&self) -> bool
        ensures { result ≡ self.now.enabled }
    {
        self.enabled
    }

    pub fn set_ic(&mut self, v: u32)
        ensures { self.new ≡ with_ic self.old v }
    {
        self.ic = v % WORD_RANGE;
    }

    pub fn set_ir(&mut self, v: u32)
        ensures { self.new ≡ with_ir self.old v }
    {
        self.ir = v % WORD_RANGE;
    }

    pub fn set_im(&mut self, v: u32)
        ensures { self.new ≡ with_im self.old v }
    {
        self.im = v % WORD_RANGE;
    }

    pub fn set_pending(&mut self, v: u32)
        ensures { self.new ≡ with_pending self.old v }
    {
        self.pending = v % WORD_RANGE;
    }

    // PR(0) is always one.
    pub fn set_pr(&mut self, v: u32)
        ensures { self.new ≡ with_pr self.old v }
    {
        let p = 128 + v % 128;
        self.pr = p;
        self.mask = mode_mask(p, self.monitor);
    }

    pub fn set_ex(&mut self, v: u32)
        ensures { self.new ≡ with_ex self.old v }
    {
        self.ex = v % 8;
    }

    pub fn set_enabled(&mut self, e: bool)
        ensures { self.new ≡ with_enabled self.old e }
    {
        self.enabled = e;
    }

    // monitor mode := m.
    pub fn set_monitor(&mut self, m: bool)
        ensures { self.new ≡ with_monitor self.old m }
    {
        self.monitor = m;
        self.mask = mode_mask(self.pr, m);
    }

    // The cell is forbidden, whatever the mode. The key is read first: with PR before it the register loop takes 79.4.
    pub fn is_forbidden(&self, s: &[u32], i: u32) -> bool
        ensures { result ≡ forbidden s.now self.now i }
    {
        let q = machine::key_at(s, i);
        machine::is_key_forbidden(self.pr, q)
    }

    // Test Protection: task mode, and the cell is forbidden.
    pub fn is_violation(&self, s: &[u32], i: u32) -> bool
        ensures { result ≡ violation s.now self.now i }
    {
        self.is_task() && self.is_forbidden(s, i)
    }

    // Whether an instruction in a cell with the key q keeps the mode.
    pub fn keeps_mode(&self, q: u32) -> bool
        ensures { result ≡ keeps_mode self.now q }
    {
        machine::is_key_forbidden(self.mask, q)
    }

    // Bits join the interrupt register.
    pub fn raise(&mut self, bits: u32)
        ensures { self.new ≡ raised self.old bits }
    {
        self.set_ir(self.ir | bits);
    }

    // EX(22:23) := 0.
    pub fn clear_flags(&mut self)
        ensures { self.new ≡ flags_cleared self.old }
    {
        self.set_ex(self.ex / 4 * 4);
    }

    // On an overflow EX(22) := IR(bit) := 1.
    pub fn note_overflow(&mut self, over: u32, bit: u32)
        ensures { self.new ≡ overflowed self.old over bit }
    {
        if over == 0 {
            return;
        }
        self.set_ex(self.ex / 4 * 4 + 2 + self.ex % 2);
        self.raise(bit);
    }

    // EX(23) := carry.
    pub fn note_carry(&mut self, carry: u32)
        ensures { self.new ≡ carry_set self.old carry }
    {
        self.set_ex(self.ex / 2 * 2 + carry % 2);
    }
}
