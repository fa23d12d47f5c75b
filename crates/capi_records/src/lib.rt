// The records of the C calls (host/include/rc4000.h). Enums do not cross: an outcome is two numbers, a verdict is one. A flag of the control record comes in as a byte, which is tested; `found` only goes out.
#![tactic(auto)]

ghost use Rattle.std.specs.Prelude.{◌≡◌};
ghost use Rattle.definition_tape.specs.Writing.{written};
ghost use Rattle.capi_records.specs.Results.{flag_byte, flags_fit, registers_in, timer_in, record_in, record_of, judge_flags, outcome_code, outcome_number, result_by, refused_run, state_by, refused_state, autoloaded_by, refused_autoload, refused_write, write_result_by, assemble_result};

use machine::{Autoloaded, Control, Devices, Kind, Outcome, Record, Refusal, Run, State, Timer};

// The control record as it crosses.
#[repr(C)]
#[derive(Clone, Copy)]
pub struct ControlRecord {
    pub ic: u32,
    pub ir: u32,
    pub im: u32,
    pub pending: u32,
    pub pr: u32,
    pub ex: u32,
    pub monitor: u8,
    pub enabled: u8,
    pub reset: u8,
    pub elapsed: u32,
    pub period: u32,
    pub phase: u32,
    pub line: u8,
}

#[repr(C)]
#[derive(Clone, Copy)]
pub struct CallResult {
    pub control: ControlRecord,
    pub outcome: u32,
    pub number: u32,
    pub executed: u32,
    pub entries: u32,
    pub devices: Devices,
    pub taken: usize,
    pub typed: usize,
}

#[repr(C)]
#[derive(Clone, Copy)]
pub struct StateResult {
    pub control: ControlRecord,
    pub refusal: u32,
}

#[repr(C)]
#[derive(Clone, Copy)]
pub struct AutoloadResult {
    pub control: ControlRecord,
    pub refusal: u32,
    pub devices: Devices,
    pub taken: usize,
}

#[repr(C)]
#[derive(Clone, Copy)]
pub struct TextResult {
    pub refusal: u32,
    pub found: bool,
    pub start: usize,
    pub end: usize,
}

#[repr(C)]
#[derive(Clone, Copy)]
pub struct WriteResult {
    pub refusal: u32,
    pub length: usize,
}

#[repr(C)]
#[derive(Clone, Copy)]
pub struct AssembleResult {
    pub refusal: u32,
    pub word: u32,
}

impl ControlRecord {
    // Each flag byte is 0 or 1.
    #[tactic(auto, unfolding(crate::specs::Results::flags_fit))]
    fn flags_fit(self) -> bool
        ensures { result ≡ flags_fit self }
    {
        self.monitor < 2 && self.enabled < 2 && self.reset < 2
    }

    #[tactic(auto, unfolding(crate::specs::Results::registers_in))]
    fn registers(self) -> Control
        ensures { result ≡ registers_in self }
    {
        Control {
            ic: self.ic,
            ir: self.ir,
            im: self.im,
            pending: self.pending,
            pr: self.pr,
            ex: self.ex,
            monitor: self.monitor == 1,
            enabled: self.enabled == 1,
            reset: self.reset == 1,
        }
    }

    #[tactic(auto, unfolding(crate::specs::Results::timer_in))]
    fn timer(self) -> Timer
        ensures { result ≡ timer_in self }
    {
        Timer {
            elapsed: self.elapsed,
            period: self.period,
            phase: self.phase,
            line: self.line,
        }
    }
}

// The control record that the bytes stand for.
#[tactic(auto, unfolding(crate::specs::Results::record_in))]
impl From<ControlRecord> for Record {
    fn from(r: ControlRecord) -> Record
        ensures { result ≡ record_in r }
    {
        Record {
            registers: r.registers(),
            timer: r.timer(),
        }
    }
}

#[tactic(auto, unfolding(crate::specs::Results::record_of, crate::specs::Results::flag_byte))]
impl From<Record> for ControlRecord {
    fn from(x: Record) -> ControlRecord
        ensures { result ≡ record_of x }
    {
        let c = x.registers;
        let t = x.timer;
        ControlRecord {
            ic: c.ic,
            ir: c.ir,
            im: c.im,
            pending: c.pending,
            pr: c.pr,
            ex: c.ex,
            monitor: u8::from(c.monitor),
            enabled: u8::from(c.enabled),
            reset: u8::from(c.reset),
            elapsed: t.elapsed,
            period: t.period,
            phase: t.phase,
            line: t.line,
        }
    }
}

// 3 for a flag byte over 1, after the store's 1 and 2. With good flag bytes the store is not looked at: the call itself does that.
#[tactic(auto, unfolding(crate::specs::Results::judge_flags))]
pub fn judge_flags(store: &[u32], r: ControlRecord) -> Result<(), Refusal>
    ensures { result ≡ judge_flags store.now r }
{
    if r.flags_fit() {
        return Ok(());
    }
    acceptance::judge_store(store)?;
    Err(Refusal::ControlField)
}

fn outcome_code(o: Outcome) -> u32
    ensures { result ≡ outcome_code o }
{
    match o {
        Outcome::Spent => 1,
        Outcome::Reset => 2,
        Outcome::Interrupted(Kind::Exception) => 3,
        Outcome::Interrupted(Kind::Line(_)) => 4,
    }
}

fn outcome_number(o: Outcome) -> u32
    ensures { result ≡ outcome_number o }
{
    match o {
        Outcome::Spent | Outcome::Reset => 0,
        Outcome::Interrupted(k) => k.number(),
    }
}

pub fn refused_run(q: Refusal, r: ControlRecord, d: Devices) -> CallResult
    ensures { result ≡ refused_run q r d }
{
    CallResult {
        control: r,
        outcome: 0,
        number: q.number(),
        executed: 0,
        entries: 0,
        devices: d,
        taken: 0,
        typed: 0,
    }
}

pub fn run_result(x: Run, r: ControlRecord, given: Devices) -> CallResult
    ensures { result ≡ result_by x.answer r given x }
{
    match x.answer {
        Err(q) => refused_run(q, r, given),
        Ok(o) => CallResult {
            control: ControlRecord::from(x.control),
            outcome: outcome_code(o),
            number: outcome_number(o),
            executed: x.executed,
            entries: x.entries,
            devices: x.devices,
            taken: x.taken,
            typed: x.typed,
        },
    }
}

pub fn refused_state(q: Refusal, r: ControlRecord) -> StateResult
    ensures { result ≡ refused_state q r }
{
    StateResult {
        control: r,
        refusal: q.number(),
    }
}

pub fn state_result(x: State, r: ControlRecord) -> StateResult
    ensures { result ≡ state_by x.verdict r x.control }
{
    match x.verdict {
        Err(q) => refused_state(q, r),
        Ok(()) => StateResult {
            control: ControlRecord::from(x.control),
            refusal: 0,
        },
    }
}

pub fn refused_autoload(q: Refusal, r: ControlRecord, d: Devices) -> AutoloadResult
    ensures { result ≡ refused_autoload q r d }
{
    AutoloadResult {
        control: r,
        refusal: q.number(),
        devices: d,
        taken: 0,
    }
}

pub fn autoload_result(a: Autoloaded, r: ControlRecord, given: Devices) -> AutoloadResult
    ensures { result ≡ autoloaded_by a.verdict r given a }
{
    match a.verdict {
        Err(q) => refused_autoload(q, r, given),
        Ok(()) => AutoloadResult {
            control: ControlRecord::from(a.control),
            refusal: 0,
            devices: a.devices,
            taken: a.taken,
        },
    }
}

pub fn refused_write(q: Refusal) -> WriteResult
    ensures { result ≡ refused_write q }
{
    WriteResult {
        refusal: q.number(),
        length: 0,
    }
}

pub fn write_result(x: Result<usize, Refusal>) -> WriteResult
    ensures { result ≡ write_result_by (written x).verdict (written x) }
{
    match x {
        Ok(length) => WriteResult { refusal: 0, length },
        Err(q) => refused_write(q),
    }
}

pub fn assemble_result(x: Result<u32, Refusal>) -> AssembleResult
    ensures { result ≡ assemble_result x }
{
    match x {
        Err(q) => AssembleResult {
            refusal: q.number(),
            word: 0,
        },
        Ok(w) => AssembleResult {
            refusal: 0,
            word: w,
        },
    }
}
