// The machine's values, and one total function for each primitive on cells: a cell that is not there reads as 0, and a write to it does nothing; a
// value is reduced to the width of what it goes into. So no public function asks anything of its caller.
#![tactic(auto)]

ghost use Rattle.std.specs.Prelude.{◌≡◌, ◌+◌, ◌*◌, ◌/◌, ◌%◌, ◌<◌, get_or, set};
ghost use Rattle.registers.specs.Reg.{word_range};
ghost use Rattle.machine.specs.Store.{word, pair, key, put_word, put_key, byte, with_byte, put_byte, put_link, absent, forbids, first_word, previous};
ghost use Rattle.machine.specs.Fields.{with_ir, raised};
ghost use Rattle.machine.specs.Records.{fresh_control, reset_control, timer_off, fresh_record};
ghost use Rattle.machine.specs.Answers.{refusal_number, kind_number};
ghost use Rattle.machine.specs.Format.{instruction_fields};

use registers::{LONG_WORD_RANGE, WORD_RANGE};

// The weights of IR(1), integer overflow, and IR(2), floating-point overflow.
pub const INTEGER_OVERFLOW: u32 = 4194304;

pub const FLOATING_OVERFLOW: u32 = 2097152;

// The control registers (document 01, "The machine"): the control record without the timer.
#[repr(C)]
#[derive(Clone, Copy)]
pub struct Control {
    pub ic: u32,
    pub ir: u32,
    pub im: u32,
    pub pending: u32,
    pub pr: u32,
    pub ex: u32,
    pub monitor: bool,
    pub enabled: bool,
    pub reset: bool,
}

impl Control {
    pub const INTERRUPT_NUMBER: u32 = 8;

    pub const RETURN_ADDRESS: u32 = 10;

    pub const INTERRUPTION_PROGRAM: u32 = 12;

    pub const START_ADDRESS: u32 = 14;

    // The control registers after power on (14.4): everything zero but bit 0 of PR, in the reset state.
    pub fn fresh() -> Control
        ensures { result ≡ fresh_control }
    {
        Control {
            ic: 0,
            ir: 0,
            im: 0,
            pending: 0,
            pr: 128,
            ex: 0,
            monitor: true,
            enabled: false,
            reset: true,
        }
    }

    // The control registers in the reset state: nothing pending, monitor mode, interrupts disabled.
    #[tactic(auto, unfolding(crate::specs::Records::reset_control))]
    pub fn in_reset(self) -> Control
        ensures { result ≡ reset_control self }
    {
        Control {
            pending: 0,
            monitor: true,
            enabled: false,
            reset: true,
            ..self
        }
    }
}

// The elapsed time and the interval timer (document 02, E6), in tenths of a microsecond: period 0 for off; at the end of an interval the line with
// this number, bit 0 the left-most, is raised.
#[repr(C)]
#[derive(Clone, Copy)]
pub struct Timer {
    pub elapsed: u32,
    pub period: u32,
    pub phase: u32,
    pub line: u8,
}

impl Timer {
    // No time elapsed, the interval timer off.
    pub fn off() -> Timer
        ensures { result ≡ timer_off }
    {
        Timer {
            elapsed: 0,
            period: 0,
            phase: 0,
            line: 0,
        }
    }
}

// The control record: the control registers and the timer.
#[repr(C)]
#[derive(Clone, Copy)]
pub struct Record {
    pub registers: Control,
    pub timer: Timer,
}

impl Record {
    // The record after power on (14.4): the fresh control registers, no time elapsed, the interval timer off.
    pub fn fresh() -> Record
        ensures { result ≡ fresh_record }
    {
        Record {
            registers: Control::fresh(),
            timer: Timer::off(),
        }
    }
}

// The device buffer registers, beside the control record (chapter 8): 24 bits each.
#[repr(C)]
#[derive(Clone, Copy)]
pub struct Devices {
    pub reader: u32,
    pub typewriter: u32,
}

// The fields of an instruction word.
#[derive(Clone, Copy)]
pub struct Instruction {
    pub code: u32,
    pub w: u32,
    pub m: u32,
    pub x: u32,
    pub d: u32,
}

impl Instruction {
    #[tactic(auto, unfolding(crate::specs::Format::instruction_fields))]
    pub fn of_word(v: u32) -> Instruction
        ensures { result ≡ instruction_fields v }
    {
        Instruction {
            code: v / 262144,
            w: v / 65536 % 4,
            m: v / 16384 % 4,
            x: v / 4096 % 4,
            d: v % 4096,
        }
    }
}

// Why an instruction exception was met, with the address whose test failed: said by the definition, not yet told by the code.
#[derive(Clone, Copy)]
pub enum Fault {
    Unassigned,
    Absent(u32),
    Privileged,
    Store(u32),
    Jump(u32),
}

// What an interruption was; a line carries the number stored.
#[derive(Clone, Copy)]
pub enum Kind {
    Exception,
    Line(u32),
}

impl Kind {
    // The number that the entry stores in word 8.
    pub fn number(self) -> u32
        ensures { result ≡ kind_number self }
    {
        match self {
            Kind::Exception => 0,
            Kind::Line(n) => n,
        }
    }
}

// How a run ended.
#[derive(Clone, Copy)]
pub enum Outcome {
    Reset,
    Interrupted(Kind),
    Spent,
}

// The numbered refusals: 1 to 12 of document 01, "Who can be refused, for what", from 13 on of document 02; by their numbers.
#[derive(Clone, Copy)]
pub enum Refusal {
    StoreSize = 1,
    CellValue = 2,
    ControlField = 3,
    Lines = 4,
    Budget = 5,
    TapeEnds = 6,
    RecordKind = 7,
    RecordLength = 8,
    BlockPlace = 9,
    BlockCell = 10,
    RecordOrder = 11,
    TapeLength = 12,
    Device = 13,
    RemarkLength = 14,
    WrittenLength = 15,
    BufferLength = 16,
    BlockOverlap = 17,
    TimerField = 18,
    LineGrammar = 19,
    LineDepth = 20,
    LineValue = 21,
}

impl Refusal {
    pub fn number(self) -> u32
        ensures { result ≡ refusal_number self }
    {
        self as u32
    }
}

// What a run hands back: `taken` of the reader's characters, `typed` bytes at the front of the typing buffer.
#[derive(Clone, Copy)]
pub struct Run {
    pub control: Record,
    pub answer: Result<Outcome, Refusal>,
    pub executed: u32,
    pub entries: u32,
    pub devices: Devices,
    pub taken: usize,
    pub typed: usize,
}

// What the reset key, the start key and the loader hand back: on a refusal the given control record, which so stands beside the verdict.
#[derive(Clone, Copy)]
pub struct State {
    pub control: Record,
    pub verdict: Result<(), Refusal>,
}

// What the autoload key hands back, the control record on a refusal too.
#[derive(Clone, Copy)]
pub struct Autoloaded {
    pub control: Record,
    pub verdict: Result<(), Refusal>,
    pub devices: Devices,
    pub taken: usize,
}

pub fn cell_at(s: &[u32], i: u32) -> u32
    ensures { result ≡ get_or s.now i 0 }
{
    s.get(i as usize).copied().unwrap_or(0)
}

pub fn put_cell(s: &mut [u32], i: u32, v: u32)
    ensures { s.new ≡ set s.old i v }
{
    let j = i as usize;
    if j < s.len() {
        s[j] = v;
    }
}

#[tactic(auto, unfolding(crate::specs::Store::word))]
pub fn word_at(s: &[u32], i: u32) -> u32
    ensures value { result ≡ word s.now i }
    ensures bound { result < word_range }
{
    cell_at(s, i) % WORD_RANGE
}

#[tactic(auto, unfolding(crate::specs::Store::key))]
pub fn key_at(s: &[u32], i: u32) -> u32
    ensures { result ≡ key s.now i }
{
    cell_at(s, i) / WORD_RANGE % 8
}

fn with_word(x: u32, v: u32) -> u32
    ensures { result ≡ x / word_range * word_range + v % word_range }
{
    x / WORD_RANGE * WORD_RANGE + v % WORD_RANGE
}

fn with_key(x: u32, k: u32) -> u32
    ensures { result ≡ k % 8 * word_range + x % word_range }
{
    k % 8 * WORD_RANGE + x % WORD_RANGE
}

#[tactic(auto, unfolding(crate::specs::Store::put_word))]
pub fn put_word(s: &mut [u32], i: u32, v: u32)
    ensures { s.new ≡ put_word s.old i v }
{
    put_cell(s, i, with_word(cell_at(s, i), v));
}

// The last 24 bits of a double-length register go in.
#[tactic(auto, unfolding(crate::specs::Store::put_word))]
pub fn put_long(s: &mut [u32], i: u32, v: u64)
    ensures { s.new ≡ put_word s.old i v }
{
    put_word(s, i, (v % LONG_WORD_RANGE) as u32);
}

#[tactic(auto, unfolding(crate::specs::Store::put_key))]
pub fn put_key(s: &mut [u32], i: u32, k: u32)
    ensures { s.new ≡ put_key s.old i k }
{
    put_cell(s, i, with_key(cell_at(s, i), k));
}

#[tactic(auto, unfolding(crate::specs::Store::byte))]
pub fn byte_at(s: &[u32], a: u32) -> u32
    ensures value { result ≡ byte s.now a }
    ensures bound { result < 4096 }
{
    let x = word_at(s, a / 2);
    if a % 2 == 0 { x / 4096 } else { x % 4096 }
}

#[tactic(auto, unfolding(crate::specs::Store::with_byte))]
fn with_byte(x: u32, a: u32, v: u32) -> u32
    ensures { result ≡ with_byte x a v }
{
    if a % 2 == 0 {
        v % 4096 * 4096 + x % 4096
    } else {
        x / 4096 * 4096 + v % 4096
    }
}

#[tactic(auto, unfolding(crate::specs::Store::put_byte))]
pub fn put_byte(s: &mut [u32], a: u32, v: u32)
    ensures { s.new ≡ put_byte s.old a v }
{
    put_word(s, a / 2, with_byte(word_at(s, a / 2), a, v));
}

fn joined(pre: u32, w: u32) -> u64
    requires { (pre < word_range) × (w < word_range) }
    ensures value { result ≡ pre * word_range + w }
    ensures bound { result < 281474976710656 }
{
    u64::from(pre) * LONG_WORD_RANGE + u64::from(w)
}

// Wpre concat W.
#[tactic(auto, unfolding(crate::specs::Store::pair))]
pub fn pair_at(s: &[u32], w: u32) -> u64
    ensures value { result ≡ pair s.now w }
    ensures bound { result < 281474976710656 }
{
    joined(word_at(s, previous_register(w)), word_at(s, w))
}

// Wpre concat W := v.
pub fn put_pair(s: &mut [u32], w: u32, v: u64)
    ensures { s.new ≡ put_word (put_word s.old (previous w) (v / word_range)) w v }
{
    put_long(s, previous_register(w), v / LONG_WORD_RANGE);
    put_long(s, w, v);
}

// if FR(6:7) <> 0 then W := v.
#[tactic(auto, unfolding(crate::specs::Store::put_link))]
pub fn put_link(s: &mut [u32], w: u32, v: u32)
    ensures { s.new ≡ put_link s.old w v }
{
    if w != 0 {
        put_word(s, w, v);
    }
}

// Test Address: no cell has the address.
#[tactic(auto, unfolding(crate::specs::Store::absent))]
pub fn is_absent(s: &[u32], a: u32) -> bool
    ensures { result ≡ absent s.now a }
{
    (a / 2) as usize >= s.len()
}

// PR(PK) = 1.
pub fn is_key_forbidden(pr: u32, k: u32) -> bool
    ensures { result ≡ forbids pr k }
{
    (pr << (k % 8)) / 128 % 2 == 1
}

// The address of a double word's first word.
#[tactic(auto, unfolding(crate::specs::Store::first_word))]
pub fn first_word(a: u32) -> u32
    ensures { result ≡ first_word a }
{
    if a / 2 == 0 { 6 } else { a / 2 * 2 - 2 }
}

// The number of Wpre.
pub fn previous_register(w: u32) -> u32
    ensures { result ≡ previous w }
{
    if w % 4 == 0 { 3 } else { w % 4 - 1 }
}

#[tactic(auto, unfolding(crate::specs::Fields::with_ir))]
fn with_ir(c: Control, v: u32) -> Control
    ensures { result ≡ with_ir c v }
{
    Control {
        ir: v % WORD_RANGE,
        ..c
    }
}

// Bits join the interrupt register.
#[tactic(auto, unfolding(crate::specs::Fields::raised))]
pub fn raise(c: Control, bits: u32) -> Control
    ensures { result ≡ raised c bits }
{
    with_ir(c, c.ir | bits)
}
