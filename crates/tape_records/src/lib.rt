// The records of a load tape, and the first one of a kind (document 01, "Load tape"; document 02, E6). A record is handled by the tape from its header on.
#![tactic(auto)]

ghost use Rattle.std.specs.Prelude.{◌≡◌, [], ◌+◌, ◌≤◌, ◌<◌, map, length, MatchOption};
ghost use Rattle.std.specs.Int.{w32, from_le_bytes};
ghost use Rattle.std.specs.Iterator.{YieldsFirstRef, item_count};
ghost use Rattle.definition_tape.specs.Layout.{number_at, length_of, kind_of, payload_of, rest_of, records_of, first_of, cell_count, block_cells, control_of, timer_of, control_record_of};
ghost use Rattle.tape_records.specs.Kinds.{kind_number, IsKind};

use machine::{Control, Record, Refusal, Timer};

// The little-endian number of the four bytes from `at` on.
pub fn number_at(s: &[u8], at: usize) -> u32
    requires { at + 4 ≤ length s.now }
    ensures { result ≡ number_at s.now at }
{
    u32::from_le_bytes([s[at], s[at + 1], s[at + 2], s[at + 3]])
}

// ---- a record: payload length (4 bytes), kind (2 bytes), payload

#[derive(Clone, Copy, PartialEq, Eq)]
pub enum RecordKind {
    Block = 1,
    Control = 2,
    End = 3,
    Remark = 4,
}

impl RecordKind {
    // The number that stands for it on a tape.
    pub fn number(self) -> u32
        ensures { result ≡ kind_number self }
    {
        self as u32
    }
}

impl TryFrom<u32> for RecordKind {
    type Error = Refusal;

    ghost try_from_gives = { IsKind };

    #[tactic(auto, unfolding(definition_tape::specs::Judge::kind_known))]
    fn try_from(number: u32) -> Result<RecordKind, Refusal> {
        match number {
            1 => Ok(RecordKind::Block),
            2 => Ok(RecordKind::Control),
            3 => Ok(RecordKind::End),
            4 => Ok(RecordKind::Remark),
            _ => Err(Refusal::RecordKind),
        }
    }
}

#[tactic(auto, unfolding(definition_tape::specs::Layout::length_of))]
pub fn record_length(t: &[u8]) -> usize
    requires { 6 ≤ length t.now }
    ensures value { result ≡ length_of t.now }
    ensures bound { result < 4294967296 }
{
    number_at(t, 0) as usize
}

#[tactic(auto, unfolding(definition_tape::specs::Layout::kind_of))]
pub fn record_kind(t: &[u8]) -> u32
    requires { 6 ≤ length t.now }
    ensures { result ≡ kind_of t.now }
{
    u16::from_le_bytes([t[4], t[5]]).into()
}

#[tactic(auto, unfolding(definition_tape::specs::Layout::payload_of))]
pub fn payload<'a>(t: &'a [u8]) -> &'a [u8]
    requires { 6 + length_of t.now ≤ length t.now }
    ensures { result.now ≡ payload_of t.now }
{
    let end = 6 + record_length(t);
    &t[6..end]
}

// The control registers that a control payload holds.
#[tactic(auto, unfolding(definition_tape::specs::Layout::control_of))]
pub fn control_of(p: &[u8]) -> Control
    requires { 20 ≤ length p.now }
    ensures { result ≡ control_of p.now }
{
    Control {
        ic: number_at(p, 0),
        ir: number_at(p, 4),
        im: number_at(p, 8),
        pending: number_at(p, 12),
        pr: p[16].into(),
        ex: p[17].into(),
        monitor: p[18] % 2 == 1,
        enabled: p[18] / 2 % 2 == 1,
        reset: p[18] / 4 % 2 == 1,
    }
}

// The timer that it holds: of 20 bytes four zeroes.
#[tactic(auto, unfolding(definition_tape::specs::Layout::timer_of))]
pub fn timer_of(p: &[u8]) -> Timer
    ensures { result ≡ timer_of p.now }
{
    if p.len() < 33 {
        return Timer::off();
    }
    Timer {
        elapsed: number_at(p, 20),
        period: number_at(p, 24),
        phase: number_at(p, 28),
        line: p[32],
    }
}

// The control record that it holds.
#[tactic(auto, unfolding(definition_tape::specs::Layout::control_record_of))]
pub fn record_of(p: &[u8]) -> Record
    requires { 20 ≤ length p.now }
    ensures { result ≡ control_record_of p.now }
{
    Record {
        registers: control_of(p),
        timer: timer_of(p),
    }
}

// ---- a tape as a row of records

// The tape after the record, empty where the record is not whole.
#[tactic(auto, unfolding(definition_tape::specs::Layout::rest_of))]
fn rest_of<'a>(t: &'a [u8]) -> &'a [u8]
    requires { 6 ≤ length t.now }
    ensures { result.now ≡ rest_of t.now }
{
    &t[t.len().min(6 + record_length(t))..]
}

// The records of a tape, each as the tape from its header on, as long as a header is there.
#[derive(Clone, Copy)]
pub struct Records<'a> {
    pub rest: &'a [u8],
}

impl<'a> Records<'a> {
    pub fn of(tape: &'a [u8]) -> Records<'a>
        ensures { result.rest.now ≡ tape.now }
    {
        Records { rest: tape }
    }
}

impl<'a> Iterator for Records<'a> {
    type Item = &'a [u8];

    ghost next_gives = { YieldsFirstRef (λ s. records_of s.rest.now) };

    ghost remaining = { item_count (λ s. records_of s.rest.now) };

    #[tactic(auto, using(definition_tape::proofs::Records::records_none, definition_tape::proofs::Records::records_more))]
    fn next(&mut self) -> Option<&'a [u8]> {
        let t = self.rest;
        if t.len() < 6 {
            return None;
        }
        self.rest = rest_of(t);
        Some(t)
    }
}

// The tape from its first record of that kind on, empty where there is none. It calls itself on what is left: the form that document 01 names
// (docs/DECISIONS.md, F8). A slice goes back in registers, so the call is a jump and takes no stack.
#[tactic(auto, using(definition_tape::proofs::Records::length_rest, definition_tape::proofs::Firsts::first_none, definition_tape::proofs::Firsts::first_here, definition_tape::proofs::Firsts::first_next))]
fn first<'a>(tape: &'a [u8], kind: u32) -> &'a [u8]
    ensures text { result.now ≡ first_of kind (records_of tape.now) }
    ensures header { 0 < length result.now → 6 ≤ length result.now }
{
    if tape.len() < 6 {
        return &tape[..0];
    }
    if record_kind(tape) == kind {
        return tape;
    }
    first(rest_of(tape), kind)
}

// The tape from its first record of that kind on, none where there is none.
pub fn hunt<'a>(tape: &'a [u8], kind: u32) -> Option<&'a [u8]>
    ensures { MatchOption result (first_of kind (records_of tape.now) ≡ []) (λ m. (6 ≤ length m.now) × (m.now ≡ first_of kind (records_of tape.now))) }
{
    let m = first(tape, kind);
    if m.is_empty() { None } else { Some(m) }
}

// The bytes of a block's cells.
pub fn cell_bytes<'a>(p: &'a [u8]) -> &'a [[u8; 4]]
    requires { 4 ≤ length p.now }
    ensures cells { map (from_le_bytes w32) result.now ≡ block_cells p.now }
    ensures count { length result.now ≡ cell_count p.now }
{
    p[4..].as_chunks().0
}
