// The judge of a load tape (document 01, "Load tape"; document 02, E4 and E6).
#![tactic(auto)]

ghost use Rattle.std.specs.Prelude.{◌≡◌, true, false, [], ◌+◌, ◌≤◌, length, cond, leb, ltb, MatchResult};
ghost use Rattle.machine.specs.declared.Refusal.TheVariants.{RecordOrder};
ghost use Rattle.machine.specs.Verdicts.{Accepted, Rejected};
ghost use Rattle.std.specs.Int.{w32, from_le_bytes};
ghost use Rattle.std.specs.List.{list_all};
ghost use Rattle.definition_tape.specs.Layout.{kind_of, length_of, records_of};
ghost use Rattle.definition_tape.specs.Judge.{in_order, length_fits, judge_block, control_good, judge_control, judge_payload, judge_record, judge_records, judge_tape};
ghost use Rattle.tape_records.specs.Kinds.{kind_number};

use acceptance::CELL_RANGE;
use definition_tape::MOST_BYTES;
use machine::Refusal;
use tape_records::{
    RecordKind, Records, cell_bytes, control_of, number_at, payload, record_kind, record_length,
    timer_of,
};

// ---- the judge's tests on one record

// `after`: the record before was the control record.
#[tactic(auto, unfolding(definition_tape::specs::Judge::in_order))]
fn in_order(after: bool, kind: RecordKind) -> bool
    ensures { result ≡ in_order after (kind_number kind) }
{
    after == (kind == RecordKind::End)
}

#[tactic(auto, unfolding(definition_tape::specs::Judge::length_fits))]
fn length_fits(kind: RecordKind, l: usize) -> bool
    ensures { result ≡ length_fits (kind_number kind) l }
{
    match kind {
        RecordKind::Block => l % 4 == 0 && 8 <= l,
        RecordKind::Control => l == 20 || l == 33,
        RecordKind::End => l == 0,
        RecordKind::Remark => l <= 255,
    }
}

fn cells_fit(cells: &[[u8; 4]]) -> bool
    ensures { result ≡ list_all (λ b. ltb (from_le_bytes w32 b) 134217728) cells.now }
{
    cells
        .iter()
        .all(|cell| u32::from_le_bytes(*cell) < CELL_RANGE)
}

// `unnamed`: no earlier block names a cell of this one.
#[tactic(auto, using(crate::proofs::Steps::fit_all), unfolding(definition_tape::specs::Judge::judge_block))]
fn judge_block(p: &[u8], cells: usize, unnamed: bool) -> Result<(), Refusal>
    requires { 4 ≤ length p.now }
    ensures { result ≡ judge_block cells unnamed p.now }
{
    let block = cell_bytes(p);
    if number_at(p, 0) as usize + block.len() > cells {
        return Err(Refusal::BlockPlace);
    }
    if !unnamed {
        return Err(Refusal::BlockOverlap);
    }
    if !cells_fit(block) {
        return Err(Refusal::BlockCell);
    }
    Ok(())
}

#[tactic(auto, unfolding(definition_tape::specs::Judge::control_good))]
fn control_good(p: &[u8]) -> bool
    requires { 20 ≤ length p.now }
    ensures { result ≡ control_good p.now }
{
    p[18] <= 7 && p[19] == 0 && acceptance::control_fits(control_of(p))
}

// 3, then 18.
#[tactic(auto, unfolding(definition_tape::specs::Judge::judge_control))]
fn judge_control(p: &[u8]) -> Result<(), Refusal>
    requires { 20 ≤ length p.now }
    ensures { result ≡ judge_control p.now }
{
    if !control_good(p) {
        return Err(Refusal::ControlField);
    }
    if !acceptance::timer_fits(timer_of(p)) {
        return Err(Refusal::TimerField);
    }
    Ok(())
}

#[tactic(auto, unfolding(definition_tape::specs::Judge::judge_payload, definition_tape::specs::Judge::length_fits))]
fn judge_payload(p: &[u8], kind: RecordKind, cells: usize, unnamed: bool) -> Result<(), Refusal>
    requires { length_fits (kind_number kind) (length p.now) ≡ true }
    ensures { result ≡ judge_payload cells unnamed (kind_number kind) p.now }
{
    match kind {
        RecordKind::Block => judge_block(p, cells, unnamed),
        RecordKind::Control => judge_control(p),
        RecordKind::End | RecordKind::Remark => Ok(()),
    }
}

// The kind of a good record.
#[tactic(auto, unfolding(definition_tape::specs::Judge::judge_record))]
fn judge_record(t: &[u8], cells: usize, after: bool, unnamed: bool) -> Result<RecordKind, Refusal>
    requires { 6 ≤ length t.now }
    ensures { MatchResult result (λ k. (kind_number k ≡ kind_of t.now) × (judge_record cells after unnamed t.now ≡ Accepted)) (λ q. judge_record cells after unnamed t.now ≡ Rejected q) }
{
    let kind = RecordKind::try_from(record_kind(t))?;
    let l = record_length(t);
    if !in_order(after, kind) {
        return Err(Refusal::RecordOrder);
    }
    if !length_fits(kind, l) {
        return Err(Refusal::RecordLength);
    }
    if 6 + l > t.len() {
        return Err(Refusal::TapeEnds);
    }
    judge_payload(payload(t), kind, cells, unnamed)?;
    Ok(kind)
}

// ---- the judge, record by record

// Nothing follows the end.
fn judge_end(t: &[u8]) -> Result<(), Refusal>
    requires { 6 ≤ length t.now }
    ensures { result ≡ cond (leb (length t.now) (6 + length_of t.now)) Accepted (Rejected RecordOrder) }
{
    if t.len() > 6 + record_length(t) {
        return Err(Refusal::RecordOrder);
    }
    Ok(())
}

fn judge_records(tape: &[u8], cells: usize) -> Result<(), Refusal>
    ensures { result ≡ judge_records cells false [] (records_of tape.now) }
{
    let first = tape_overlap::first_again(tape, cells);
    let mut after = false;
    for (n, t) in Records::of(tape).enumerate() {
        match judge_record(t, cells, after, first != Some(n))? {
            RecordKind::End => return judge_end(t),
            RecordKind::Control => after = true,
            RecordKind::Block | RecordKind::Remark => after = false,
        }
    }
    Err(Refusal::TapeEnds)
}

// The verdict on a tape for a store of so many cells.
#[tactic(auto, unfolding(definition_tape::specs::Judge::judge_tape))]
pub fn judge_tape(tape: &[u8], cells: usize) -> Result<(), Refusal>
    ensures { result ≡ judge_tape cells tape.now }
{
    if tape.len() > MOST_BYTES {
        return Err(Refusal::TapeLength);
    }
    judge_records(tape, cells)
}
