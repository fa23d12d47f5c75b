// Load and overlay (document 01, "Load tape"; document 02, E5 and E6): the whole tape is judged before a cell changes.
#![tactic(auto)]

ghost use Rattle.std.specs.Prelude.{◌≡◌, ◌+◌, ◌≤◌, map, length};
ghost use Rattle.std.specs.Int.{w32, from_le_bytes};
ghost use Rattle.machine.specs.Verdicts.{Accepted};
ghost use Rattle.definition_tape.specs.Layout.{first_cell, cell_count, block_cells};
ghost use Rattle.definition_tape.specs.Judge.{judge_tape};
ghost use Rattle.definition_tape.specs.Load.{pasted, stored_block, tape_cells, loaded_control, judge_load, cleared, loading, overlaying};

use machine::{Record, Refusal, State};
use tape_records::{RecordKind, Records, cell_bytes, number_at, payload, record_kind, record_of};

// The cells of a block, written over the first ones of a part of the store.
fn copy_cells(part: &mut [u32], cells: &[[u8; 4]])
    requires { length cells.now ≤ length part.old }
    ensures { part.new ≡ pasted part.old (map (from_le_bytes w32) cells.now) }
{
    for (i, bytes) in cells.iter().enumerate() {
        part[i] = u32::from_le_bytes(*bytes);
    }
}

// A block goes into the part of the store that begins at its first cell.
fn load_block(store: &mut [u32], p: &[u8])
    requires { (4 ≤ length p.now) × (first_cell p.now + cell_count p.now ≤ length store.old) }
    ensures { store.new ≡ stored_block store.old (first_cell p.now) (block_cells p.now) }
{
    let first = number_at(p, 0) as usize;
    copy_cells(&mut store[first..], cell_bytes(p));
}

#[tactic(auto, unfolding(definition_tape::specs::Load::judge_load))]
fn judge_load(tape: &[u8], store: &[u32]) -> Result<(), Refusal>
    ensures { result ≡ judge_load tape.now store.now }
{
    acceptance::judge_store(store)?;
    tape_judge::judge_tape(tape, store.len())
}

// An accepted tape: its cells go over those of the store, up to the control record, which is the answer. Behind it is only the end.
fn lay(store: &mut [u32], tape: &[u8]) -> Record
    requires { judge_tape (length store.old) tape.now ≡ Accepted }
    ensures control { result ≡ loaded_control tape.now }
    ensures cells { store.new ≡ tape_cells store.old tape.now }
{
    for t in Records::of(tape) {
        let kind = record_kind(t);
        if kind == RecordKind::Control.number() {
            return record_of(payload(t));
        }
        if kind == RecordKind::Block.number() {
            load_block(store, payload(t));
        }
    }
    unreachable!()
}

// Every cell to word 0, key 0.
#[tactic(auto, unfolding(definition_tape::specs::Load::cleared))]
pub fn clear(store: &mut [u32])
    ensures { store.new ≡ cleared (length store.old) }
{
    store.fill(0);
}

// Loads a tape: cells that no block names are cleared. On a refusal nothing changes, and the given control record comes back.
#[tactic(auto, unfolding(definition_tape::specs::Load::loading))]
pub fn load(store: &mut [u32], control: Record, tape: &[u8]) -> State
    ensures state { result ≡ (loading tape.now store.old control).state }
    ensures cells { store.new ≡ (loading tape.now store.old control).cells }
{
    match judge_load(tape, store) {
        Ok(()) => {
            clear(store);
            State {
                control: lay(store, tape),
                verdict: Ok(()),
            }
        }
        Err(q) => State {
            control,
            verdict: Err(q),
        },
    }
}

// Lays a tape over the store: cells that no block names are kept. On a refusal nothing changes, and the given control record comes back.
#[tactic(auto, unfolding(definition_tape::specs::Load::overlaying))]
pub fn overlay(store: &mut [u32], control: Record, tape: &[u8]) -> State
    ensures state { result ≡ (overlaying tape.now store.old control).state }
    ensures cells { store.new ≡ (overlaying tape.now store.old control).cells }
{
    match judge_load(tape, store) {
        Ok(()) => State {
            control: lay(store, tape),
            verdict: Ok(()),
        },
        Err(q) => State {
            control,
            verdict: Err(q),
        },
    }
}
