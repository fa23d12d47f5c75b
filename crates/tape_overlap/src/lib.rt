// The first record of a load tape that names a cell again (document 02, E4). Blocks that rise need one pass over the headers. For others the cells
// are marked as they are named, so many at a time as the marks have places for.
#![tactic(auto)]

ghost use Rattle.std.specs.Prelude.{◌≡◌, true, false, List, [], ◌∷◌, ℕ, ◌+◌, ◌-◌, ◌*◌, ◌^◌, ◌≤◌, ◌<◌, min, length, unwrap_or};
ghost use Rattle.definition_tape.specs.Layout.{records_of, first_cell, cell_count};
ghost use Rattle.definition_tape.specs.Judge.{times_named};
ghost use Rattle.tape_overlap.specs.Again.{is_whole, cells_of, bit_at, mark_at, with_mark, MarkedFrom, Met, Marks, NamesMarked, SearchedPart, FirstAgain};

use tape_records::{Records, number_at, payload, record_kind, record_length};

const WORDS: usize = 8192;

// The places of the marks, a bit each.
const PLACES: usize = 262144;

// The cells that a record names: those from `from` up to, not including, `to`; none where both are equal.
#[derive(Clone, Copy)]
pub struct Cells {
    pub from: usize,
    pub to: usize,
}

// What a search finds: the number of the record where it stops, and an end of the cells that the records before it name.
#[derive(Clone, Copy)]
pub struct Searched {
    pub first: usize,
    pub high: usize,
}

fn whole(t: &[u8]) -> bool
    ensures { result ≡ is_whole t.now }
{
    if t.len() < 6 {
        return false;
    }
    6 + record_length(t) <= t.len()
}

fn block_named(p: &[u8]) -> Cells
    requires { 8 ≤ length p.now }
    ensures { result ≡ record { from = first_cell p.now; to = first_cell p.now + cell_count p.now } }
{
    let first = number_at(p, 0) as usize;
    Cells {
        from: first,
        to: first + (p.len() - 4) / 4,
    }
}

fn cells_named(t: &[u8]) -> Cells
    requires { is_whole t.now ≡ true }
    ensures { result ≡ cells_of t.now }
{
    if record_kind(t) == 1 {
        if 8 <= record_length(t) {
            let p = payload(t);
            return block_named(p);
        }
    }
    Cells { from: 0, to: 0 }
}

// Whether each block begins where the one before it ends, or later.
fn rising(tape: &[u8]) -> bool
    ensures { result ≡ true → (i : ℕ) → times_named (records_of tape.now) i ≤ 1 }
{
    let mut high: usize = 0;
    for t in Records::of(tape) {
        if !whole(t) {
            return false;
        }
        let c = cells_named(t);
        if c.from < c.to {
            if c.from < high {
                return false;
            }
            high = c.to;
        }
    }
    true
}

// The place of the cell i, where the cell `low` has place 0: 0 for a cell before it, PLACES for one after the last place.
fn place(i: usize, low: usize) -> usize
    ensures { result ≡ min (i - low) 262144 }
{
    i.saturating_sub(low).min(PLACES)
}

fn mark_at(marks: &[u32], i: usize) -> u32
    requires { i < 32 * length marks.now }
    ensures { result ≡ mark_at marks.now i }
{
    (marks[i / 32] >> (i % 32)) % 2
}

fn weight(k: usize) -> u32
    requires { k < 32 }
    ensures { result ≡ 2 ^ k }
{
    1 << k
}

fn with_bit(x: u32, k: usize) -> u32
    requires { (k < 32) × (bit_at x k ≡ 0) }
    ensures { result ≡ x + 2 ^ k }
{
    x + weight(k)
}

fn set_mark(marks: &mut [u32], i: usize)
    requires { (i < 32 * length marks.old) × (mark_at marks.old i ≡ 0) }
    ensures { marks.new ≡ with_mark marks.old i }
{
    marks[i / 32] = with_bit(marks[i / 32], i % 32);
}

// Marks the places from a up to e; true where it meets one that is marked.
fn mark(marks: &mut [u32], a: usize, e: usize) -> bool
    requires { e ≤ 32 * length marks.old }
    ensures size { length marks.new ≡ length marks.old }
    ensures passed { result ≡ false → MarkedFrom a e marks.old marks.new }
    ensures met { result ≡ true → Met a e marks.old }
{
    for i in a..e {
        if mark_at(marks, i) != 0 {
            return true;
        }
        set_mark(marks, i);
    }
    false
}

fn mark_cells(marks: &mut [u32], c: Cells, low: usize) -> bool
    requires { length marks.old ≡ 8192 }
    ensures size { length marks.new ≡ 8192 }
    ensures passed { result ≡ false → (t : List ℕ) → is_whole t ≡ true → c ≡ cells_of t → (ts : List (List ℕ)) → Marks low ts marks.old → Marks low (t ∷ ts) marks.new }
    ensures met { result ≡ true → (t : List ℕ) → is_whole t ≡ true → c ≡ cells_of t → NamesMarked low t marks.old }
{
    let a = place(c.from, low);
    let e = place(c.to, low);
    mark(marks, a, e)
}

fn mark_records(marks: &mut [u32], tape: &[u8], low: usize, most: usize) -> Searched
    requires { (length marks.old ≡ 8192) × Marks low [] marks.old }
    ensures { SearchedPart low most (records_of tape.now) result }
{
    let mut high: usize = 0;
    for (n, t) in Records::of(tape).take(most).enumerate() {
        if !whole(t) {
            return Searched { first: n, high };
        }
        let c = cells_named(t);
        if mark_cells(marks, c, low) {
            return Searched { first: n, high };
        }
        high = high.max(c.to);
    }
    Searched { first: most, high }
}

fn search_part(tape: &[u8], low: usize, most: usize) -> Searched
    ensures { SearchedPart low most (records_of tape.now) result }
{
    let mut marks = [0u32; WORDS];
    mark_records(&mut marks, tape, low, most)
}

// The first part tells how far the others go: a tape's blocks mostly lie at the front of the store.
fn search(tape: &[u8], cells: usize) -> usize
    ensures bound { result ≤ length tape.now }
    ensures first { FirstAgain cells (records_of tape.now) result }
{
    let front = search_part(tape, 0, tape.len());
    let mut n = front.first;
    let mut left = front.high.min(cells);
    // down by whole parts while more than one is left: a range with a step is no plainer
    while PLACES < left {
        left -= PLACES;
        let part = search_part(tape, left, n);
        n = part.first;
    }
    n
}

// The number, counted from 0, of the first record that names a cell again or is not whole; None where the blocks rise. It may be one that no record has.
pub fn first_again(tape: &[u8], cells: usize) -> Option<usize>
    ensures bound { unwrap_or result 0 ≤ length tape.now }
    ensures first { FirstAgain cells (records_of tape.now) (unwrap_or result (length (records_of tape.now))) }
{
    if rising(tape) {
        None
    } else {
        Some(search(tape, cells))
    }
}
