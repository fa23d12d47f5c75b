// Writing tapes: a machine and its remark into a lent buffer (document 02, E2 and E6). The first pass over the store counts the tape's bytes, the second
// writes them. A function that writes leaves all other bytes of the buffer as they are; where it takes no place it begins at the front.
#![tactic(auto)]

ghost use Rattle.std.specs.Prelude.{◌≡◌, true, ◌+◌, ◌*◌, ◌%◌, ◌≤◌, ◌<◌, length, get_or, drop};
ghost use Rattle.acceptance.specs.Accept.{most_cells};
ghost use Rattle.definition_tape.specs.Blocks.{stretch, store_blocks};
ghost use Rattle.definition_tape.specs.Bytes.{bytes2, bytes4, header_bytes, record_bytes, cells_bytes, blocks_bytes, flags_byte, state_bytes, timer_bytes, control_bytes, remark_record, tape_of};
ghost use Rattle.definition_tape.specs.Writing.{remark_lent, remark_fits, written, writing};
ghost use Rattle.tape_records.specs.Kinds.{kind_number};
ghost use Rattle.tape_write.specs.Steps.{put, blocks_after, all_zero, stretch_bytes, block_size, written_as};

use definition_tape::MOST_BYTES;
use machine::{Control, Record, Refusal, Timer};
use tape_records::RecordKind;

// How many cells are tested for zero together; such a part of the store begins at a multiple of it.
const PART: usize = 256;

// ---- numbers, little-endian

fn put_pair(out: &mut [u8], at: usize, n: u16)
    requires { at + 2 ≤ length out.old }
    ensures { out.new ≡ put out.old at (bytes2 n) }
{
    out[at..at + 2].copy_from_slice(&n.to_le_bytes());
}

fn put_number(out: &mut [u8], at: usize, n: u32)
    requires { at + 4 ≤ length out.old }
    ensures { out.new ≡ put out.old at (bytes4 n) }
{
    out[at..at + 4].copy_from_slice(&n.to_le_bytes());
}

// A record's header: its kind and the payload's length l.
fn put_header(out: &mut [u8], at: usize, kind: RecordKind, l: u32)
    requires { at + 6 ≤ length out.old }
    ensures { out.new ≡ put out.old at (header_bytes (kind_number kind) l) }
{
    put_number(out, at, l);
    put_pair(out, at + 4, kind.number() as u16);
}

// ---- blocks

fn put_cells(out: &mut [u8], at: usize, cells: &[u32])
    requires { at + 4 * length cells.now ≤ length out.old }
    ensures { out.new ≡ put out.old at (cells_bytes cells.now) }
{
    for (i, cell) in cells.iter().enumerate() {
        put_number(out, at + 4 * i, *cell);
    }
}

fn block_size(k: usize) -> usize
    requires { k ≤ most_cells }
    ensures { result ≡ block_size k }
{
    10 + 4 * k
}

// The block of these cells.
fn put_stretch(out: &mut [u8], at: usize, first: u32, cells: &[u32])
    requires { (length cells.now ≤ most_cells) × (at + block_size (length cells.now) ≤ length out.old) }
    ensures { out.new ≡ put out.old at (stretch_bytes first cells.now) }
{
    put_header(out, at, RecordKind::Block, (4 + 4 * cells.len()) as u32);
    put_number(out, at + 6, first);
    put_cells(out, at + 10, cells);
}

// How many cells from one that is not zero on are not zero, up to the first that is.
fn stretch_length(store: &[u32], first: usize) -> usize
    requires { (first < length store.now) × (get_or store.now first 0 ≡ 0 → ⊥) }
    ensures value { result ≡ length (stretch (drop first store.now)) }
    ensures bound { first + result ≤ length store.now }
    ensures some { 0 < result }
{
    let mut end = first;
    while end < store.len() {
        if store[end] == 0 {
            return end - first;
        }
        end += 1;
    }
    end - first
}

// Every cell is looked at, so that the compiler can test several at once.
fn all_zero(cells: &[u32]) -> bool
    ensures { result ≡ all_zero cells.now }
{
    let mut zero = true;
    for cell in cells {
        if *cell != 0 {
            zero = false;
        }
    }
    zero
}

// How many cells to pass over from a zero cell on: all of a part that begins there where they are zero, else that cell.
fn zero_cells(store: &[u32], i: usize) -> usize
    requires { (i < length store.now) × (get_or store.now i 0 ≡ 0) }
    ensures blocks { blocks_after store.now (i + result) ≡ blocks_after store.now i }
    ensures bound { (0 < result) × (i + result ≤ length store.now) }
{
    if i % PART == 0 && PART <= store.len() - i && all_zero(&store[i..i + PART]) {
        PART
    } else {
        1
    }
}

// At most 14 bytes for each cell, and for one behind the last.
fn blocks_length(store: &[u32]) -> usize
    requires { length store.now ≤ most_cells }
    ensures value { result ≡ length (blocks_bytes (store_blocks store.now)) }
    ensures bound { result ≤ 14 * (most_cells + 1) }
{
    let mut total: usize = 0;
    let mut i: usize = 0;
    while i < store.len() {
        if store[i] == 0 {
            i += zero_cells(store, i);
        } else {
            let k = stretch_length(store, i);
            total += block_size(k);
            // the cell behind the stretch is zero, or there is none
            i += k + 1;
        }
    }
    total
}

// The blocks of the store, whose bytes go up to the place `to`: there the loop ends, with the last block and not with the store.
fn put_blocks(out: &mut [u8], from: usize, to: usize, store: &[u32])
    requires { (length store.now ≤ most_cells) × (to ≡ from + length (blocks_bytes (store_blocks store.now))) × (to ≤ length out.old) }
    ensures { out.new ≡ put out.old from (blocks_bytes (store_blocks store.now)) }
{
    let mut at = from;
    let mut i: usize = 0;
    while at < to {
        if store[i] == 0 {
            i += zero_cells(store, i);
        } else {
            let k = stretch_length(store, i);
            let end = i + k;
            put_stretch(out, at, i as u32, &store[i..end]);
            at += block_size(k);
            // the cell behind the stretch is zero, or there is none
            i += k + 1;
        }
    }
}

// ---- the control record

fn flags_byte(c: Control) -> u8
    ensures { result ≡ flags_byte c }
{
    u8::from(c.monitor) + 2 * u8::from(c.enabled) + 4 * u8::from(c.reset)
}

// PR, EX, flags, a zero byte.
fn put_state(out: &mut [u8], at: usize, c: Control)
    requires { at + 4 ≤ length out.old }
    ensures { out.new ≡ put out.old at (state_bytes c) }
{
    out[at] = (c.pr % 256) as u8;
    out[at + 1] = (c.ex % 256) as u8;
    out[at + 2] = flags_byte(c);
    out[at + 3] = 0;
}

// Elapsed time, period, phase, line.
fn put_timer(out: &mut [u8], at: usize, t: Timer)
    requires { at + 13 ≤ length out.old }
    ensures { out.new ≡ put out.old at (timer_bytes t) }
{
    put_number(out, at, t.elapsed);
    put_number(out, at + 4, t.period);
    put_number(out, at + 8, t.phase);
    out[at + 12] = t.line;
}

fn put_control(out: &mut [u8], at: usize, r: Record)
    requires { at + 39 ≤ length out.old }
    ensures { out.new ≡ put out.old at (record_bytes 2 (control_bytes r)) }
{
    let c = r.registers;
    put_header(out, at, RecordKind::Control, 33);
    put_number(out, at + 6, c.ic);
    put_number(out, at + 10, c.ir);
    put_number(out, at + 14, c.im);
    put_number(out, at + 18, c.pending);
    put_state(out, at + 22, c);
    put_timer(out, at + 26, r.timer);
}

// ---- the remark

// Byte by byte: `copy_from_slice` of a length that is not known would have the C library ask for `memmove`.
fn put_text(out: &mut [u8], at: usize, text: &[u8])
    requires { at + length text.now ≤ length out.old }
    ensures { out.new ≡ put out.old at text.now }
{
    for (i, byte) in text.iter().enumerate() {
        out[at + i] = *byte;
    }
}

#[tactic(auto, unfolding(definition_tape::specs::Writing::remark_fits))]
fn remark_fits(remark: Option<&[u8]>) -> bool
    ensures { result ≡ remark_fits (remark_lent remark.entry) }
{
    match remark {
        Some(text) => text.len() <= 255,
        None => true,
    }
}

#[tactic(auto, using(definition_tape::proofs::Bytes::length_record), unfolding(definition_tape::specs::Writing::remark_fits, definition_tape::specs::Bytes::remark_record))]
fn remark_size(remark: Option<&[u8]>) -> usize
    requires { remark_fits (remark_lent remark) ≡ true }
    ensures { result ≡ length (remark_record (remark_lent remark.entry)) }
{
    match remark {
        Some(text) => 6 + text.len(),
        None => 0,
    }
}

#[tactic(auto, using(definition_tape::proofs::Bytes::length_record, crate::proofs::Ways::no_remark_put, crate::proofs::Ways::remark_put), unfolding(definition_tape::specs::Writing::remark_fits, definition_tape::specs::Bytes::remark_record))]
fn put_remark(out: &mut [u8], remark: Option<&[u8]>)
    requires { (remark_fits (remark_lent remark) ≡ true) × (length (remark_record (remark_lent remark)) ≤ length out.old) }
    ensures { out.new ≡ put out.old 0 (remark_record (remark_lent remark.entry)) }
{
    if let Some(text) = remark {
        put_header(out, 0, RecordKind::Remark, text.len() as u32);
        put_text(out, 6, text);
    }
}

// ---- the tape

fn tape_length(store: &[u32], r: Record, remark: Option<&[u8]>) -> usize
    requires { (length store.now ≤ most_cells) × (remark_fits (remark_lent remark) ≡ true) }
    ensures { result ≡ length (tape_of store.now r (remark_lent remark.entry)) }
{
    // 39 bytes of control record, 6 of end
    remark_size(remark) + blocks_length(store) + 45
}

// The tape, of n bytes.
fn put_tape(out: &mut [u8], n: usize, store: &[u32], r: Record, remark: Option<&[u8]>)
    requires { (length store.now ≤ most_cells) × (remark_fits (remark_lent remark) ≡ true) × (n ≡ length (tape_of store.now r (remark_lent remark))) × (n ≤ length out.old) }
    ensures { out.new ≡ put out.old 0 (tape_of store.now r (remark_lent remark.entry)) }
{
    put_remark(out, remark);
    let at = remark_size(remark);
    let end = n - 45;
    put_blocks(out, at, end, store);
    put_control(out, end, r);
    put_header(out, end + 39, RecordKind::End, 0);
}

#[tactic(auto, using(crate::proofs::Puts::put_first), unfolding(crate::specs::Steps::written_as, definition_tape::specs::Writing::judge_parts, definition_tape::specs::Writing::judge_size))]
fn write_machine(
    store: &[u32],
    r: Record,
    remark: Option<&[u8]>,
    out: &mut [u8],
) -> Result<usize, Refusal>
    requires { length store.now ≤ most_cells }
    ensures answer { written result ≡ (written_as store.now r (remark_lent remark.entry) out.old).answer }
    ensures bytes { out.new ≡ (written_as store.now r (remark_lent remark.entry) out.old).bytes }
{
    if !remark_fits(remark) {
        return Err(Refusal::RemarkLength);
    }
    let n = tape_length(store, r, remark);
    if n > MOST_BYTES {
        return Err(Refusal::WrittenLength);
    }
    if n > out.len() {
        return Err(Refusal::BufferLength);
    }
    put_tape(out, n, store, r, remark);
    Ok(n)
}

// Writes the tape of a machine, with its remark. On a refusal nothing changes.
#[tactic(auto, unfolding(crate::specs::Steps::written_as, definition_tape::specs::Writing::judge_writing, definition_tape::specs::Writing::writing))]
pub fn write(
    store: &[u32],
    control: Record,
    remark: Option<&[u8]>,
    out: &mut [u8],
) -> Result<usize, Refusal>
    ensures answer { written result ≡ (writing store.now control (remark_lent remark.entry) out.old).answer }
    ensures bytes { out.new ≡ (writing store.now control (remark_lent remark.entry) out.old).bytes }
{
    acceptance::judge_machine(store, control)?;
    write_machine(store, control, remark, out)
}
