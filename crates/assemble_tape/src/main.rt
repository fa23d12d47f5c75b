// assemble_tape: a listing on standard input; its load tape on standard output. The words stand from cell 8 on in 4,096 cells of zero, all keys 0, and
// IC is 16, in monitor mode with interrupts disabled. Nothing is written where a line is refused or the cells or the bytes of the listing are too many.
#![tactic(auto)]

use listing::Lines;
use machine::{Control, Record};
use std::io;

// None where the line is refused or there is no such cell.
fn put_line(store: &mut [u32], cell: usize, line: &[u8]) -> Option<()> {
    *store.get_mut(cell)? = rc4000::assemble(line).ok()?;
    Some(())
}

// None where a line is refused or has no cell.
fn put_lines(store: &mut [u32], text: &[u8]) -> Option<()> {
    for (cell, line) in (8..).zip(Lines::of(text)) {
        put_line(store, cell, line)?;
    }
    Some(())
}

// The fresh record out of the reset state, IC at cell 8.
fn ready() -> Record {
    let fresh = Record::fresh();
    Record {
        registers: Control {
            ic: 16,
            reset: false,
            ..fresh.registers
        },
        ..fresh
    }
}

// The tape of the store, with no remark. For a refusal nothing is written.
fn write_tape(rt: &impl Print, store: &[u32]) -> io::Result<()> {
    let mut tape = [0; 65536];
    let length = rc4000::write(store, ready(), None, &mut tape).unwrap_or(0);
    match tape.get(..length) {
        Some(front) => rt.write_all(front),
        None => Ok(()),
    }
}

fn main(rt: HostRuntime) -> io::Result<()> {
    // One byte more than a listing may have, so that a longer one is seen to be too long.
    let mut text = [0; 65537];
    let n = reading::read_full(&mut rt.reader(), &mut text)?;
    let mut store = [0; 4096];
    if n <= listing::MOST_BYTES && put_lines(&mut store, &text[..n]).is_some() {
        write_tape(&rt, &store)?;
    }
    Ok(())
}
