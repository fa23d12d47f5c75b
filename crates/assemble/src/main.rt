// assemble: a listing on standard input; for each line its word in decimal, or its number and refusal (document 02, E7).
#![tactic(auto)]

use listing::Lines;
use std::io;

// The answer to one line; the first has number 1.
fn write_line(rt: &impl Print, number: u64, line: &[u8]) -> io::Result<()> {
    match rc4000::assemble(line) {
        Err(q) => println!(rt; "line {number} refused {}", q.number()),
        Ok(w) => println!(rt; "{w}"),
    }
}

fn write_lines(rt: &impl Print, text: &[u8]) -> io::Result<()> {
    for (number, line) in (1..).zip(Lines::of(text)) {
        write_line(rt, number, line)?;
    }
    Ok(())
}

fn main(rt: HostRuntime) -> io::Result<()> {
    // One byte more than a listing may have, so that a longer one is seen to be too long.
    let mut text = [0; 65537];
    let n = reading::read_full(&mut rt.reader(), &mut text)?;
    if n <= listing::MOST_BYTES {
        write_lines(&rt, &text[..n])
    } else {
        println!(rt; "listing over 65536 bytes")
    }
}
