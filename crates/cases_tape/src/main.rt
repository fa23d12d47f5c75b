// Loads and reads the tapes of the file stdin, case by case, and writes what came of each. tools/cases_tape.py writes the cases and the answers.
//
// All numbers have 4 bytes, little-endian. First the number of cases. A case: 1 (load), 2 (remark) or 3 (overlay), the number of cells, the number
// of cells that are not zero, the number of the tape's bytes; then index and value of each cell that is not zero; then the tape.
#![tactic(auto)]

use machine::{Control, Record, State, Timer};
use reading::{read_full, read_number};
use std::io::{self, BufReader, BufWriter, Read, Write};

#[derive(Clone, Copy)]
enum Kind {
    Load,
    Remark,
    Overlay,
}

// No number is refused: one that is not used stands for the last case, so this is no TryFrom.
impl From<u32> for Kind {
    fn from(number: u32) -> Self {
        match number {
            1 => Kind::Load,
            2 => Kind::Remark,
            _ => Kind::Overlay,
        }
    }
}

// The store, a copy that stays as the case gives it, and room for the tape.
#[derive(Drop)]
struct Buffers {
    store: [u32; 4096],
    copy: [u32; 4096],
    tape: [u8; 65600],
}

impl Buffers {
    // The cells of a case, all others 0.
    fn read_cells(&mut self, input: &mut impl Read, count: u32) -> io::Result<()> {
        tape_load::clear(&mut self.store);
        for _ in 0..count {
            let i = read_number(input)?;
            let x = read_number(input)?;
            machine::put_cell(&mut self.store, i, x);
        }
        self.copy = self.store;
        Ok(())
    }
}

// A control record that no test accepts: it has to come back on a refusal.
fn given_record() -> Record {
    Record {
        registers: Control {
            ic: 4294967295,
            ir: 16777216,
            im: 1,
            pending: 2,
            pr: 3,
            ex: 9,
            monitor: false,
            enabled: true,
            reset: true,
        },
        timer: Timer {
            elapsed: 4294967295,
            period: 5,
            phase: 4294967294,
            line: 255,
        },
    }
}

fn print_record(out: &mut impl Write, record: Record) -> io::Result<()> {
    let c = record.registers;
    let t = record.timer;
    write!(
        out,
        "{} {} {} {} {} {} ",
        c.ic, c.ir, c.im, c.pending, c.pr, c.ex
    )?;
    let monitor = u8::from(c.monitor);
    let enabled = u8::from(c.enabled);
    let reset = u8::from(c.reset);
    write!(out, "{monitor} {enabled} {reset} ")?;
    write!(out, "{} {} {} {} ", t.elapsed, t.period, t.phase, t.line)
}

// The cells that differ from those given, `i=v,i=v,..`, or `-`.
fn print_changes(out: &mut impl Write, store: &[u32], given: &[u32]) -> io::Result<()> {
    let mut some = false;
    for (i, (x, was)) in store.iter().zip(given).enumerate() {
        if x != was {
            if some {
                write!(out, ",")?;
            }
            write!(out, "{i}={x}")?;
            some = true;
        }
    }
    if !some {
        write!(out, "-")?;
    }
    Ok(())
}

fn print_load(out: &mut impl Write, s: State, store: &[u32], given: &[u32]) -> io::Result<()> {
    match s.verdict {
        Ok(()) => write!(out, "ok ")?,
        Err(q) => write!(out, "refused {} ", q.number())?,
    }
    print_record(out, s.control)?;
    print_changes(out, store, given)?;
    writeln!(out)
}

fn checksum(text: &[u8]) -> u16 {
    text.iter().fold(
        0,
        |sum: u16, b| sum.wrapping_mul(3).wrapping_add(u16::from(*b)),
    )
}

// The span, then the text by its length and a checksum, which the other call gives.
fn remark_case(out: &mut impl Write, cells: usize, tape: &[u8]) -> io::Result<()> {
    let (span_refusal, span_found, start, end) = match tape_remark::remark_span(tape, cells) {
        Ok(Some(span)) => (0, true, span.start, span.end),
        Ok(None) => (0, false, 0, 0),
        Err(q) => (q.number(), false, 0, 0),
    };
    let (refusal, found, text) = match tape_remark::remark(tape, cells) {
        Ok(Some(text)) => (0, true, text),
        Ok(None) => (0, false, &tape[..0]),
        Err(q) => (q.number(), false, &tape[..0]),
    };
    let length = text.len();
    let sum = checksum(text);
    write!(out, "{refusal} {} ", u8::from(found))?;
    write!(out, "{span_refusal} {} ", u8::from(span_found))?;
    writeln!(out, "{start} {end} {length} {sum}")
}

// Nothing is written of a case that has more cells or bytes than there is room for, and its tape is not read. Where the input ends within the tape,
// its other bytes stay those of the tape before.
fn one_case(input: &mut impl Read, out: &mut impl Write, buffers: &mut Buffers) -> io::Result<()> {
    let kind = Kind::from(read_number(input)?);
    let cells = read_number(input)? as usize;
    let count = read_number(input)?;
    let size = read_number(input)? as usize;
    buffers.read_cells(input, count)?;
    let Some(tape) = buffers.tape.get_mut(..size) else {
        return Ok(());
    };
    read_full(input, tape)?;
    if let Kind::Remark = kind {
        return remark_case(out, cells, tape);
    }
    let Some(store) = buffers.store.get_mut(..cells) else {
        return Ok(());
    };
    let s = match kind {
        Kind::Load => tape_load::load(store, given_record(), tape),
        _ => tape_load::overlay(store, given_record(), tape),
    };
    print_load(out, s, store, &buffers.copy)
}

fn main(rt: HostRuntime) -> io::Result<()> {
    let mut input = BufReader::new(rt.alloc(), rt.reader())?;
    let mut out = BufWriter::new(rt.alloc(), io::writer(&rt))?;
    let mut buffers = Buffers {
        store: [0; 4096],
        copy: [0; 4096],
        tape: [0; 65600],
    };
    for _ in 0..read_number(&mut input)? {
        one_case(&mut input, &mut out, &mut buffers)?;
    }
    out.flush()
}
