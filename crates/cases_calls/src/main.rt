// Makes the calls of the cases in the file stdin, and writes a line for each. README.md describes both files; host/cases writes them.
#![tactic(auto)]

use cases_common::mix;
use lent::{Buffers, Lent};
use machine::{Control, Devices, Kind, Outcome, Record, Refusal, State, Timer};
use reading::read_number;
use std::io::{self, BufReader, BufWriter, Read, Write};

mod lent;

#[derive(Clone, Copy)]
enum Called {
    Run,
    Reset,
    Start,
    Autoload,
    Write,
    Assemble,
}

// No number is refused: one that is not used stands for the last case, so this is no TryFrom.
impl From<u32> for Called {
    fn from(number: u32) -> Self {
        match number {
            0 => Called::Run,
            1 => Called::Reset,
            2 => Called::Start,
            3 => Called::Autoload,
            5 => Called::Assemble,
            _ => Called::Write,
        }
    }
}

// What a case asks for, beside what it lends.
#[derive(Clone, Copy)]
struct Call {
    lines: u32,
    budget: u32,
    control: Record,
    devices: Devices,
}

fn read_registers(input: &mut impl Read) -> io::Result<Control> {
    let ic = read_number(input)?;
    let ir = read_number(input)?;
    let im = read_number(input)?;
    let pending = read_number(input)?;
    let pr = read_number(input)?;
    let ex = read_number(input)?;
    let flags = read_number(input)?;
    Ok(Control {
        ic,
        ir,
        im,
        pending,
        pr,
        ex,
        monitor: flags % 2 == 1,
        enabled: flags / 2 % 2 == 1,
        reset: flags / 4 % 2 == 1,
    })
}

fn read_timer(input: &mut impl Read) -> io::Result<Timer> {
    let elapsed = read_number(input)?;
    let period = read_number(input)?;
    let phase = read_number(input)?;
    let line = (read_number(input)? % 256) as u8;
    Ok(Timer {
        elapsed,
        period,
        phase,
        line,
    })
}

fn read_call(input: &mut impl Read) -> io::Result<Call> {
    let lines = read_number(input)?;
    let budget = read_number(input)?;
    let registers = read_registers(input)?;
    let timer = read_timer(input)?;
    let reader = read_number(input)?;
    let typewriter = read_number(input)?;
    Ok(Call {
        lines,
        budget,
        control: Record { registers, timer },
        devices: Devices { reader, typewriter },
    })
}

// The outcome of a run and its number.
fn outcome_numbers(answer: Result<Outcome, Refusal>) -> (u32, u32) {
    match answer {
        Err(q) => (0, q.number()),
        Ok(Outcome::Spent) => (1, 0),
        Ok(Outcome::Reset) => (2, 0),
        Ok(Outcome::Interrupted(Kind::Exception)) => (3, 0),
        Ok(Outcome::Interrupted(Kind::Line(n))) => (4, n),
    }
}

fn refusal_number(verdict: Result<(), Refusal>) -> u32 {
    match verdict {
        Ok(()) => 0,
        Err(q) => q.number(),
    }
}

fn flags_of(c: Control) -> u32 {
    u32::from(c.monitor) + 2 * u32::from(c.enabled) + 4 * u32::from(c.reset)
}

// The end of a line: the control record, the device buffer registers, and the checksums of all cells and of the bytes of the typing buffer.
fn print_machine(
    out: &mut impl Write,
    control: Record,
    devices: Devices,
    store: &[u32],
    typing: &[u8],
) -> io::Result<()> {
    let c = control.registers;
    let t = control.timer;
    let flags = flags_of(c);
    write!(
        out,
        "{} {} {} {} {} {} {flags} ",
        c.ic, c.ir, c.im, c.pending, c.pr, c.ex
    )?;
    write!(out, "{} {} {} {} ", t.elapsed, t.period, t.phase, t.line)?;
    write!(out, "{} {} ", devices.reader, devices.typewriter)?;
    let cells = store.iter().fold(0, |h, x| mix(h, *x));
    let bytes = typing.iter().fold(0, |h, x| mix(h, u32::from(*x)));
    writeln!(out, "{cells} {bytes}")
}

fn run_case(out: &mut impl Write, call: Call, lent: Lent<'_>) -> io::Result<()> {
    let Lent {
        store,
        characters,
        typing,
    } = lent;
    let r = rc4000::run(
        store,
        call.control,
        call.lines,
        call.budget,
        call.devices,
        characters,
        typing,
    );
    let (outcome, number) = outcome_numbers(r.answer);
    write!(
        out,
        "{outcome} {number} {} {} {} {} ",
        r.executed, r.entries, r.taken, r.typed
    )?;
    print_machine(out, r.control, r.devices, store, typing)
}

// The reset key or the start key.
fn key_case<F: FnOnce(&mut [u32], Record) -> State>(
    out: &mut impl Write,
    call: Call,
    lent: Lent<'_>,
    press: F,
) -> io::Result<()>
    requires { F.IsAlwaysCallable press }
{
    let Lent { store, typing, .. } = lent;
    let s = press(store, call.control);
    write!(out, "{} ", refusal_number(s.verdict))?;
    print_machine(out, s.control, call.devices, store, typing)
}

fn autoload_case(out: &mut impl Write, call: Call, lent: Lent<'_>) -> io::Result<()> {
    let Lent {
        store,
        characters,
        typing,
    } = lent;
    let a = rc4000::press_autoload(store, call.control, call.devices, characters);
    write!(out, "{} {} ", refusal_number(a.verdict), a.taken)?;
    print_machine(out, a.control, a.devices, store, typing)
}

// The remark's text stands in place of the characters, the output buffer in place of the typing buffer.
fn write_case(out: &mut impl Write, call: Call, lent: Lent<'_>) -> io::Result<()> {
    let Lent {
        store,
        characters,
        typing,
    } = lent;
    let text: &[u8] = characters;
    let remark = (call.lines == 1).then_some(text);
    let (refusal, length) = match rc4000::write(store, call.control, remark, typing) {
        Ok(length) => (0, length),
        Err(q) => (q.number(), 0),
    };
    write!(out, "{refusal} {length} ")?;
    print_machine(out, call.control, call.devices, store, typing)
}

// The refusal and the word, nothing else. The line stands in place of the characters.
fn assemble_case(out: &mut impl Write, lent: Lent<'_>) -> io::Result<()> {
    match rc4000::assemble(lent.characters) {
        Err(q) => writeln!(out, "{} 0", q.number()),
        Ok(w) => writeln!(out, "0 {w}"),
    }
}

// Nothing is written of a case that asks for more than there is room for.
fn one_case(input: &mut impl Read, out: &mut impl Write, buffers: &mut Buffers) -> io::Result<()> {
    let called = Called::from(read_number(input)?);
    let cells = read_number(input)? as usize;
    let call = read_call(input)?;
    let count = read_number(input)? as usize;
    let space = read_number(input)? as usize;
    let Some(store) = buffers.store.get_mut(..cells) else {
        return Ok(());
    };
    let Some(characters) = buffers.characters.get_mut(..count) else {
        return Ok(());
    };
    let Some(typing) = buffers.typing.get_mut(..space) else {
        return Ok(());
    };
    let mut lent = Lent {
        store,
        characters,
        typing,
    };
    lent.read(input)?;
    match called {
        Called::Run => run_case(out, call, lent),
        Called::Reset => key_case(out, call, lent, rc4000::press_reset),
        Called::Start => key_case(out, call, lent, rc4000::press_start),
        Called::Autoload => autoload_case(out, call, lent),
        Called::Write => write_case(out, call, lent),
        Called::Assemble => assemble_case(out, lent),
    }
}

fn main(rt: HostRuntime) -> io::Result<()> {
    let mut input = BufReader::new(rt.alloc(), rt.reader())?;
    let mut out = BufWriter::new(rt.alloc(), io::writer(&rt))?;
    let mut buffers = Buffers {
        store: [0; 64],
        characters: [0; 257],
        typing: [0; 512],
    };
    for _ in 0..read_number(&mut input)? {
        one_case(&mut input, &mut out, &mut buffers)?;
    }
    out.flush()
}
