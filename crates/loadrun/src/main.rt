// loadrun: a tape on standard input into 4,096 cells of zero, then 100 cycles with no lines; one line of output (document 01).
#![tactic(auto)]

use machine::{Devices, Outcome, Record, Refusal, Run};
use std::io;

// The run of the machine that the tape loads, with no characters and no typing space lent, and how it ended.
fn load_and_run(store: &mut [u32], tape: &[u8]) -> Result<(Outcome, Run), Refusal> {
    let devices = Devices {
        reader: 0,
        typewriter: 0,
    };
    let loaded = rc4000::load(store, Record::fresh(), tape);
    loaded.verdict?;
    let run = rc4000::run(store, loaded.control, 0, 100, devices, &[], &mut []);
    Ok((run.answer?, run))
}

fn name(outcome: Outcome) -> &'static str {
    match outcome {
        Outcome::Reset => "reset",
        Outcome::Interrupted(_) => "interrupted",
        Outcome::Spent => "spent",
    }
}

fn main(rt: HostRuntime) -> io::Result<()> {
    // One byte more than a tape may have, so that a longer one is seen to be too long.
    let mut tape = [0; 65537];
    let n = reading::read_full(&mut rt.reader(), &mut tape)?;
    let mut store = [0; 4096];
    match load_and_run(&mut store, &tape[..n]) {
        Err(q) => println!(rt; "refused {}", q.number()),
        Ok((outcome, run)) => {
            let ic = run.control.registers.ic;
            println!(rt; "{} {} {} {ic}", name(outcome), run.executed, run.entries)
        }
    }
}
