// Runs the integer operations on edge operands, taken with each other, and on 10,000 random ones each. One line for each operation: its
// name, the number of cases, and a checksum of every field of every result. tools/models/integer.py writes the lines that are expected.
#![tactic(auto)]

use cases_common::Generator;
use operands::Operands;
use operation::Operation;
use std::io;

mod operands;
mod operation;

fn edges(op: Operation) -> u32 {
    (0..2197).fold(0, |h, i| {
        op.mix_result(h, Operands::edge(i, op.shifts()))
    })
}

fn random(op: Operation, start: u32) -> u32 {
    let mut h = start;
    let mut generator = Generator { last: op as u32 };
    for i in 0..10000 {
        let drawn = Operands {
            pre: generator.draw_word(),
            w: generator.draw_word(),
            sb: generator.draw_word(),
        };
        h = op.mix_result(h, drawn.drawn(i, op.shifts()));
    }
    h
}

fn write_line(rt: &impl Print, op: Operation) -> io::Result<()> {
    let h = random(op, edges(op));
    println!(rt; "{op:?} 12197 {h}")
}

fn main(rt: HostRuntime) -> io::Result<()> {
    for op in Operation::ALL {
        write_line(&rt, op)?;
    }
    Ok(())
}
