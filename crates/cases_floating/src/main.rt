// Runs FA, FS, FM, FD, CI and CF over edge operands and drawn ones. One line for each: name, number of cases, checksum of the results.
// tools/models/floating.py makes the expected output.
#![tactic(auto)]

use case::Case;
use cases_common::{Generator, mix};
use floating::Converted;
use rounding::Pair;
use std::io;

mod case;

const DRAWN: u32 = 12000;

fn mix_pair(h: u32, p: Pair) -> u32 {
    let h = mix(h, (p.pre % 4294967296) as u32);
    mix(mix(h, (p.word % 4294967296) as u32), p.over)
}

fn mix_converted(h: u32, c: Converted) -> u32 {
    mix(mix(h, (c.word % 4294967296) as u32), c.over)
}

// The checksum h with the result of each drawn case: `mixed` takes the checksum so far, the number of the case and the case.
fn drawn<F: Fn(u32, u32, Case) -> u32>(seed: u32, start: u32, mixed: F) -> u32
    requires { F.IsAlwaysCallable mixed }
{
    let mut generator = Generator { last: seed };
    let mut h = start;
    for i in 0..DRAWN {
        h = mixed(h, i, Case::drawn(&mut generator, i));
    }
    h
}

// The checksum of an operation on double words.
fn pairs<F: Fn(Case) -> Pair>(seed: u32, operation: F) -> u32
    requires { F.IsAlwaysCallable operation }
{
    let edges = (0..28800).fold(0, |h, n| mix_pair(h, operation(Case::edge_pair(n))));
    drawn(seed, edges, |h, _, c| mix_pair(h, operation(c)))
}

fn integers() -> u32 {
    let edges = (0..288).fold(0, |h, n| {
        let c = Case::edge_integer(n);
        mix_pair(h, rounding::convert_integer(c.pre, c.first))
    });
    drawn(5, edges, |h, i, c| {
        mix_pair(h, rounding::convert_integer(c.pre, c.scale(i)))
    })
}

fn fractions() -> u32 {
    let edges = (0..2880).fold(0, |h, n| {
        let c = Case::edge_fraction(n);
        mix_converted(h, floating::convert_floating(c.pre, c.word, c.first))
    });
    drawn(6, edges, |h, i, c| {
        mix_converted(h, floating::convert_floating(c.pre, c.word, c.address(i)))
    })
}

// A line is written as soon as it is worked out.
fn write_line(rt: &impl Print, name: &str, cases: u32, h: u32) -> io::Result<()> {
    println!(rt; "{name} {cases} {h}")
}

fn main(rt: HostRuntime) -> io::Result<()> {
    let fa = pairs(1, |c| floating::add(c.ex, c.pre, c.word, c.first, c.second));
    write_line(&rt, "FA", 40800, fa)?;
    let fs = pairs(2, |c| {
        floating::subtract(c.ex, c.pre, c.word, c.first, c.second)
    });
    write_line(&rt, "FS", 40800, fs)?;
    let fm = pairs(3, |c| {
        floating::multiply(c.ex, c.pre, c.word, c.first, c.second)
    });
    write_line(&rt, "FM", 40800, fm)?;
    let fd = pairs(4, |c| {
        floating::divide(c.ex, c.pre, c.word, c.first, c.second)
    });
    write_line(&rt, "FD", 40800, fd)?;
    write_line(&rt, "CI", 12288, integers())?;
    write_line(&rt, "CF", 14880, fractions())
}
