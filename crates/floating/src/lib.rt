// Floating-point instructions: words of 24 bits in, words and flags out.
#![tactic(auto)]

ghost use Rattle.std.specs.Prelude.{◌≡◌, ◌^◌, ◌<◌};
ghost use Rattle.floating.specs.Operands.{fetch_floating};
ghost use Rattle.floating.specs.Add.{fa, fs};
ghost use Rattle.floating.specs.Multiply.{fm};
ghost use Rattle.floating.specs.Divide.{fd};
ghost use Rattle.floating.specs.Convert.{cf, fraction_shifts};

use registers::Register;
use rounding::Pair;

mod addition;
mod conversion;
mod division;
mod multiplication;

// What Fetch Floating Operands leaves: the fractions in AF and SF, and the exponents.
#[derive(Clone, Copy)]
pub struct Operands {
    pub af: Register<39>,
    pub sf: Register<38>,
    pub wexp: Register<12>,
    pub sbexp: Register<12>,
}

// W of CF, and 1 where EX(22) and IR(1) are set: the record of the definition `cf` has the kept W too, so this is no Option.
#[derive(Clone, Copy)]
pub struct Converted {
    pub word: u64,
    pub over: u32,
}

// Fetch Floating Operands.
#[tactic(auto, unfolding(crate::specs::Operands::fetch_floating))]
fn fetch(pre: u32, word: u32, first: u32, second: u32) -> Operands
    requires { (pre < 2 ^ 24) × (word < 2 ^ 24) × (first < 2 ^ 24) × (second < 2 ^ 24) }
    ensures { result ≡ fetch_floating pre word first second }
{
    Operands {
        af: conversion::register_fraction(pre, word),
        sf: conversion::fraction(first, second).at_left(),
        wexp: Register::new(u64::from(word % 4096)),
        sbexp: Register::new(u64::from(second % 4096)),
    }
}

// FA: EX, of which only EX(21) is looked at, Wpre, W, the storage double word.
#[tactic(auto, unfolding(crate::specs::Add::fa))]
pub fn add(ex: u32, pre: u32, word: u32, first: u32, second: u32) -> Pair
    requires { (pre < 2 ^ 24) × (word < 2 ^ 24) × (first < 2 ^ 24) × (second < 2 ^ 24) }
    ensures { result ≡ fa ex pre word first second }
{
    addition::add_floating::<true>(ex, fetch(pre, word, first, second))
}

// FS.
#[tactic(auto, unfolding(crate::specs::Add::fs))]
pub fn subtract(ex: u32, pre: u32, word: u32, first: u32, second: u32) -> Pair
    requires { (pre < 2 ^ 24) × (word < 2 ^ 24) × (first < 2 ^ 24) × (second < 2 ^ 24) }
    ensures { result ≡ fs ex pre word first second }
{
    addition::add_floating::<false>(ex, fetch(pre, word, first, second))
}

// FM.
#[tactic(auto, unfolding(crate::specs::Multiply::fm))]
pub fn multiply(ex: u32, pre: u32, word: u32, first: u32, second: u32) -> Pair
    requires { (pre < 2 ^ 24) × (word < 2 ^ 24) × (first < 2 ^ 24) × (second < 2 ^ 24) }
    ensures { result ≡ fm ex pre word first second }
{
    multiplication::multiply_floating(ex, fetch(pre, word, first, second))
}

// FD.
#[tactic(auto, unfolding(crate::specs::Divide::fd))]
pub fn divide(ex: u32, pre: u32, word: u32, first: u32, second: u32) -> Pair
    requires { (pre < 2 ^ 24) × (word < 2 ^ 24) × (first < 2 ^ 24) × (second < 2 ^ 24) }
    ensures { result ≡ fd ex pre word first second }
{
    division::divide_floating(ex, pre, word, fetch(pre, word, first, second))
}

// CF: Wpre, W, the effective address.
pub fn convert_floating(pre: u32, word: u32, sb: u32) -> Converted
    requires { (pre < 2 ^ 24) × (word < 2 ^ 24) × (sb < 2 ^ 24) }
    ensures { result ≡ cf pre word sb }
{
    conversion::convert(pre, word, sb)
}

// The single shifts that CF makes.
pub fn fraction_shifts(word: u32, sb: u32) -> u32
    requires { (word < 2 ^ 24) × (sb < 2 ^ 24) }
    ensures { (result ≡ fraction_shifts word sb) × (result < 64) }
{
    conversion::shifts(word, sb)
}
