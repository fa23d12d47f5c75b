// Addresses of the assembler: numbers, +, -, * and round parentheses, read by three functions that call one another in a cycle. Each reads from the
// front of a text and gives what it read with the text after it, or none where the text is outside the grammar.
#![tactic(auto)]

ghost use Rattle.std.specs.Prelude.{◌≡◌, ◌≤◌, pos, negsuc, ◌≤ℤ◌};
ghost use Rattle.definition_assembler.specs.Line.{displacement, address_of};
ghost use Rattle.definition_assembler.specs.Reader.{digits, sum_at, product_at, primary_at, Nothing, parse, combined, number_at};
ghost use Rattle.definition_assembler.specs.Assembling.{evaluation};
ghost use Rattle.address_expression.specs.Values.{kept, kept_of, operation, group_of, values, left_of, operator_of, reading, reading_of, with_digit, evaluated_of, found_of};

use machine::Refusal;

// Every value in an address lies between these.
const LEAST: i64 = -8388608;

const GREATEST: i64 = 8388607;

// The last value lies between these.
const LEAST_DISPLACEMENT: i32 = -2048;

const GREATEST_DISPLACEMENT: i32 = 2047;

// Round parentheses open at one time.
const MOST_OPEN: u32 = 16;

// The value of an address, none where it or a value within it is out of range; the depth of the parentheses, 17 for every depth over 16.
#[derive(Clone, Copy)]
pub struct Value {
    pub number: Option<i32>,
    pub depth: u32,
}

#[derive(Clone, Copy)]
pub enum Operator {
    Plus,
    Minus,
    Times,
}

fn in_range(z: i64) -> Option<i32>
    ensures { result ≡ kept z }
{
    if LEAST <= z && z <= GREATEST {
        Some(z as i32)
    } else {
        None
    }
}

impl Operator {
    fn apply(self, x: i32, y: i32) -> i64
        ensures { result ≡ operation self x y }
    {
        let (x, y) = (i64::from(x), i64::from(y));
        match self {
            Operator::Plus => x + y,
            Operator::Minus => x - y,
            Operator::Times => x * y,
        }
    }
}

fn calculate(x: Option<i32>, operator: Operator, y: Option<i32>) -> Option<i32>
    ensures { result ≡ kept_of (operation operator) x y }
{
    in_range(operator.apply(x?, y?))
}

fn combine(x: Value, operator: Operator, y: Value) -> Value
    ensures { result ≡ combined values (left_of operator x) y }
{
    Value {
        number: calculate(x.number, operator, y.number),
        depth: x.depth.max(y.depth),
    }
}

fn enclose(x: Value) -> Value
    ensures { result ≡ group_of x }
{
    Value {
        number: x.number,
        depth: if x.depth < 17 { x.depth + 1 } else { x.depth },
    }
}

// One digit more. A number out of range is left as it is.
fn with_digit(n: u32, b: u8) -> u32
    requires { 48 ≤ b }
    ensures { result ≡ with_digit n b }
{
    if n < 8388608 {
        10 * n + u32::from(b - b'0')
    } else {
        n
    }
}

fn number(text: &[u8]) -> Option<(Value, &[u8])>
    ensures { reading result ≡ reading_of text.now (number_at values (digits text.now) 0) }
{
    let [b'0'..=b'9', ..] = text else {
        return None;
    };
    let mut n = 0;
    let mut rest = text;
    while let [b @ b'0'..=b'9', after @ ..] = rest {
        n = with_digit(n, *b);
        rest = after;
    }
    let number = in_range(i64::from(n));
    Some((Value { number, depth: 0 }, rest))
}

fn sum_operator(text: &[u8]) -> Option<(Operator, &[u8])>
    ensures { reading result ≡ operator_of text.now }
{
    match text {
        [b'+', after @ ..] => Some((Operator::Plus, after)),
        [b'-', after @ ..] => Some((Operator::Minus, after)),
        _ => None,
    }
}

#[cycle(primary_product_sum)]
fn sum(text: &[u8]) -> Option<(Value, &[u8])>
    ensures { reading result ≡ reading_of text.now (parse values text.now (sum_at 0 Nothing)) }
{
    let (mut value, mut rest) = product(text)?;
    while let Some((operator, after)) = sum_operator(rest) {
        let (right, after) = product(after)?;
        value = combine(value, operator, right);
        rest = after;
    }
    Some((value, rest))
}

#[cycle(primary_product_sum)]
fn product(text: &[u8]) -> Option<(Value, &[u8])>
    ensures { reading result ≡ reading_of text.now (parse values text.now (product_at 0 Nothing)) }
{
    let (mut value, mut rest) = primary(text)?;
    while let [b'*', after @ ..] = rest {
        let (right, after) = primary(after)?;
        value = combine(value, Operator::Times, right);
        rest = after;
    }
    Some((value, rest))
}

// A number, or a sum in parentheses.
#[cycle(primary_product_sum)]
fn primary(text: &[u8]) -> Option<(Value, &[u8])>
    ensures { reading result ≡ reading_of text.now (parse values text.now (primary_at 0)) }
{
    let [b'(', after @ ..] = text else {
        return number(text);
    };
    let (x, rest) = sum(after)?;
    match rest {
        [b')', rest @ ..] => Some((enclose(x), rest)),
        _ => None,
    }
}

// D, for a last value in range.
fn displacement(z: i32) -> u32
    requires low { negsuc 2047 ≤ℤ z }
    requires high { z ≤ℤ pos 2047 }
    ensures { result ≡ displacement z }
{
    if z < 0 { (z + 4096) as u32 } else { z as u32 }
}

fn judge(x: Value) -> Result<u32, Refusal>
    ensures { result ≡ address_of (evaluated_of x) }
{
    if MOST_OPEN < x.depth {
        return Err(Refusal::LineDepth);
    }
    match x.number {
        Some(z) if LEAST_DISPLACEMENT <= z && z <= GREATEST_DISPLACEMENT => Ok(displacement(z)),
        _ => Err(Refusal::LineValue),
    }
}

// The address in front of a text, and the text after it.
pub fn address(text: &[u8]) -> Option<(Result<u32, Refusal>, &[u8])>
    ensures { reading result ≡ found_of text.now (parse evaluation text.now (sum_at 0 Nothing)) }
{
    let (x, rest) = sum(text)?;
    Some((judge(x), rest))
}
