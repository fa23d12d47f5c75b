// The assembler: a mnemonic, a dot if relative, a register, an index, an address; the last two in square brackets if indirect. Each part is read from
// the front of a text and given with the text after it, or none where the text is outside the grammar.
#![tactic(auto)]

ghost use Rattle.std.specs.Prelude.{◌≡◌, ◌<◌};
ghost use Rattle.std.specs.List.{position};
ghost use Rattle.definition_assembler.specs.Line.{fields, word_of};
ghost use Rattle.definition_assembler.specs.Head.{code_of};
ghost use Rattle.definition_assembler.specs.Assembling.{ended, assembling};
ghost use Rattle.address_expression.specs.Values.{reading};
ghost use Rattle.assembler.specs.Steps.{has_letters, assigned, mark, mark_of, register_of, index_from, head_of};

use machine::Refusal;

const LONGEST: usize = 255;

// The letters of the codes, in the order of the codes.
static LETTERS: [[u8; 2]; 58] = [
    *b"AW", *b"IO", *b"BL", *b"HL", *b"LA", *b"LO", *b"LX", *b"WA", *b"WS", *b"AM", *b"WM", *b"AL",
    *b"ML", *b"JL", *b"JD", *b"JE", *b"XL", *b"BS", *b"BA", *b"BZ", *b"RL", *b"SP", *b"KL", *b"RS",
    *b"WD", *b"RX", *b"HS", *b"XS", *b"PL", *b"PS", *b"MS", *b"IS", *b"CI", *b"AC", *b"NS", *b"ND",
    *b"AS", *b"AD", *b"LS", *b"LD", *b"SH", *b"SL", *b"SE", *b"SN", *b"SO", *b"SZ", *b"SX", *b"IC",
    *b"FA", *b"FS", *b"FM", *b"KS", *b"FD", *b"CF", *b"DL", *b"DS", *b"AA", *b"SS",
];

// What stands before an address.
#[derive(Clone, Copy)]
pub struct Head {
    pub code: u32,
    pub w: u32,
    pub relative: bool,
    pub indirect: bool,
    pub x: u32,
}

fn place_of(table: &[[u8; 2]], a: u8, b: u8) -> Option<usize>
    ensures { result ≡ position (has_letters a b) table.now }
{
    table
        .iter()
        .position(|letters| letters[0] == a && letters[1] == b)
}

fn code_of(a: u8, b: u8) -> Option<u32>
    ensures { result ≡ assigned (code_of a b) }
{
    let code = place_of(&LETTERS, a, b)?;
    Some(code as u32)
}

// Whether the byte stands in front.
fn past_byte(text: &[u8], byte: u8) -> (bool, &[u8])
    requires { 0 < byte }
    ensures { mark result ≡ mark_of byte text.now }
{
    match text {
        [first, rest @ ..] if *first == byte => (true, rest),
        _ => (false, text),
    }
}

// A space, W, a register, a space.
fn register(text: &[u8]) -> Option<(u32, &[u8])>
    ensures { reading result ≡ register_of text.now }
{
    match text {
        [b' ', b'W', w @ b'0'..=b'3', b' ', rest @ ..] => Some((u32::from(w - b'0'), rest)),
        _ => None,
    }
}

// X, an index, a comma; or no X.
fn index(text: &[u8]) -> Option<(u32, &[u8])>
    ensures { reading result ≡ index_from text.now }
{
    match text {
        [b'X', x @ b'1'..=b'3', b',', rest @ ..] => Some((u32::from(x - b'0'), rest)),
        [b'X', ..] => None,
        _ => Some((0, text)),
    }
}

fn read_head(text: &[u8]) -> Option<(Head, &[u8])>
    ensures { reading result ≡ head_of text.now }
{
    let [a, b, rest @ ..] = text else {
        return None;
    };
    let code = code_of(*a, *b)?;
    let (relative, rest) = past_byte(rest, b'.');
    let (w, rest) = register(rest)?;
    let (indirect, rest) = past_byte(rest, b'[');
    let (x, rest) = index(rest)?;
    let head = Head {
        code,
        w,
        relative,
        indirect,
        x,
    };
    Some((head, rest))
}

// What stands after an address: the closing bracket, if one was opened, and the end of the text.
fn ends(text: &[u8], indirect: bool) -> bool
    ensures { result ≡ ended text.now indirect 0 }
{
    match text {
        [] => !indirect,
        [b']'] => indirect,
        _ => false,
    }
}

fn word_of(h: Head, d: u32) -> u32
    requires { (h.code < 64) × (h.w < 4) × (h.x < 4) × (d < 4096) }
    ensures { result ≡ word_of (fields h.code h.w h.relative h.indirect h.x d) }
{
    let m = 2 * u32::from(h.relative) + u32::from(h.indirect);
    h.code * 262144 + h.w * 65536 + m * 16384 + h.x * 4096 + d
}

// The word of a line, or its refusal: 19 outside the grammar or over 255 characters, 20 too deep, 21 a value out of range.
pub fn assemble(text: &[u8]) -> Result<u32, Refusal>
    ensures { result ≡ assembling text.now }
{
    if LONGEST < text.len() {
        return Err(Refusal::LineGrammar);
    }
    let (head, rest) = read_head(text).ok_or(Refusal::LineGrammar)?;
    let (address, rest) = address_expression::address(rest).ok_or(Refusal::LineGrammar)?;
    if !ends(rest, head.indirect) {
        return Err(Refusal::LineGrammar);
    }
    Ok(word_of(head, address?))
}
