// The line to be taken and the entry of an interruption (14.5).
#![tactic(auto, unfolding(definition_runs::specs::Cycle::bit_from_left, definition_runs::specs::Cycle::requested, definition_runs::specs::Cycle::first_request, definition_runs::specs::Cycle::line_of, definition_runs::specs::Cycle::looks_at_lines, definition_runs::specs::Cycle::bit_alone, definition_runs::specs::Cycle::line_cleared, definition_runs::specs::Cycle::enter, definition_runs::specs::Cycle::entry_control))]

ghost use Rattle.std.specs.Prelude.{◌≡◌, ◌<◌, ◌≤◌, MatchOption};
ghost use Rattle.definition_instructions.specs.Machine.{computer};
ghost use Rattle.definition_runs.specs.Cycle.{bit_from_left, requested, first_request, line_of, bit_alone, line_cleared, enter};

use control_row::Row;
use machine::Control;

fn bit_from_left(x: u32, p: u32) -> u32
    requires { p < 24 }
    ensures { result ≡ bit_from_left x p }
{
    (x >> (23 - p)) % 2
}

fn is_requested(ir: u32, im: u32, p: u32) -> bool
    requires { p < 24 }
    ensures { result ≡ requested ir im p }
{
    bit_from_left(ir, p) == 1 && bit_from_left(im, p) == 1
}

// The left-most line that is requested.
fn first_request(ir: u32, im: u32) -> Option<u32>
    ensures { MatchOption result (first_request 24 0 ir im ≡ 24) (λ p. (p < 24) × (first_request 24 0 ir im ≡ p)) }
{
    for p in 0..24 {
        if is_requested(ir, im, p) {
            return Some(p);
        }
    }
    None
}

// The line to be taken. The positions are looked through only where some line is requested.
pub fn line_of(k: &Row) -> Option<u32>
    ensures { MatchOption result (line_of k.now ≡ 24) (λ p. (p < 24) × (line_of k.now ≡ p)) }
{
    if !k.is_enabled() {
        return None;
    }
    let ir = k.ir();
    let im = k.im();
    if ir & im == 0 {
        return None;
    }
    if k.pending() != 0 {
        return None;
    }
    first_request(ir, im)
}

fn bit_alone(x: u32, p: u32) -> u32
    requires { p < 24 }
    ensures value { result ≡ bit_alone x p }
    ensures bound { result ≤ x }
{
    (x >> (23 - p)) % 2 << (23 - p)
}

pub fn clear_line(k: &mut Row, p: u32)
    requires { p < 24 }
    ensures { k.new ≡ line_cleared k.old p }
{
    let x = k.ir();
    k.set_ir(x - bit_alone(x, p));
}

// An interruption is entered with its number.
pub fn enter(s: &mut [u32], n: u32, k: &mut Row)
    ensures { computer s.new k.new ≡ enter n s.old k.old }
{
    machine::put_word(s, Control::INTERRUPT_NUMBER / 2, n);
    machine::put_word(s, Control::RETURN_ADDRESS / 2, k.ic());
    let a = machine::word_at(s, Control::INTERRUPTION_PROGRAM / 2);
    k.set_ic(a / 2 * 2);
    k.set_pending(0);
    k.set_monitor(true);
    k.set_enabled(false);
}
