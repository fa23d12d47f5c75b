// The public calls. None asks anything of its caller; each contract sets the result and all that is lent for all inputs.
#![tactic(auto)]

ghost use Rattle.std.specs.Prelude.{◌≡◌, true, MatchOption, MatchResult};
ghost use Rattle.machine.specs.Answers.{refusal_number};
ghost use Rattle.definition_runs.specs.Timed.{timed_computer};
ghost use Rattle.definition_runs.specs.Lent.{run_result_of, pressed_of, returned, run_lent, key_returned, autoload_lent};
ghost use Rattle.definition_runs.specs.Keys.{pressing_reset, pressing_start};
ghost use Rattle.run_promises.specs.Promises.{KeepsProtected, TouchesNoDevice, Counts};
ghost use Rattle.definition_tape.specs.Load.{loading, overlaying};
ghost use Rattle.definition_tape.specs.Remark.{no_span, remark_span, remark_text, remark_reading, text_read, place_from};
ghost use Rattle.definition_tape.specs.Writing.{remark_lent, written, writing};
ghost use Rattle.definition_assembler.specs.Assembling.{assembling};

use machine::{Autoloaded, Devices, Record, Refusal, Run, State};

// A run with raised lines and a budget of cycles, the device buffer registers, the reader's characters and a buffer for typed bytes.
pub fn run(
    store: &mut [u32],
    control: Record,
    lines: u32,
    budget: u32,
    devices: Devices,
    characters: &[u8],
    typing: &mut [u8],
) -> Run
    ensures exact { returned result store.new typing.new ≡ run_lent lines budget store.old control devices characters.now typing.old }
    ensures isolated { KeepsProtected (timed_computer store.old control) result.answer (timed_computer store.new result.control) }
    ensures untouched { TouchesNoDevice control devices typing.old (returned result store.new typing.new) }
    ensures counts { Counts budget (run_result_of result store.new) }
{
    match acceptance::judge_run(store, control, lines, budget, devices, characters) {
        Ok(()) if lines == 0 => {
            run_loop::run(store, control, budget, devices, characters, typing)
        }
        Ok(()) => run_loop::run_raised(store, control, lines, budget, devices, characters, typing),
        Err(q) => Run {
            control,
            answer: Err(q),
            executed: 0,
            entries: 0,
            devices,
            taken: 0,
            typed: 0,
        },
    }
}

// The reset key.
pub fn press_reset(store: &mut [u32], control: Record) -> State
    ensures { pressed_of result store.new ≡ pressing_reset store.old control }
{
    panel_keys::press_reset(store, control)
}

// The start key.
pub fn press_start(store: &mut [u32], control: Record) -> State
    ensures { pressed_of result store.new ≡ pressing_start store.old control }
{
    panel_keys::press_start(store, control)
}

// The autoload key: in the reset state a word of four characters goes into W0, and is executed next.
pub fn press_autoload(
    store: &mut [u32],
    control: Record,
    devices: Devices,
    characters: &[u8],
) -> Autoloaded
    ensures { key_returned result store.new ≡ autoload_lent store.old control devices characters.now }
{
    panel_keys::press_autoload(store, control, devices, characters)
}

// Loads a tape: cells that no block names are cleared. The control record handed back is the tape's, or on a refusal the given one.
pub fn load(store: &mut [u32], control: Record, tape: &[u8]) -> State
    ensures state { result ≡ (loading tape.now store.old control).state }
    ensures cells { store.new ≡ (loading tape.now store.old control).cells }
{
    tape_load::load(store, control, tape)
}

// Lays a tape over what the store holds: cells that no block names are kept. Nothing else differs from a load.
pub fn overlay(store: &mut [u32], control: Record, tape: &[u8]) -> State
    ensures state { result ≡ (overlaying tape.now store.old control).state }
    ensures cells { store.new ≡ (overlaying tape.now store.old control).cells }
{
    tape_load::overlay(store, control, tape)
}

// The first remark's text as a part of the tape, where the tape loads into that many cells.
pub fn remark<'a>(tape: &'a [u8], cells: usize) -> Result<Option<&'a [u8]>, Refusal>
    ensures reading { text_read result ≡ remark_reading tape.now cells }
    ensures place { MatchResult result (λ o. MatchOption o (remark_span tape.now cells ≡ no_span 0) (λ x. (x.now ≡ remark_text tape.now cells) × (x.ref_ptr ≡ place_from tape.entry.ref_ptr (remark_span tape.now cells).start) × ((remark_span tape.now cells).found ≡ true))) (λ q. remark_span tape.now cells ≡ no_span (refusal_number q)) }
{
    tape_remark::remark(tape, cells)
}

// Writes the tape of a machine into a buffer, with its remark where there is one; the answer is the tape's length. On a refusal no byte changes.
pub fn write(
    store: &[u32],
    control: Record,
    remark: Option<&[u8]>,
    tape: &mut [u8],
) -> Result<usize, Refusal>
    ensures answer { written result ≡ (writing store.now control (remark_lent remark.entry) tape.old).answer }
    ensures bytes { tape.new ≡ (writing store.now control (remark_lent remark.entry) tape.old).bytes }
{
    tape_write::write(store, control, remark, tape)
}

// The word of a line of the assembler, or its refusal.
pub fn assemble(line: &[u8]) -> Result<u32, Refusal>
    ensures { result ≡ assembling line.now }
{
    assembler::assemble(line)
}
