// The C calls (host/include/rc4000.h): the public calls, with the records of `capi_records` in and out, where refusals, flags and `given` are numbers (C interface). The control record's flag bytes are tested first, save by a load and an overlay.
#![tactic(auto)]

ghost use Rattle.std.specs.Prelude.{◌≡◌};
ghost use Rattle.definition_tape.specs.Remark.{remark_span};
ghost use Rattle.capi_records.specs.Results.{returned, run_returned, run_call, reset_call, start_call, autoload_call, load_call, overlay_call, text_of, write_returned, write_call, assemble_call};

use capi_records::{
    AssembleResult, AutoloadResult, CallResult, ControlRecord, StateResult, TextResult, WriteResult,
};
use machine::{Devices, Record};

#[unsafe(no_mangle)]
#[tactic(auto, unfolding(capi_records::specs::Results::run_call))]
pub extern "C" fn rc4000_run(
    store: &mut [u32],
    control: ControlRecord,
    lines: u32,
    budget: u32,
    devices: Devices,
    characters: &[u8],
    typing: &mut [u8],
) -> CallResult
    ensures { run_returned result store.new typing.new ≡ run_call lines budget store.old control devices characters.now typing.old }
{
    match capi_records::judge_flags(store, control) {
        Ok(()) => {
            let c = Record::from(control);
            let x = rc4000::run(store, c, lines, budget, devices, characters, typing);
            capi_records::run_result(x, control, devices)
        }
        Err(q) => capi_records::refused_run(q, control, devices),
    }
}

#[unsafe(no_mangle)]
#[tactic(auto, unfolding(capi_records::specs::Results::reset_call))]
pub extern "C" fn rc4000_press_reset(store: &mut [u32], control: ControlRecord) -> StateResult
    ensures { returned result store.new ≡ reset_call store.old control }
{
    match capi_records::judge_flags(store, control) {
        Ok(()) => {
            let c = Record::from(control);
            let x = rc4000::press_reset(store, c);
            capi_records::state_result(x, control)
        }
        Err(q) => capi_records::refused_state(q, control),
    }
}

#[unsafe(no_mangle)]
#[tactic(auto, unfolding(capi_records::specs::Results::start_call))]
pub extern "C" fn rc4000_press_start(store: &mut [u32], control: ControlRecord) -> StateResult
    ensures { returned result store.new ≡ start_call store.old control }
{
    match capi_records::judge_flags(store, control) {
        Ok(()) => {
            let c = Record::from(control);
            let x = rc4000::press_start(store, c);
            capi_records::state_result(x, control)
        }
        Err(q) => capi_records::refused_state(q, control),
    }
}

#[unsafe(no_mangle)]
#[tactic(auto, unfolding(capi_records::specs::Results::autoload_call))]
pub extern "C" fn rc4000_press_autoload(
    store: &mut [u32],
    control: ControlRecord,
    devices: Devices,
    characters: &[u8],
) -> AutoloadResult
    ensures { returned result store.new ≡ autoload_call store.old control devices characters.now }
{
    match capi_records::judge_flags(store, control) {
        Ok(()) => {
            let c = Record::from(control);
            let x = rc4000::press_autoload(store, c, devices, characters);
            capi_records::autoload_result(x, control, devices)
        }
        Err(q) => capi_records::refused_autoload(q, control, devices),
    }
}

#[unsafe(no_mangle)]
#[tactic(auto, unfolding(capi_records::specs::Results::load_call))]
pub extern "C" fn rc4000_load(store: &mut [u32], control: ControlRecord, tape: &[u8]) -> StateResult
    ensures { returned result store.new ≡ load_call tape.now store.old control }
{
    let c = Record::from(control);
    let x = rc4000::load(store, c, tape);
    capi_records::state_result(x, control)
}

#[unsafe(no_mangle)]
#[tactic(auto, unfolding(capi_records::specs::Results::overlay_call))]
pub extern "C" fn rc4000_overlay(
    store: &mut [u32],
    control: ControlRecord,
    tape: &[u8],
) -> StateResult
    ensures { returned result store.new ≡ overlay_call tape.now store.old control }
{
    let c = Record::from(control);
    let x = rc4000::overlay(store, c, tape);
    capi_records::state_result(x, control)
}

#[unsafe(no_mangle)]
#[tactic(auto, unfolding(capi_records::specs::Results::text_of))]
pub extern "C" fn rc4000_remark(tape: &[u8], cells: usize) -> TextResult
    ensures { result ≡ text_of (remark_span tape.now cells) }
{
    match tape_remark::remark_span(tape, cells) {
        Ok(Some(span)) => TextResult {
            refusal: 0,
            found: true,
            start: span.start,
            end: span.end,
        },
        Ok(None) => TextResult {
            refusal: 0,
            found: false,
            start: 0,
            end: 0,
        },
        Err(q) => TextResult {
            refusal: q.number(),
            found: false,
            start: 0,
            end: 0,
        },
    }
}

#[unsafe(no_mangle)]
#[tactic(auto, unfolding(capi_records::specs::Results::write_call))]
pub extern "C" fn rc4000_write(
    store: &[u32],
    control: ControlRecord,
    given: u8,
    text: &[u8],
    tape: &mut [u8],
) -> WriteResult
    ensures { write_returned result tape.new ≡ write_call store.now control given text.now tape.old }
{
    match capi_records::judge_flags(store, control) {
        Ok(()) => {
            let c = Record::from(control);
            let x = rc4000::write(store, c, (given != 0).then_some(text), tape);
            capi_records::write_result(x)
        }
        Err(q) => capi_records::refused_write(q),
    }
}

#[unsafe(no_mangle)]
#[tactic(auto, unfolding(capi_records::specs::Results::assemble_call))]
pub extern "C" fn rc4000_assemble(line: &[u8]) -> AssembleResult
    ensures { result ≡ assemble_call line.now }
{
    let x = rc4000::assemble(line);
    capi_records::assemble_result(x)
}
