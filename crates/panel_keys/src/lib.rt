// The reset, start and autoload keys (14.4), with their refusals. They take no time.
#![tactic(auto)]

ghost use Rattle.std.specs.Prelude.{◌≡◌, true, ◌<◌, []};
ghost use Rattle.registers.specs.Reg.{word_range};
ghost use Rattle.machine.specs.Verdicts.{Accepted};
ghost use Rattle.acceptance.specs.Accept.{judge_registers};
ghost use Rattle.definition_instructions.specs.Machine.{computer};
ghost use Rattle.definition_instructions.specs.Channel.{four_left};
ghost use Rattle.definition_runs.specs.Lent.{pressed_of, machine_lent, key_returned, key_handed_back, autoload_lent};
ghost use Rattle.definition_runs.specs.Keys.{reset_key, start_control, start_key, pressing_reset, pressing_start, autoload_control};
ghost use Rattle.panel_keys.specs.Key.{autoloaded, autoload_pressed};

use channel_row::Channel;
use control_row::Row;
use machine::{Autoloaded, Control, Devices, Record, State};

// Reset System, outside the reset state.
#[tactic(auto, unfolding(definition_runs::specs::Keys::reset_key, definition_instructions::specs::Machine::reset_system))]
fn reset_key(store: &mut [u32], c: Control) -> Control
    ensures { computer store.new result ≡ reset_key store.old c }
{
    if c.reset {
        return c;
    }
    machine::put_word(store, Control::RETURN_ADDRESS / 2, c.ic);
    c.in_reset()
}

// The reset key.
#[tactic(auto, unfolding(definition_runs::specs::Keys::pressing_reset))]
pub fn press_reset(store: &mut [u32], control: Record) -> State
    ensures { pressed_of result store.new ≡ pressing_reset store.old control }
{
    match acceptance::judge_machine(store, control) {
        Ok(()) => State {
            control: Record {
                registers: reset_key(store, control.registers),
                ..control
            },
            verdict: Ok(()),
        },
        Err(q) => State {
            control,
            verdict: Err(q),
        },
    }
}

#[tactic(auto, unfolding(definition_runs::specs::Keys::start_control))]
fn start_record(c: Control, a: u32) -> Control
    ensures { result ≡ start_control c a }
{
    Control {
        ic: a / 2 * 2,
        reset: false,
        ..c
    }
}

#[tactic(auto, unfolding(definition_runs::specs::Keys::start_key))]
fn start_key(store: &mut [u32], c: Control) -> Control
    ensures { computer store.new result ≡ start_key store.old c }
{
    if c.reset {
        let a = machine::word_at(store, Control::START_ADDRESS / 2);
        return start_record(c, a);
    }
    c
}

// The start key.
#[tactic(auto, unfolding(definition_runs::specs::Keys::pressing_start))]
pub fn press_start(store: &mut [u32], control: Record) -> State
    ensures { pressed_of result store.new ≡ pressing_start store.old control }
{
    match acceptance::judge_machine(store, control) {
        Ok(()) => State {
            control: Record {
                registers: start_key(store, control.registers),
                ..control
            },
            verdict: Ok(()),
        },
        Err(q) => State {
            control,
            verdict: Err(q),
        },
    }
}

// The control registers with which Autoload Word is begun: IC := 0, and the reset state is left.
#[tactic(auto, unfolding(definition_runs::specs::Keys::autoload_control))]
fn autoload_record(c: Control) -> Control
    ensures { result ≡ autoload_control c }
{
    Control {
        ic: 0,
        reset: false,
        ..c
    }
}

// IC := SB := 0; goto Autoload Word.
fn autoload(store: &mut [u32], r: Record, devices: Devices, characters: &[u8]) -> Autoloaded
    requires { (judge_registers store.old r.registers ≡ Accepted) × (devices.reader < word_range) × (devices.typewriter < word_range) × (four_left characters.now ≡ true) }
    ensures { key_returned result store.new ≡ key_handed_back characters.now (autoloaded (machine_lent store.old r devices characters.now [])) }
{
    let t = r.timer;
    let mut k = Row::of(autoload_record(r.registers));
    let mut h = Channel::new(devices, characters, &mut []);
    let e = device_instructions::autoload(store, &mut k, &mut h, 0);
    Autoloaded {
        control: Record {
            registers: k.control(),
            timer: t,
        },
        verdict: Ok(()),
        devices: h.devices(),
        taken: characters.len().saturating_sub(h.left()),
    }
}

fn autoload_key(store: &mut [u32], r: Record, devices: Devices, characters: &[u8]) -> Autoloaded
    requires { (judge_registers store.old r.registers ≡ Accepted) × (devices.reader < word_range) × (devices.typewriter < word_range) }
    ensures { key_returned result store.new ≡ key_handed_back characters.now (autoload_pressed (machine_lent store.old r devices characters.now [])) }
{
    if r.registers.reset && characters.len() >= 4 {
        return autoload(store, r, devices, characters);
    }
    Autoloaded {
        control: r,
        verdict: Ok(()),
        devices,
        taken: 0,
    }
}

// The autoload key: in the reset state a word of four characters goes into W0, and is executed next.
pub fn press_autoload(
    store: &mut [u32],
    control: Record,
    devices: Devices,
    characters: &[u8],
) -> Autoloaded
    ensures { key_returned result store.new ≡ autoload_lent store.old control devices characters.now }
{
    match acceptance::judge_autoload(store, control, devices, characters) {
        Ok(()) => autoload_key(store, control, devices, characters),
        Err(q) => Autoloaded {
            control,
            verdict: Err(q),
            devices,
            taken: 0,
        },
    }
}
