// The low-speed data channel (chapter 8) during a run: the device buffer registers of reader and typewriter, and the characters and the typing buffer
// that are lent.
#![tactic(auto)]

ghost use Rattle.std.specs.Prelude.{◌≡◌, ◌≤◌, ◌<◌, length};
ghost use Rattle.registers.specs.Reg.{word_range};
ghost use Rattle.definition_instructions.specs.Channel.{lent, registers_of, none_left, disconnected, device_buffer, taking, read_from, typing_on, write_to, four_left};

use machine::Devices;

// The characters are those that are left. No model: a view would hide that the typing buffer is still the caller's, which `same` says, and without
// which the caller learns nothing of what was typed.
#[derive(Drop)]
pub struct Channel<'a> {
    reader: u32,
    typewriter: u32,
    characters: &'a [u8],
    typed: usize,
    typing: &'a mut [u8],
    ghost registers: { (reader < word_range) × (typewriter < word_range) },
    ghost in_buffer: { typed ≤ length typing.now },
}

#[tactic(auto, unfolding(crate::specs::Row::channel_at, definition_instructions::specs::Channel::registers_of, definition_instructions::specs::Channel::disconnected, definition_instructions::specs::Channel::device_buffer, definition_instructions::specs::Channel::read_from, definition_instructions::specs::Channel::write_to, definition_instructions::specs::Channel::four_left))]
impl<'a> Channel<'a> {
    ghost use Rattle.channel_row.specs.Row.{channel_at, Same};

    // The channel at the beginning of a run.
    pub fn new(d: Devices, characters: &'a [u8], typing: &'a mut [u8]) -> Channel<'a>
        requires { (d.reader < word_range) × (d.typewriter < word_range) }
        ensures value { channel_at result ≡ lent d.reader d.typewriter characters.now typing.old }
        ensures same { result.typing.ghost_name ≡ typing.entry.ghost_name }
    {
        Channel {
            reader: d.reader,
            typewriter: d.typewriter,
            characters,
            typed: 0,
            typing,
        }
    }

    pub fn devices(&self) -> Devices
        ensures { result ≡ registers_of (channel_at self.now) }
    {
        Devices {
            reader: self.reader,
            typewriter: self.typewriter,
        }
    }

    // How many characters are left.
    pub fn left(&self) -> usize
        ensures { result ≡ length (channel_at self.now).characters }
    {
        self.characters.len()
    }

    // How many bytes were typed.
    pub fn typed(&self) -> usize
        ensures { result ≡ length (channel_at self.now).typed }
    {
        self.typed
    }

    fn is_reader_empty(&self) -> bool
        ensures { result ≡ none_left (channel_at self.now).characters }
    {
        self.characters.is_empty()
    }

    fn is_typing_full(&self) -> bool
        ensures { result ≡ none_left (channel_at self.now).space }
    {
        self.typed >= self.typing.len()
    }

    // disconnected(device), for a command.
    pub fn is_disconnected(&self, device: u32, command: u32) -> bool
        ensures { result ≡ disconnected device command (channel_at self.now) }
    {
        match device {
            0 => command == 2 && self.is_reader_empty(),
            1 => command == 3 && self.is_typing_full(),
            _ => true,
        }
    }

    // device buffer(device).
    pub fn buffer(&self, device: u32) -> u32
        ensures value { result ≡ device_buffer device (channel_at self.now) }
        ensures bound { result < word_range }
    {
        if device == 0 {
            self.reader
        } else {
            self.typewriter
        }
    }

    // The next character, where one is left, goes into the reader's register.
    fn take_character(&mut self)
        ensures value { channel_at self.new ≡ taking (channel_at self.old).characters (channel_at self.old) }
        ensures same { Same self.old self.new }
    {
        if let Some((c, rest)) = self.characters.split_first() {
            self.reader = u32::from(*c);
            self.characters = rest;
        }
    }

    // A read of a device.
    pub fn read(&mut self, device: u32)
        ensures value { channel_at self.new ≡ read_from device (channel_at self.old) }
        ensures same { Same self.old self.new }
    {
        if device == 0 {
            self.take_character();
        } else {
            self.typewriter = 0;
        }
    }

    // Where there is space, v goes into the typewriter's register, and its last 8 bits are typed.
    fn type_character(&mut self, v: u32)
        requires { v < word_range }
        ensures value { channel_at self.new ≡ typing_on v (channel_at self.old).space (channel_at self.old) }
        ensures same { Same self.old self.new }
    {
        if self.typed < self.typing.len() {
            self.typing[self.typed] = (v % 256) as u8;
            self.typewriter = v;
            self.typed += 1;
        }
    }

    // A write to a device.
    pub fn write(&mut self, device: u32, v: u32)
        requires { v < word_range }
        ensures value { channel_at self.new ≡ write_to device v (channel_at self.old) }
        ensures same { Same self.old self.new }
    {
        if device != 0 {
            self.type_character(v);
        }
    }

    // Four characters are left.
    pub fn has_four(&self) -> bool
        ensures { result ≡ four_left (channel_at self.now).characters }
    {
        self.characters.len() >= 4
    }
}
