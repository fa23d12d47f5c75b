// What the programs of stored and drawn cases share: the numbers that are drawn, and the checksum of what comes of them.
#![tactic(auto)]

ghost use Rattle.std.specs.Prelude.{◌≡◌, ◌/◌, ◌%◌, ◌^◌, ◌<◌};
ghost use Rattle.cases_common.specs.Drawn.{next, mix};

// A linear congruential generator of 32 bits.
#[derive(Clone, Copy)]
pub struct Generator {
    pub last: u32,
}

impl Generator {
    pub fn draw(&mut self) -> u32
        ensures drawn { result ≡ next self.old.last }
        ensures kept { self.new.last ≡ result }
    {
        self.last = self.last.wrapping_mul(1664525).wrapping_add(1013904223);
        self.last
    }

    // The first 24 bits of what is drawn, which are drawn better than the last.
    pub fn draw_word(&mut self) -> u32
        ensures drawn { result ≡ next self.old.last / 256 }
        ensures kept { self.new.last ≡ next self.old.last }
        ensures bound { result < 2 ^ 24 }
    {
        self.draw() / 256
    }
}

// The checksum h of numbers to which x is added: 31 h + x modulo 2^32.
pub fn mix(h: u32, x: u32) -> u32
    ensures { result ≡ mix h x }
{
    h.wrapping_mul(31).wrapping_add(x)
}
