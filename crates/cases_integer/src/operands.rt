// The operands of the cases.
ghost use Rattle.std.specs.Prelude.{◌^◌, ◌<◌};

// Wpre, W and SB; for AA and SS the storage operand is SB and Wpre.
#[derive(Clone, Copy)]
pub struct Operands {
    pub pre: u32,
    pub w: u32,
    pub sb: u32,
    ghost words: { (pre < 2 ^ 24) × (w < 2 ^ 24) × (sb < 2 ^ 24) },
}

const EDGES: [u32; 13] = [
    8388608, 16777215, 0, 1, 8388607, 5592405, 11184810, 4095, 16773120, 4194304, 12582912, 2,
    16777213,
];

const EDGE_COUNTS: [u32; 13] = [
    0,
    1,
    23,
    24,
    47,
    48,
    63,
    64,
    16777216 - 1,
    16777216 - 48,
    16777216 - 63,
    16777216 - 64,
    8388608,
];

// A shifted word: its first bits behind leading zeros.
fn small(word: u32, zeros: u32) -> u32
    requires { (word < 2 ^ 24) × (zeros < 24) }
    ensures { result < 2 ^ 24 }
{
    word >> zeros
}

impl Operands {
    // Every edge operand in the place of Wpre and W, with every edge operand or shift count in that of SB.
    pub fn edge(i: u32, shifts: bool) -> Operands {
        let sb = if shifts { EDGE_COUNTS } else { EDGES };
        Operands {
            pre: EDGES[(i / 169 % 13) as usize],
            w: EDGES[(i / 13 % 13) as usize],
            sb: sb[(i % 13) as usize],
        }
    }

    // Six kinds in rotation: the words that were drawn; small and large Wpre, so that quotients fit; small numbers of each sign.
    fn of_kind(self, i: u32) -> Operands {
        let k = i / 6 % 24;
        let (pre, w, sb) = match i % 6 {
            0 => (self.pre, self.w, self.sb),
            1 => (small(self.pre, k), self.w, self.sb),
            2 => (16777215 - small(self.pre, k), self.w, self.sb),
            3 => (0, small(self.w, k), small(self.sb, 23 - k)),
            4 => (
                16777215,
                16777215 - small(self.w, k),
                small(self.sb, 23 - k),
            ),
            _ => (0, small(self.w, k), 16777215 - small(self.sb, 23 - k)),
        };
        Operands { pre, w, sb }
    }

    // Case i of the words that were drawn; of a shift SB is a count, -80 to 79.
    pub fn drawn(self, i: u32, shifts: bool) -> Operands {
        let Operands { pre, w, sb } = self.of_kind(i);
        if shifts {
            let sb = (self.sb % 160 + 16777136) % 16777216;
            Operands { pre, w, sb }
        } else {
            Operands { pre, w, sb }
        }
    }
}
