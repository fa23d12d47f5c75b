// One case: the operation's result goes into the checksum, field by field.
ghost use Rattle.std.specs.Prelude.{◌^◌, ◌<◌};

use crate::operands::Operands;
use cases_common::mix;

#[derive(Clone, Copy, Debug)]
pub enum Operation {
    WA,
    WS,
    AC,
    AA,
    SS,
    LA,
    LO,
    LX,
    IC,
    SH,
    SL,
    SE,
    SN,
    SO,
    SZ,
    WM,
    WD,
    AS,
    AD,
    LS,
    LD,
    NS,
    ND,
}

fn mix_double(h: u32, v: u64) -> u32 {
    mix(
        mix(h, (v / 16777216 % 16777216) as u32),
        (v % 16777216) as u32,
    )
}

fn mix_sum(h: u32, s: integer::Sum) -> u32 {
    mix(mix(mix(h, s.word), s.over), s.carry)
}

fn mix_shifted(h: u32, s: shift::Shifted) -> u32 {
    mix(mix_double(h, s.word), s.over)
}

fn mix_normal(h: u32, n: normalize::Normal) -> u32 {
    mix(mix_double(h, n.word), n.shifts)
}

fn mix_divided(h: u32, d: divide::Divided) -> u32 {
    mix(mix(mix(h, d.pre), d.word), d.over)
}

fn mix_double_sum(h: u32, o: Operands) -> u32 {
    let s = integer::add(o.w, o.pre);
    let t = integer::add_with_carry(o.pre, o.sb, s.carry);
    mix_sum(mix_sum(h, s), t)
}

fn mix_double_difference(h: u32, o: Operands) -> u32 {
    let s = integer::subtract(o.w, o.pre);
    let t = integer::subtract_with_carry(o.pre, o.sb, s.carry);
    mix_sum(mix_sum(h, s), t)
}

// Wpre concat W
fn pair(o: Operands) -> u64
    ensures { result < 2 ^ 48 }
{
    u64::from(o.pre) * 16777216 + u64::from(o.w)
}

impl Operation {
    pub const ALL: [Operation; 23] = [
        Operation::WA,
        Operation::WS,
        Operation::AC,
        Operation::AA,
        Operation::SS,
        Operation::LA,
        Operation::LO,
        Operation::LX,
        Operation::IC,
        Operation::SH,
        Operation::SL,
        Operation::SE,
        Operation::SN,
        Operation::SO,
        Operation::SZ,
        Operation::WM,
        Operation::WD,
        Operation::AS,
        Operation::AD,
        Operation::LS,
        Operation::LD,
        Operation::NS,
        Operation::ND,
    ];

    pub fn shifts(self) -> bool {
        matches!(
            self,
            Operation::AS | Operation::AD | Operation::LS | Operation::LD
        )
    }

    // The checksum h with the operation's result.
    pub fn mix_result(self, h: u32, o: Operands) -> u32 {
        match self {
            Operation::WA => mix_sum(h, integer::add(o.w, o.sb)),
            Operation::WS => mix_sum(h, integer::subtract(o.w, o.sb)),
            Operation::AC => mix_sum(h, integer::subtract(0, o.sb)),
            Operation::AA => mix_double_sum(h, o),
            Operation::SS => mix_double_difference(h, o),
            Operation::LA => mix(h, integer::and24(o.w, o.sb)),
            Operation::LO => mix(h, integer::or24(o.w, o.sb)),
            Operation::LX => mix(h, integer::xor24(o.w, o.sb)),
            Operation::IC => mix(h, integer::clear24(o.w, o.sb)),
            Operation::SH => mix(h, u32::from(integer::is_high(o.w, o.sb))),
            Operation::SL => mix(h, u32::from(integer::is_low(o.w, o.sb))),
            Operation::SE => mix(h, u32::from(integer::is_equal(o.w, o.sb))),
            Operation::SN => mix(h, u32::from(integer::is_not_equal(o.w, o.sb))),
            Operation::SO => mix(h, u32::from(integer::bits_one(o.w, o.sb))),
            Operation::SZ => mix(h, u32::from(integer::bits_zero(o.w, o.sb))),
            Operation::WM => mix_double(h, multiply::multiply(o.w, o.sb)),
            Operation::WD => mix_divided(h, divide::divide(o.pre, o.w, o.sb)),
            Operation::AS => mix_shifted(h, shift::arithmetic24(o.sb, o.w)),
            Operation::AD => mix_shifted(h, shift::arithmetic48(o.sb, pair(o))),
            Operation::LS => mix(h, shift::logical24(o.sb, o.w)),
            Operation::LD => mix_double(h, shift::logical48(o.sb, pair(o))),
            Operation::NS => mix_normal(h, normalize::normalize_single(o.w)),
            Operation::ND => mix_normal(h, normalize::normalize_double(pair(o))),
        }
    }
}
