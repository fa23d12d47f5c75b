// The operation by its numeric code (A.2), with its time (A.3). Two halves: with an arm for each of 58 codes in one `match` the compiler takes every arm for rare, and
// leaves the instructions as calls.
#![tactic(auto, using(crate::proofs::Lifted::with_channel), unfolding(timer_row::specs::Row::passing, timer_row::specs::Row::with_passed, definition_times::specs::Times::execution_time, definition_times::specs::Times::operation_time, definition_times::specs::Times::device_time, definition_instructions::specs::Codes::execute_code, definition_instructions::specs::Codes::lookup, definition_instructions::specs::Codes::codes))]

ghost use Rattle.std.specs.Prelude.{◌≡◌, ◌+◌, ◌*◌, ◌<◌, ◌≤◌};
ghost use Rattle.registers.specs.Reg.{word_range};
ghost use Rattle.machine.specs.Store.{word};
ghost use Rattle.shift.specs.Shift.{shifts_made};
ghost use Rattle.floating.specs.Convert.{fraction_shifts};
ghost use Rattle.control_row.specs.Endings.{ending, ending_of, ending_with};
ghost use Rattle.definition_instructions.specs.Machine.{Channel as DefinedChannel, machine};
ghost use Rattle.channel_row.specs.Row.{channel_at, Same};
ghost use Rattle.definition_instructions.specs.Codes.{execute_code};
ghost use Rattle.definition_times.specs.Times.{execution_time};
ghost use Rattle.timer_row.specs.Row.{passing, clock_after};

use channel_row::Channel;
use control_row::{End, Row};
use timer_row::Clock;

// The end of an instruction that takes the time n.
fn timed(t: &mut Clock, n: u32, e: End) -> End
    ensures value { result ≡ e }
    ensures time { t.new ≡ passing n t.old }
{
    t.advance(n);
    e
}

// With half a microsecond for each shift of AS, AD, LS or LD.
fn shift_time(n: u32, sb: u32) -> u32
    requires { (n < 100) × (sb < word_range) }
    ensures { result ≡ n + 5 * shifts_made sb }
{
    let m = shift::shifts(sb);
    n + 5 * m
}

// With half a microsecond for each shift of CF.
fn cf_time(s: &[u32], w: u32, sb: u32) -> u32
    requires { sb < word_range }
    ensures { result ≡ 50 + 5 * fraction_shifts (word s.now w) sb }
{
    let x = machine::word_at(s, w);
    let m = floating::fraction_shifts(x, sb);
    50 + 5 * m
}

// The codes 0 to 31.
fn execute_low(
    s: &mut [u32],
    k: &mut Row,
    t: &mut Clock,
    h: &mut Channel,
    f: u32,
    w: u32,
    sb: u32,
) -> End
    requires { (f < 32) × (sb < word_range) }
    ensures value { ending_with (channel_at h.new) (ending_of result s.new k.new) ≡ ending (execute_code f w sb (machine s.old k.old (channel_at h.old))) }
    ensures same { Same h.old h.new }
    ensures time { clock_after result t.new ≡ clock_after result (passing (execution_time f w sb (machine s.old k.old (channel_at h.old))) t.old) }
{
    match f {
        0 => timed(t, 0, device_instructions::aw(s, k, h, w, sb)),
        1 => device_instructions::io(s, k, t, h, w, sb),
        2 => timed(t, 30, transfer_instructions::bl(s, k, w, sb)),
        3 => timed(t, 30, transfer_instructions::hl(s, k, w, sb)),
        4 => timed(t, 30, integer_instructions::la(s, k, w, sb)),
        5 => timed(t, 30, integer_instructions::lo(s, k, w, sb)),
        6 => timed(t, 40, integer_instructions::lx(s, k, w, sb)),
        7 => timed(t, 30, integer_instructions::wa(s, k, w, sb)),
        8 => timed(t, 30, integer_instructions::ws(s, k, w, sb)),
        9 => timed(t, 20, transfer_instructions::am(s, k, w, sb)),
        10 => timed(t, 155, integer_instructions::wm(s, k, w, sb)),
        11 => timed(t, 15, transfer_instructions::al(s, k, w, sb)),
        12 => timed(t, 30, sequence_instructions::ml(s, k, w, sb)),
        13 => timed(t, 30, sequence_instructions::jl(s, k, w, sb)),
        14 => timed(t, 30, sequence_instructions::jd(s, k, w, sb)),
        15 => timed(t, 30, sequence_instructions::je(s, k, w, sb)),
        16 => timed(t, 30, sequence_instructions::xl(s, k, w, sb)),
        17 => timed(t, 35, integer_instructions::bs(s, k, w, sb)),
        18 => timed(t, 35, integer_instructions::ba(s, k, w, sb)),
        19 => timed(t, 30, transfer_instructions::bz(s, k, w, sb)),
        20 => timed(t, 30, transfer_instructions::rl(s, k, w, sb)),
        21 => timed(t, 30, sequence_instructions::sp(s, k, w, sb)),
        22 => timed(t, 30, sequence_instructions::kl(s, k, w, sb)),
        23 => timed(t, 40, transfer_instructions::rs(s, k, w, sb)),
        24 => timed(t, 170, integer_instructions::wd(s, k, w, sb)),
        25 => timed(t, 45, transfer_instructions::rx(s, k, w, sb)),
        26 => timed(t, 40, transfer_instructions::hs(s, k, w, sb)),
        27 => timed(t, 40, sequence_instructions::xs(s, k, w, sb)),
        28 => timed(t, 30, sequence_instructions::pl(s, k, w, sb)),
        29 => timed(t, 40, sequence_instructions::ps(s, k, w, sb)),
        30 => timed(t, 40, sequence_instructions::ms(s, k, w, sb)),
        31 => timed(t, 40, sequence_instructions::is(s, k, w, sb)),
        _ => End::Faulted,
    }
}

// The codes 32 to 57; those from 58 on are not used.
fn execute_high(s: &mut [u32], k: &mut Row, t: &mut Clock, f: u32, w: u32, sb: u32) -> End
    requires { (32 ≤ f) × (sb < word_range) }
    ensures value { (h : DefinedChannel) → ending_with h (ending_of result s.new k.new) ≡ ending (execute_code f w sb (machine s.old k.old h)) }
    ensures time { (h : DefinedChannel) → clock_after result t.new ≡ clock_after result (passing (execution_time f w sb (machine s.old k.old h)) t.old) }
{
    match f {
        32 => floating_instructions::ci(s, k, t, w, sb),
        33 => timed(t, 25, integer_instructions::ac(s, k, w, sb)),
        34 => integer_instructions::ns(s, k, t, w, sb),
        35 => integer_instructions::nd(s, k, t, w, sb),
        36 => timed(
            t,
            shift_time(30, sb),
            integer_instructions::shift_as(s, k, w, sb),
        ),
        37 => timed(t, shift_time(35, sb), integer_instructions::ad(s, k, w, sb)),
        38 => timed(t, shift_time(30, sb), integer_instructions::ls(s, k, w, sb)),
        39 => timed(t, shift_time(35, sb), integer_instructions::ld(s, k, w, sb)),
        40 => timed(t, 30, sequence_instructions::sh(s, k, w, sb)),
        41 => timed(t, 30, sequence_instructions::sl(s, k, w, sb)),
        42 => timed(t, 30, sequence_instructions::se(s, k, w, sb)),
        43 => timed(t, 30, sequence_instructions::sn(s, k, w, sb)),
        44 => timed(t, 35, sequence_instructions::so(s, k, w, sb)),
        45 => timed(t, 30, sequence_instructions::sz(s, k, w, sb)),
        46 => timed(t, 30, sequence_instructions::sx(s, k, w, sb)),
        47 => timed(t, 25, sequence_instructions::ic(s, k, w, sb)),
        48 => timed(t, 110, floating_instructions::fa(s, k, w, sb)),
        49 => timed(t, 110, floating_instructions::fs(s, k, w, sb)),
        50 => timed(t, 260, floating_instructions::fm(s, k, w, sb)),
        51 => timed(t, 40, sequence_instructions::ks(s, k, w, sb)),
        52 => timed(t, 270, floating_instructions::fd(s, k, w, sb)),
        53 => timed(t, cf_time(s, w, sb), floating_instructions::cf(s, k, w, sb)),
        54 => timed(t, 50, transfer_instructions::dl(s, k, w, sb)),
        55 => timed(t, 70, transfer_instructions::ds(s, k, w, sb)),
        56 => timed(t, 50, integer_instructions::aa(s, k, w, sb)),
        57 => timed(t, 50, integer_instructions::ss(s, k, w, sb)),
        _ => End::Faulted,
    }
}

pub fn execute(
    s: &mut [u32],
    k: &mut Row,
    t: &mut Clock,
    h: &mut Channel,
    f: u32,
    w: u32,
    sb: u32,
) -> End
    requires { sb < word_range }
    ensures value { ending_with (channel_at h.new) (ending_of result s.new k.new) ≡ ending (execute_code f w sb (machine s.old k.old (channel_at h.old))) }
    ensures same { Same h.old h.new }
    ensures time { clock_after result t.new ≡ clock_after result (passing (execution_time f w sb (machine s.old k.old (channel_at h.old))) t.old) }
{
    if f < 32 {
        execute_low(s, k, t, h, f, w, sb)
    } else {
        execute_high(s, k, t, f, w, sb)
    }
}
