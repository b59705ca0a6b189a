// A change of one byte of delta and one of value, to a bit of a vector further on, where it makes no event: it looks no table up.
#![tactic(auto)]

ghost use Rattle.std.specs.Prelude.{◌≡◌};
ghost use Rattle.quiet_changes.specs.Along.{is_short, short_of, Took};
ghost use Rattle.quiet_changes.specs.Along.Code.{Down, Stored, Takes};

use slices::usize_of_byte;
use states::{States, std_logic};
use vecmarks::{VecBufferInfo, write_new};

// Whether a delta has one byte and leads to a bit above 0, of `left` bits that are left.
fn short_delta(left: usize, d: u8) -> bool
    ensures { result ≡ is_short left d }
{
    if d == 0 {
        return false;
    }
    if 128 <= d {
        return false;
    }
    usize_of_byte(d) < left
}

fn short_value(kind: States, b: u8) -> Option<u8>
    ensures { result ≡ short_of kind b }
{
    match kind {
        States::Two => { if b <= 1 { Some(b) } else { None } }
        States::Nine => { if b <= 8 { Some(std_logic(b)) } else { None } }
    }
}

// Stores a bit that is not marked, `d` bits down from `left`. Answers `d`, or 0 where the bit is marked.
fn store_down(room: &mut [u8], info: VecBufferInfo, left: usize, d: usize, value: u8) -> usize
    requires { Down room.old info left d value }
    ensures { Stored info left d value room.old room.new result }
{
    if write_new(room, info, left - d, value) {
        return d;
    }
    0
}

// The change at `at`, where it is a short one and makes no event. Answers its delta, or 0.
pub fn take_change(
    kind: States,
    s: &[u8],
    room: &mut [u8],
    info: VecBufferInfo,
    left: usize,
    at: usize,
) -> usize
    requires { Takes kind info s.now left at room.old }
    ensures { Took info s.now left at room.old room.new result }
{
    let d = s[at];
    if !short_delta(left, d) {
        return 0;
    }
    match short_value(kind, s[at + 1]) {
        Some(value) => {
            let x = VecBufferInfo {
                start: info.start,
                bytes: info.bytes,
                width: info.width,
                states: kind,
            };
            store_down(room, x, left, usize_of_byte(d), value)
        }
        None => 0,
    }
}
