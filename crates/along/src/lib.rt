// Writes that follow one another along the bits of a vector that was looked up, and make no event.
#![tactic(auto)]

ghost use Rattle.std.specs.Prelude.{◌≡◌};
ghost use Rattle.along.specs.Follows.{is_near, FollowAsks, Followed, AlongAsks, Ran};

use gather::VecInfo;
use quiet_changes::take_change;
use slices::usize_of_byte;
use states::States;
use vecmarks::{VecBufferInfo, is_quiet};

// The last bit written, and the place after its value.
#[derive(Clone, Copy)]
pub struct Reached {
    pub left: usize,
    pub at: usize,
}

// Changes to one vector's bits, as long as they are short and make no event.
fn follow(
    kind: States,
    s: &[u8],
    room: &mut [u8],
    info: VecBufferInfo,
    bit: usize,
    at: usize,
) -> Reached
    requires { FollowAsks kind info s.now bit at room.old }
    ensures { Followed info s.now room.old bit at room.new result }
{
    let mut left = bit;
    let mut i = at;
    while 2 <= s.len() - i {
        let d = take_change(kind, s, room, info, left, i);
        if d == 0 {
            return Reached { left, at: i };
        }
        left -= d;
        i += 2;
    }
    Reached { left, at: i }
}

// A loop for each state kind: the compiler makes two of this one.
fn follow_kind(s: &[u8], room: &mut [u8], info: VecBufferInfo, bit: usize, at: usize) -> Reached
    requires { FollowAsks info.states info s.now bit at room.old }
    ensures { Followed info s.now room.old bit at room.new result }
{
    let kind = info.states;
    match kind {
        States::Two => follow(States::Two, s, room, info, bit, at),
        States::Nine => follow(States::Nine, s, room, info, bit, at),
    }
}

// Whether the next change may lie before the last of `left` bits.
fn near(s: &[u8], left: usize, at: usize) -> bool
    ensures { result ≡ is_near s.now left at }
{
    if s.len() <= at {
        return false;
    }
    if s[at] == 0 {
        return false;
    }
    usize_of_byte(s[at]) < left
}

// Changes to the bits below `bit` of a vector that was just written, as long as they are short and make no event.
pub fn read_along(s: &[u8], room: &mut [u8], x: VecInfo, bit: usize, at: usize) -> Reached
    requires { AlongAsks room.old x bit }
    ensures { Ran x s.now bit at room.old room.new result }
{
    if !near(s, bit, at) {
        return Reached { left: bit, at };
    }
    let info = x.info;
    let flags = x.flags;
    if !is_quiet(room, info, flags, x.v) {
        return Reached { left: bit, at };
    }
    follow_kind(s, room, info, bit, at)
}
