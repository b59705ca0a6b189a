// How a reading begins and ends.
#![tactic(auto)]

ghost use Rattle.std.specs.Prelude.{◌≡◌, ◌≤◌, length, replicate};
ghost use Rattle.vecstarts.specs.Numbers.{Shapes, layout_from, filled};
ghost use Rattle.answers.specs.Outcome.{refused, leaves};
ghost use Rattle.left_buffers.specs.Left.{left_of, lent_of};
ghost use Rattle.reading_ends.specs.Reading.{ended_at, Finish};

use answers::Answer;
use gather::Part;
use left_buffers::{accept, clear_used, refuse_used};
use slices::u64_of_usize;
use vecstarts::fill_starts;

// A refusal before a reading begins: anything may stand in the working buffers, so all of them becomes zero.
pub fn refuse(
    events: &mut [u8],
    values: &mut [u8],
    room: &mut [u8],
    list: &mut [u32],
    number: u64,
    place: u64,
) -> Answer
    ensures { left_of result events.new values.new room.new list.new ≡ leaves (lent_of events.old values.old room.old list.old) (refused number place) }
{
    let n = room.len();
    let v = list.len();
    refuse_used(events, values, room, list, n, v, number, place)
}

// The end of a reading that used the first `n` bytes and the first `v` numbers.
pub fn finish(
    events: &mut [u8],
    values: &mut [u8],
    room: &mut [u8],
    list: &mut [u32],
    n: usize,
    v: usize,
    part: Part,
) -> Answer
    requires { Finish n v room.old list.old events.old values.old part }
    ensures { left_of result events.new values.new room.new list.new ≡ leaves (lent_of events.old values.old room.old list.old) (ended_at events.old values.old part) }
{
    match part {
        Part::Went(read, c) => accept(events, values, room, list, n, v, read, c.counts),
        Part::Out(number, place) => {
            refuse_used(
                events,
                values,
                room,
                list,
                n,
                v,
                number,
                u64_of_usize(place),
            )
        }
    }
}

// Zeros in the working buffers, and where the vectors lie.
pub fn start(mins: &[u32], maxs: &[u32], states: &[u8], room: &mut [u8], list: &mut [u32])
    requires { Shapes mins.now maxs.now states.now × (length mins.now ≤ length list.old) }
    ensures { (room.new ≡ replicate (length room.old) 0) × (list.new ≡ filled (layout_from mins.now maxs.now states.now) (replicate (length list.old) 0) (length mins.now)) }
{
    let n = room.len();
    let v = list.len();
    clear_used(room, list, n, v);
    fill_starts(mins, maxs, states, list);
}
