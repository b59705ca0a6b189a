// The gatherer's small steps over the lent memory: a write or a step's end does one thing to one vector, and says whether an event is due and whether the
// act is over.
#![tactic(auto)]

ghost use Rattle.std.specs.Prelude.{◌≡◌};
ghost use Rattle.turns.specs.Turns.{Left, Writing, turn_write, Unlists, turn_end, Made, Showing, show_vector};

use event_rooms::{Counts, append_value, room_for};
use full_marks::full_signal_has_changed;
use gather::{Gathered, VecInfo};
use vecbuffer::{get_full_value_and_clear_changes, update_value};
use vecmarks::{has_signal_changed, is_second_change, unlist};

// What a turn did to a vector: whether an event is due, whether the act is over, and which vectors are listed then.
#[derive(Clone, Copy)]
pub struct Turned {
    pub due: bool,
    pub over: bool,
    pub ended: usize,
    pub listed: usize,
}

// A write to a bit. Rule (a): where the bit was written since the last event and the new value differs, an event comes first and the write is still to
// be made; else (b) it is made, and (c) an event is due where the vector is complete.
pub fn turn_write(
    room: &mut [u8],
    list: &mut [u32],
    x: VecInfo,
    c: Gathered,
    bit: usize,
    value: u8,
) -> Turned
    requires { Writing room.old list.old x c bit value }
    ensures { Left.mk room.new list.new result
        ≡ turn_write x c bit value room.old list.old }
{
    let info = x.info;
    if is_second_change(room, info, bit, value) {
        return Turned {
            due: true,
            over: false,
            ended: c.ended,
            listed: c.listed,
        };
    }
    let flags = x.flags;
    let listed = update_value(room, list, info, flags, x.v, c.listed, bit, value);
    let due = full_signal_has_changed(room, info);
    Turned {
        due,
        over: true,
        ended: c.ended,
        listed,
    }
}

// The step's end of the first vector listed: it is listed no more, and an event is due where it has marks. The step's end itself is still to come.
pub fn turn_end(room: &mut [u8], x: VecInfo, c: Gathered) -> Turned
    requires { Unlists room.old x c }
    ensures { (room.new, result) ≡ turn_end x c room.old }
{
    let flags = x.flags;
    unlist(room, flags, x.v);
    Turned {
        due: has_signal_changed(room, flags, x.v),
        over: false,
        ended: c.ended + 1,
        listed: c.listed,
    }
}

// Makes an event of a vector and clears its marks.
pub fn show(
    room: &mut [u8],
    events: &mut [u8],
    values: &mut [u8],
    counts: Counts,
    x: VecInfo,
) -> Option<Counts>
    requires { Showing room.old events.old values.old counts x }
    ensures { Made.mk room.new events.new values.new result
        ≡ show_vector x counts room.old events.old values.old }
{
    let info = x.info;
    if !room_for(events.len(), values.len(), counts, 13, info.bytes) {
        return None;
    }
    let kind = info.states;
    let flags = x.flags;
    get_full_value_and_clear_changes(room, info, flags, x.v, values, counts.values);
    let used = append_value(events, counts, kind, x.reference, info.bytes);
    Some(used)
}
