// What a reading leaves in the buffers that it was lent: zeros, and the six numbers.
#![tactic(auto)]

ghost use Rattle.std.specs.Prelude.{◌≡◌, length, take, replicate};
ghost use Rattle.answers.specs.Outcome.{accepted, refused, leaves};
ghost use Rattle.left_buffers.specs.Left.{left_of, lent_of, Used, Ready};

use answers::{Answer, clear_past, refused, report};
use event_rooms::Counts;
use slices::clear;

// What was used of the working buffers becomes zero, the first `n` bytes and the first `v` numbers: there are zeros past them.
pub fn clear_used(room: &mut [u8], list: &mut [u32], n: usize, v: usize)
    requires { Used n v room.old list.old }
    ensures { (room.new ≡ replicate (length room.old) 0) × (list.new ≡ replicate (length list.old) 0) }
{
    clear(room, 0, n, 0);
    clear(list, 0, v, 0);
}

// A refusal: every output becomes zero, and what was used of the working buffers.
pub fn refuse_used(
    events: &mut [u8],
    values: &mut [u8],
    room: &mut [u8],
    list: &mut [u32],
    n: usize,
    v: usize,
    number: u64,
    place: u64,
) -> Answer
    requires { Used n v room.old list.old }
    ensures { left_of result events.new values.new room.new list.new ≡ leaves (lent_of events.old values.old room.old list.old) (refused number place) }
{
    clear_past(events, 0);
    clear_past(values, 0);
    clear_used(room, list, n, v);
    refused(number, place)
}

// An accepted end: what lies past the reported bytes becomes zero.
pub fn accept(
    events: &mut [u8],
    values: &mut [u8],
    room: &mut [u8],
    list: &mut [u32],
    n: usize,
    v: usize,
    read: usize,
    c: Counts,
) -> Answer
    requires { Ready n v room.old list.old events.old values.old c }
    ensures { left_of result events.new values.new room.new list.new ≡ leaves (lent_of events.old values.old room.old list.old) (accepted read (take c.events events.old) (take c.values values.old) c.steps) }
{
    clear_used(room, list, n, v);
    clear_past(events, c.events);
    clear_past(values, c.values);
    report(read, c)
}
