// How a call with one output ends: the time rule, whose output is what it keeps, and the requests.
ghost use Rattle.std.specs.Prelude.{◌≡◌, ◌&&◌, [], ◌≤◌, length, take};
ghost use Rattle.tables.specs.Checks.{within_limit};
ghost use Rattle.answers.specs.Outcome.{accepted, refused, LeftKept, leaves_kept};
ghost use Rattle.answers.specs.Filled.{filled_at, Within};

use crate::{Answer, clear_past, refused};
use number_writer::{Done, Written};
use slices::u64_of_usize;
use tables::within_limit;

// A refusal: the output becomes zero.
pub fn refuse_kept(kept: &mut [u8], number: u64, place: u64) -> Answer
    ensures { ◌≡◌ {A = LeftKept} (record { answer = result; kept = kept.new }) (leaves_kept (length kept.old) (refused number place)) }
{
    clear_past(kept, 0);
    refused(number, place)
}

// An accepted end: what lies past the reported bytes becomes zero.
fn accept_kept(kept: &mut [u8], read: usize, n: usize, steps: u64) -> Answer
    requires { n ≤ length kept.old }
    ensures { ◌≡◌ {A = LeftKept} (record { answer = result; kept = kept.new }) (leaves_kept (length kept.old) (accepted read (take n kept.old) [] steps)) }
{
    clear_past(kept, n);
    Answer {
        number: 0,
        place: 0,
        read: u64_of_usize(read),
        events: u64_of_usize(n),
        values: 0,
        steps,
    }
}

// The end of a call whose code filled the output.
pub fn end_filled(out: &mut [u8], w: Written) -> Answer
    requires { Within out.old w }
    ensures { ◌≡◌ {A = LeftKept} (record { answer = result; kept = out.new }) (leaves_kept (length out.old) (filled_at out.old w)) }
{
    match w {
        Ok(Done { read, count, steps }) => accept_kept(out, read, count, steps),
        Err(refusal) => refuse_kept(out, refusal.number(), refusal.place() as u64),
    }
}

// Check 1 of a call with two inputs and one output.
pub fn within_limits(events: usize, values: usize, kept: usize) -> bool
    ensures { result ≡ (within_limit events && within_limit values && within_limit kept) }
{
    within_limit(events) & within_limit(values) & within_limit(kept)
}
