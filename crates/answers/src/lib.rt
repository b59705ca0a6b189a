// The answer of a call, and what every call ends with.
#![tactic(auto)]

pub mod kept;

ghost use Rattle.std.specs.Prelude.{◌≡◌, ◌≤◌, length, take};
ghost use Rattle.answers.specs.Outcome.{answer, refused, padded};
ghost use Rattle.answers.specs.Report.{report};

use event_rooms::Counts;
use slices::{clear, u64_of_usize};

// Document 01's six numbers.
#[repr(C)]
#[derive(Clone, Copy)]
pub struct Answer {
    pub number: u64,
    pub place: u64,
    pub read: u64,
    pub events: u64,
    pub values: u64,
    pub steps: u64,
}

// "A refusal gives a number and a place with all other fields zero".
pub fn refused(number: u64, place: u64) -> Answer
    ensures { result ≡ answer (refused number place) }
{
    Answer {
        number,
        place,
        read: 0,
        events: 0,
        values: 0,
        steps: 0,
    }
}

// "Output past the reported bytes is zero."
pub fn clear_past(out: &mut [u8], used: usize)
    requires { used ≤ length out.old }
    ensures { out.new ≡ padded (length out.old) (take used out.old) }
{
    clear(out, used, out.len() - used, 0);
}

pub fn report(read: usize, c: Counts) -> Answer
    ensures { result ≡ report read c }
{
    Answer {
        number: 0,
        place: 0,
        read: u64_of_usize(read),
        events: u64_of_usize(c.events),
        values: u64_of_usize(c.values),
        steps: c.steps,
    }
}
