// Fragments counted to sessions at step ends, over an event stream.
#![tactic(auto)]

ghost use Rattle.std.specs.Prelude.{◌≡◌};
ghost use Rattle.step_ends.specs.Steps.{rose};
ghost use Rattle.sessions.specs.Places.Code.{Few};
ghost use Rattle.fragments.specs.Counting.{seated};
ghost use Rattle.fragments.specs.Counting.Step.{Answers};

use number_writer::Written;
use refusals::{Reason, Refusal};
use sessions::{Bench, counted, place_for};
use std::ops::ControlFlow;
use step_ends::Watch;

// The bench after a step's end, or after a part of it.
#[derive(Clone, Copy)]
pub struct Stepped {
    pub bench: Bench,
    pub put: Result<usize, Refusal>,
}

// How far the stream has been read: what is shown, what was at the last step's end, the bytes read and written, and the steps ended.
#[derive(Clone, Copy)]
pub struct Progress {
    pub watch: Watch,
    pub before: Watch,
    pub read: usize,
    pub count: usize,
    pub steps: u64,
}

// What one turn of the loop leads to.
pub type Going = ControlFlow<Written, Progress>;

#[derive(Clone, Copy)]
pub struct Turn {
    pub bench: Bench,
    pub going: Going,
}

// "21 when a new session meets 32 live ones .. at the record ending the step". The fragment's record has been written.
pub fn seat(bench: Bench, watch: Watch, at: usize, count: usize) -> Stepped
    requires { Few bench }
    ensures { Answers (seated bench watch at) count result }
{
    let k = place_for(bench, watch.session);
    if k < 32 {
        return Stepped {
            bench: counted(bench, k, watch.session),
            put: Ok(count),
        };
    }
    Stepped {
        bench,
        put: Err(Refusal(Reason::Sessions as u64, at)),
    }
}

// "The strobe stands at 1 and stood at 0 at the previous step's end".
pub fn rose(before: Watch, watch: Watch) -> bool
    ensures { result ≡ rose before watch }
{
    if before.strobe == 0 {
        return watch.strobe == 1;
    }
    false
}
