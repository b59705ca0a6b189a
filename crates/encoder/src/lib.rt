// The time rule: `Encoder::time_change` and what it lets through, over an event stream.
#![tactic(auto)]

ghost use Rattle.std.specs.Prelude.{◌≡◌, ◌≤◌, length, cond};
ghost use Rattle.event_streams.specs.Next.{Event};
ghost use Rattle.encoder.specs.Rule.{keeps, ticks, times};
ghost use Rattle.encoder.specs.Rule.Promise.{Applies};
ghost use Rattle.encoder.specs.Rule.Code.{Fit, Does, next_at};

use event_streams::next_event;
use number_writer::{Done, Written};
use records::Record;
use refusals::{Reason, Refusal};
use slices::copy_part;
use std::ops::ControlFlow;

// The last kept time, once there is one, and whether events are skipped.
#[derive(Clone, Copy)]
pub struct Clock {
    pub begun: bool,
    pub last: u64,
    pub skipping: bool,
}

// How far the stream has been read, and what has been kept of it.
#[derive(Clone, Copy)]
struct Progress {
    clock: Clock,
    read: usize,
    kept: usize,
    steps: u64,
}

// What one turn of the loop leads to.
type Turn = ControlFlow<Written, Progress>;

// "A larger one is kept"; "Value and real events are dropped while skipping."
fn keeps(clock: Clock, event: Record) -> bool
    ensures { result ≡ keeps clock event }
{
    match event {
        Record::Time(time) => { if clock.begun { clock.last < time } else { true } }
        Record::Value { .. } => !clock.skipping,
        Record::Real { .. } => !clock.skipping,
    }
}

// "An equal one is dropped and changes nothing else, not even skipping; a smaller one is dropped and starts skipping; a larger one is kept and ends it".
fn time_change(clock: Clock, time: u64) -> Clock
    ensures { result ≡ ticks clock (Record.Time time) }
{
    if clock.begun {
        if time == clock.last {
            return clock;
        }
        if time < clock.last {
            return Clock {
                begun: true,
                last: clock.last,
                skipping: true,
            };
        }
    }
    Clock {
        begun: true,
        last: time,
        skipping: false,
    }
}

fn ticks(clock: Clock, event: Record) -> Clock
    ensures { result ≡ ticks clock event }
{
    match event {
        Record::Time(time) => time_change(clock, time),
        Record::Value { .. } => clock,
        Record::Real { .. } => clock,
    }
}

fn times(event: Record) -> u64
    ensures { (result ≡ times event) × (result ≤ 1) }
{
    match event {
        Record::Time(_) => 1,
        Record::Value { .. } => 0,
        Record::Real { .. } => 0,
    }
}

fn times_kept(clock: Clock, event: Record) -> u64
    ensures { (result ≡ cond (keeps clock event) (times event) 0) × (result ≤ 1) }
{
    if keeps(clock, event) { times(event) } else { 0 }
}

// How much of the room a record of `size` bytes takes: nothing where it is dropped.
fn room_taken(clock: Clock, event: Record, size: usize) -> usize
    ensures { (result ≡ cond (keeps clock event) size 0) × (result ≤ size) }
{
    if keeps(clock, event) { size } else { 0 }
}

// "Kept events are copied unaltered", where they fit.
fn take_event(s: &[u8], kept: &mut [u8], p: Progress, event: Record, next: usize) -> Turn
    requires { Fit s.now kept.old p next }
    ensures { Does s.now kept.old p (Event event next) kept.new result }
{
    let size = next - p.read;
    let n = room_taken(p.clock, event, size);
    if kept.len() - p.kept < n {
        return ControlFlow::Break(Err(Refusal(Reason::Full as u64, next)));
    }
    copy_part(s, p.read, n, kept, p.kept);
    ControlFlow::Continue(Progress {
        clock: ticks(p.clock, event),
        read: next,
        kept: p.kept + n,
        steps: p.steps + times_kept(p.clock, event),
    })
}

// One record of the stream, or its end.
fn one(s: &[u8], values: usize, kept: &mut [u8], p: Progress) -> Turn
    requires { (p.steps ≤ p.read) × (p.kept ≤ length kept.old) }
    ensures { let next = next_at s.now values p in
        Does s.now kept.old p next kept.new result }
{
    let clock = p.clock;
    match next_event(s, values, clock.begun, p.read) {
        Ok(Some((event, next))) => take_event(s, kept, p, event, next),
        Ok(None) => ControlFlow::Break(Ok(Done {
            read: p.read,
            count: p.kept,
            steps: p.steps,
        })),
        Err(refusal) => ControlFlow::Break(Err(refusal)),
    }
}

// The time rule over an event stream whose value buffer has `values` bytes.
pub fn apply(s: &[u8], values: usize, kept: &mut [u8]) -> Written
    ensures { Applies s.now values (length kept.old) kept.new result }
{
    let clock = Clock {
        begun: false,
        last: 0,
        skipping: false,
    };
    let mut p = Progress {
        clock,
        read: 0,
        kept: 0,
        steps: 0,
    };
    loop {
        match one(s, values, kept, p) {
            ControlFlow::Continue(q) => {
                p = q;
            }
            ControlFlow::Break(a) => {
                return a;
            }
        }
    }
}
