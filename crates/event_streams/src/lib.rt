// An event stream and its value buffer, read record by record.
#![tactic(auto)]

ghost use Rattle.std.specs.Prelude.{◌≡◌, ◌+◌, ◌≤◌, cond, ◌||◌, eqb, length};
ghost use Rattle.slices.specs.Splice.{part};
ghost use Rattle.numbers.specs.Fixed.{big};
ghost use Rattle.event_streams.specs.Stream.{event_length, record_at, is_time, in_values, judged, next_event};
ghost use Rattle.event_streams.specs.Stream.Code.{Whole, Known};

use numbers::house::{get_u32, get_u64};
use records::Record;
use refusals::{Reason, Refusal};
use slices::usize_of_u32;
use states::States;

// What stands at a place of an event stream: a record and the place after it, or the stream's end.
pub type Next = Result<Option<(Record, usize)>, Refusal>;

// "A body whose length the kind fixes": the length of a record, its kind byte included; 0 for an unknown kind.
fn event_length(kind: u8) -> usize
    ensures { result ≡ event_length kind }
{
    match kind {
        1 => 9,
        2..=4 => 13,
        _ => 0,
    }
}

fn value_at(s: &[u8], at: usize, states: States) -> Record
    requires { at + 13 ≤ length s.now }
    ensures { result ≡ Record.Value states (big (part s.now (at + 1) 4)) (big (part s.now (at + 5) 4)) (big (part s.now (at + 9) 4)) }
{
    Record::Value {
        states,
        reference: get_u32(s, at + 1),
        start: get_u32(s, at + 5),
        length: get_u32(s, at + 9),
    }
}

fn states_of(kind: u8) -> States
    ensures { result ≡ cond (eqb kind 2) States.Two States.Nine }
{
    if kind == 2 { States::Two } else { States::Nine }
}

// The record of a known kind.
fn record_at(s: &[u8], at: usize) -> Record
    requires { Whole s.now at }
    ensures { result ≡ record_at s.now at }
{
    match s[at] {
        1 => Record::Time(get_u64(s, at + 1)),
        4 => Record::Real {
            reference: get_u32(s, at + 1),
            bits: get_u64(s, at + 5),
        },
        _ => value_at(s, at, states_of(s[at])),
    }
}

// Whether a record may stand here: a time may stand anywhere, the others only where a time has come before.
fn may_stand(begun: bool, event: Record) -> bool
    ensures { result ≡ (is_time event || begun) }
{
    match event {
        Record::Time(_) => true,
        Record::Value { .. } => begun,
        Record::Real { .. } => begun,
    }
}

// Whether the value that a record points to lies in the value buffer.
fn in_values(values: usize, event: Record) -> bool
    ensures { result ≡ in_values values event }
{
    match event {
        Record::Time(_) => true,
        Record::Value {
            states: _,
            reference: _,
            start,
            length,
        } => usize_of_u32(start) + usize_of_u32(length) <= values,
        Record::Real { .. } => true,
    }
}

fn judge(values: usize, begun: bool, event: Record, at: usize, next: usize) -> Next
    ensures { result ≡ judged values begun event at next }
{
    if may_stand(begun, event) {
        if in_values(values, event) {
            return Ok(Some((event, next)));
        }
        return Err(Refusal(Reason::PastValues as u64, at));
    }
    Err(Refusal(Reason::Order as u64, at))
}

fn known_event(s: &[u8], values: usize, begun: bool, at: usize, size: usize) -> Next
    requires { Known s.now at size }
    ensures { result ≡ next_event s.now values begun at }
{
    if s.len() - at < size {
        return Err(Refusal(Reason::InputEnds as u64, at));
    }
    judge(values, begun, record_at(s, at), at, at + size)
}

// The record at a place of an event stream whose value buffer has `values` bytes; `begun` says whether a time came before.
// "In a record: 17, 7, 18, .. 20".
pub fn next_event(s: &[u8], values: usize, begun: bool, at: usize) -> Next
    ensures { result ≡ next_event s.now values begun at }
{
    if s.len() <= at {
        return Ok(None);
    }
    let size = event_length(s[at]);
    if size == 0 {
        return Err(Refusal(Reason::Kind as u64, at));
    }
    known_event(s, values, begun, at, size)
}
