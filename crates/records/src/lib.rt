// The bytes of an event record: "one byte of kind, then a body whose length the kind fixes; numbers big-endian".
#![tactic(auto)]

ghost use Rattle.std.specs.Prelude.{◌≡◌, ◌+◌, ◌≤◌, [], ◌∷◌, length};
ghost use Rattle.slices.specs.Splice.{splice};
ghost use Rattle.records.specs.Event.{kind_of, record_bytes};

use numbers::house::{put_u32, put_u64};
use states::States;

// An event record, without the value bytes that it points to.
#[derive(Clone, Copy)]
pub enum Record {
    Time(u64),
    Value {
        states: States,
        reference: u32,
        start: u32,
        length: u32,
    },
    Real {
        reference: u32,
        bits: u64,
    },
}

fn kind_of(states: States) -> u8
    ensures { result ≡ kind_of states }
{
    match states {
        States::Two => 2,
        States::Nine => 3,
    }
}

fn put_kind(events: &mut [u8], at: usize, kind: u8)
    requires { at + 1 ≤ length events.old }
    ensures { events.new ≡ splice events.old at (kind ∷ []) }
{
    events[at] = kind;
}

// A kind and a number of 64 bits.
pub fn put_time(events: &mut [u8], at: usize, time: u64)
    requires { at + 9 ≤ length events.old }
    ensures { events.new ≡ splice events.old at (record_bytes (Record.Time time)) }
{
    put_kind(events, at, 1);
    put_u64(events, at + 1, time);
}

// A kind and three numbers.
pub fn put_value(
    events: &mut [u8],
    at: usize,
    states: States,
    reference: u32,
    start: u32,
    count: u32,
)
    requires { at + 13 ≤ length events.old }
    ensures { events.new ≡ splice events.old at (record_bytes (Record.Value states reference start count)) }
{
    put_kind(events, at, kind_of(states));
    put_u32(events, at + 1, reference);
    put_u32(events, at + 5, start);
    put_u32(events, at + 9, count);
}

// A kind, a number, and one of 64 bits.
pub fn put_real(events: &mut [u8], at: usize, reference: u32, bits: u64)
    requires { at + 13 ≤ length events.old }
    ensures { events.new ≡ splice events.old at (record_bytes (Record.Real reference bits)) }
{
    put_kind(events, at, 4);
    put_u32(events, at + 1, reference);
    put_u64(events, at + 5, bits);
}
