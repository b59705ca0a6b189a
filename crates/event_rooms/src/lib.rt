// Events appended to the event room and the value room, where they fit.
#![tactic(auto)]

ghost use Rattle.std.specs.Prelude.{◌≡◌, ℕ, ◌+◌, ◌≤◌, List, [], ◌∷◌, length};
ghost use Rattle.slices.specs.Splice.{splice};
ghost use Rattle.records.specs.Event.{Event, record_bytes};
ghost use Rattle.event_rooms.specs.Out.Laws.{EventsRoom, ValuesRoom, Appends, room_for, counted};

use records::{Record, put_real, put_time, put_value};
use slices::write_at;
use states::States;

// How much of the two rooms is used, and how many times were written.
#[derive(Clone, Copy)]
pub struct Counts {
    pub events: usize,
    pub values: usize,
    pub steps: u64,
}

// Whether a record and a value of so many bytes fit what is left of the two rooms.
pub fn room_for(
    events_len: usize,
    values_len: usize,
    counts: Counts,
    record_bytes: usize,
    value_bytes: usize,
) -> bool
    requires { (counts.events ≤ events_len) × (counts.values ≤ values_len) }
    ensures { result ≡ room_for events_len values_len counts record_bytes value_bytes }
{
    if events_len - counts.events < record_bytes {
        return false;
    }
    value_bytes <= values_len - counts.values
}

// Appends the record of a value of `n` bytes, which lie or are to lie at the end of the value room, and counts both.
pub fn append_value(
    events: &mut [u8],
    counts: Counts,
    states: States,
    reference: u32,
    n: usize,
) -> Counts
    requires { (counts.events + 13 ≤ length events.old) × (counts.values + n ≤ 1073741823) }
    ensures counted { result ≡ counted counts 13 n 0 }
    ensures bytes { events.new ≡ splice events.old counts.events (record_bytes (Record.Value states reference counts.values n)) }
{
    put_value(
        events,
        counts.events,
        states,
        reference,
        counts.values as u32,
        n as u32,
    );
    Counts {
        events: counts.events + 13,
        values: counts.values + n,
        steps: counts.steps,
    }
}

// Appends a time, where it fits.
pub fn time_change(events: &mut [u8], counts: Counts, time: u64) -> Option<Counts>
    requires { EventsRoom events.old counts }
    ensures { (values : List ℕ) → Appends (Event.time time ∷ []) events.old values counts events.new values result }
{
    if !room_for(events.len(), counts.values, counts, 9, 0) {
        return None;
    }
    put_time(events, counts.events, time);
    Some(Counts {
        events: counts.events + 9,
        values: counts.values,
        steps: counts.steps + 1,
    })
}

// Appends a real, where it fits.
pub fn real_change(events: &mut [u8], counts: Counts, reference: u32, bits: u64) -> Option<Counts>
    requires { EventsRoom events.old counts }
    ensures { (values : List ℕ) → Appends (Event.real reference bits ∷ []) events.old values counts events.new values result }
{
    if !room_for(events.len(), counts.values, counts, 13, 0) {
        return None;
    }
    put_real(events, counts.events, reference, bits);
    Some(Counts {
        events: counts.events + 13,
        values: counts.values,
        steps: counts.steps,
    })
}

// Appends a value and copies its bytes, where both fit. The vector for which it is made does not show in the bytes.
pub fn raw_value_change(
    events: &mut [u8],
    values: &mut [u8],
    counts: Counts,
    states: States,
    reference: u32,
    bytes: &[u8],
) -> Option<Counts>
    requires { EventsRoom events.old counts × ValuesRoom values.old counts }
    ensures { (vector : ℕ) → Appends (Event.value vector states reference bytes.now ∷ []) events.old values.old counts events.new values.new result }
{
    let n = bytes.len();
    if !room_for(events.len(), values.len(), counts, 13, n) {
        return None;
    }
    write_at(values, counts.values, bytes);
    Some(append_value(events, counts, states, reference, n))
}
