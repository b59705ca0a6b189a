// Values of signals outside vectors: an event at once, with one site for one byte and for eight.
#![tactic(auto)]

ghost use Rattle.std.specs.Prelude.{◌≡◌, [], ◌∷◌, length};
ghost use Rattle.slices.specs.Splice.{splice};
ghost use Rattle.tables.specs.Lists.{nth};
ghost use Rattle.event_rooms.specs.Out.Laws.{Appends};
ghost use Rattle.gather.specs.Run.{alone};
ghost use Rattle.gather.specs.Writes.{Alone};
ghost use Rattle.plain_writes.specs.Plain.{plain_states, plain_value, Fitting, Plain, AloneAt};

use event_rooms::{Counts, append_value, room_for};
use numbers::house::put_u64;
use states::States;

fn plain_bytes(kind: u8, value: u64) -> usize
    ensures { result ≡ length (plain_value kind value) }
{
    if kind == 5 { 8 } else { 1 }
}

fn plain_states(kind: u8) -> States
    ensures { result ≡ plain_states kind }
{
    if kind <= 1 { States::Nine } else { States::Two }
}

// One byte, or eight, big-endian.
fn put_plain(values: &mut [u8], at: usize, kind: u8, value: u64)
    requires { Fitting values.old at kind value }
    ensures { values.new ≡ splice values.old at (plain_value kind value) }
{
    if kind == 5 {
        put_u64(values, at, value);
        return;
    }
    values[at] = (value % 256) as u8;
}

// A value of one byte, or of eight.
fn plain_change(
    events: &mut [u8],
    values: &mut [u8],
    counts: Counts,
    kind: u8,
    reference: u32,
    value: u64,
) -> Option<Counts>
    requires { Plain events.old values.old counts kind value }
    ensures { Appends (alone kind reference value ∷ [])
        events.old values.old counts events.new values.new result }
{
    let n = plain_bytes(kind, value);
    if !room_for(events.len(), values.len(), counts, 13, n) {
        return None;
    }
    put_plain(values, counts.values, kind, value);
    Some(append_value(events, counts, plain_states(kind), reference, n))
}

// The event of a signal outside vectors.
fn write_alone(
    events: &mut [u8],
    values: &mut [u8],
    counts: Counts,
    kind: u8,
    reference: u32,
    value: u64,
) -> Option<Counts>
    requires { Alone events.old values.old counts kind value }
    ensures { Appends (alone kind reference value ∷ [])
        events.old values.old counts events.new values.new result }
{
    if kind <= 5 {
        return plain_change(events, values, counts, kind, reference, value);
    }
    event_rooms::real_change(events, counts, reference, value)
}

// A value of a signal outside vectors.
pub fn write_plain(
    kinds: &[u8],
    refs: &[u32],
    events: &mut [u8],
    values: &mut [u8],
    counts: Counts,
    id: usize,
    value: u64,
) -> Option<Counts>
    requires { AloneAt kinds.now refs.now events.old values.old counts id value }
    ensures { Appends (alone (nth kinds.now id) (nth refs.now id) value ∷ [])
        events.old values.old counts events.new values.new result }
{
    write_alone(events, values, counts, kinds[id - 1], refs[id - 1], value)
}
