// Section reading over lent vector records: they are made flat, and the core reads the flat table.
ghost use Rattle.std.specs.Prelude.{◌≡◌, ◌+◌, ◌*◌, ◌%◌, ◌≤◌, length, replicate};
ghost use Rattle.slices.specs.Splice.{splice, part};
ghost use Rattle.tables.specs.Lists.{lists};
ghost use Rattle.values.specs.Value.{ordinary};
ghost use Rattle.entries.specs.Entries.{read_sections};
ghost use Rattle.entries.specs.Faces.{lent, left};
ghost use Rattle.doorquill.specs.Lent.Flat.{room_for, Unpacked, lows, flat_table, check_flat, checks_flat, read_passed, refused_lent, read_flat, left_with};

use crate::{Vector, doorquill_read_sections};
use answers::Answer;
use flat_runs::{clear_all, greatest_ids, least_ids, references};
use reading_ends::refuse;
use refusals::{Reason, Refusal};
use tables::{Check, check_limits, unless, within_limit};

// How many of `v` records are made flat: none where there are too many, or where `flat` has no room for them.
pub(crate) fn room_for(v: usize, flat: usize) -> usize
    ensures { result ≡ room_for v flat }
{
    if v <= 16383 {
        if 4 * v <= flat {
            return v;
        }
    }
    0
}

// The first `n` records, made flat: a run of least ids, one of greatest ids, one of references, and one of states. Only this reads records: its proof is a
// walk by hand.
pub(crate) fn unpack(vs: &[Vector], flat: &mut [u32], n: usize)
    requires { (n ≤ length vs.now) × (4 * n ≤ length flat.old) }
    ensures { Unpacked vs.now n flat.old flat.new }
{
    let mut i: usize = 0;
    while i < n {
        let v = vs[i];
        flat[i] = v.min;
        flat[n + i] = v.max;
        flat[2 * n + i] = v.reference;
        flat[3 * n + i] = v.state as u32;
        i += 1;
    }
}

fn low_byte(x: u32) -> u8
    ensures { result ≡ x % 256 }
{
    (x % 256) as u8
}

// The run of states, as bytes: numbers can't be lent on as bytes.
fn lower_states(flat: &[u32], from: usize, n: usize, states: &mut [u8])
    requires { (from + n ≤ length flat.now) × (n ≤ length states.old) }
    ensures { states.new ≡ splice states.old 0 (lows (part flat.now from n)) }
{
    let mut i: usize = 0;
    while i < n {
        states[i] = low_byte(flat[from + i]);
        i += 1;
    }
}

// Checks 1 (of `flat`), 2 and 6 (of `flat`), by lengths alone.
fn check_flat(kinds: usize, refs: usize, vecs: usize, v: usize, flat: usize) -> Check
    ensures { result ≡ check_flat kinds refs vecs v flat }
{
    if within_limit(flat) {
        if v <= 16383 {
            if (refs == kinds) & (vecs == kinds) & (kinds <= 65535) {
                return unless(4 * v <= flat, Refusal(Reason::RoomShort as u64, 0));
            }
            return Err(Refusal(Reason::Lists as u64, 0));
        }
        return Err(Refusal(Reason::Lists as u64, 0));
    }
    Err(Refusal(Reason::BufferOverLimit as u64, 0))
}

// The checks that come before any number is read.
fn check_lent(
    kinds: usize,
    refs: usize,
    vecs: usize,
    v: usize,
    flat: usize,
    input: usize,
    events: usize,
    values: usize,
    room: usize,
    list: usize,
) -> Check
    ensures { result ≡ checks_flat kinds refs vecs v flat input events values room list }
{
    match check_limits(input, events, values, room, list) {
        Ok(()) => check_flat(kinds, refs, vecs, v, flat),
        Err(refusal) => Err(refusal),
    }
}

// The first `n` bytes.
fn first_of(states: &[u8], n: usize) -> &[u8]
    requires { n ≤ length states.now }
    ensures { result.now ≡ part states.now 0 n }
{
    &states[0..n]
}

// The references and the states are found, and the core reads.
fn read_rest<'a>(
    kinds: &'a [u8],
    refs: &'a [u32],
    vecs: &'a [u32],
    mins: &'a [u32],
    maxs: &'a [u32],
    v: usize,
    flat: &'a [u32],
    states: &'a [u8],
    big_endian: bool,
    input: &[u8],
    events: &mut [u8],
    values: &mut [u8],
    room: &mut [u8],
    list: &mut [u32],
) -> Answer
    requires { (2 * v + v ≤ length flat.now) × (v ≤ length states.now) }
    ensures { let t = lists kinds.now refs.now vecs.now mins.now maxs.now
        (part states.now 0 v) (part flat.now (2 * v) v) in
        left result events values room list ≡ read_sections t (ordinary big_endian) input.now (lent events values room list) }
{
    let vec_refs = references(flat, v);
    let bytes = first_of(states, v);
    doorquill_read_sections(
        kinds, refs, vecs, mins, maxs, bytes, vec_refs, big_endian, false, input, events, values,
        room, list,
    )
}

// So are the ranges.
fn read_runs<'a>(
    kinds: &'a [u8],
    refs: &'a [u32],
    vecs: &'a [u32],
    v: usize,
    flat: &'a [u32],
    states: &'a [u8],
    big_endian: bool,
    input: &[u8],
    events: &mut [u8],
    values: &mut [u8],
    room: &mut [u8],
    list: &mut [u32],
) -> Answer
    requires { (2 * v + v ≤ length flat.now) × (v ≤ length states.now) }
    ensures { let t = lists kinds.now refs.now vecs.now (part flat.now 0 v)
        (part flat.now v v) (part states.now 0 v) (part flat.now (2 * v) v) in
        left result events values room list ≡ read_sections t (ordinary big_endian) input.now (lent events values room list) }
{
    let mins = least_ids(flat, v);
    let maxs = greatest_ids(flat, v);
    read_rest(
        kinds, refs, vecs, mins, maxs, v, flat, states, big_endian, input, events, values, room,
        list,
    )
}

// The flat table goes to the core. Its states stand in an array beside `flat`, since the core takes them as bytes.
fn read_table<'a>(
    kinds: &'a [u8],
    refs: &'a [u32],
    vecs: &'a [u32],
    v: usize,
    flat: &'a [u32],
    big_endian: bool,
    input: &[u8],
    events: &mut [u8],
    values: &mut [u8],
    room: &mut [u8],
    list: &mut [u32],
) -> Answer
    requires { (v ≤ 16383) × (4 * v ≤ length flat.now) }
    ensures { let t = flat_table kinds.now refs.now vecs.now v flat.now in
        left result events values room list ≡ read_sections t (ordinary big_endian) input.now (lent events values room list) }
{
    let mut states = [0u8; 16383];
    lower_states(flat, 3 * v, v, &mut states);
    read_runs(
        kinds, refs, vecs, v, flat, &states, big_endian, input, events, values, room, list,
    )
}

// A reading that passed the checks: `flat` becomes zero after it.
fn read_passed<'a>(
    kinds: &'a [u8],
    refs: &'a [u32],
    vecs: &'a [u32],
    v: usize,
    flat: &mut [u32],
    big_endian: bool,
    input: &[u8],
    events: &mut [u8],
    values: &mut [u8],
    room: &mut [u8],
    list: &mut [u32],
) -> Answer
    requires { (v ≤ 16383) × (4 * v ≤ length flat.old) }
    ensures { left_with result flat events values room list
        ≡ read_passed kinds.now refs.now vecs.now v flat.old
        big_endian input.now (lent events values room list) }
{
    let w = &flat[..];
    let a = read_table(
        kinds, refs, vecs, v, w, big_endian, input, events, values, room, list,
    );
    clear_all(flat);
    a
}

// A refusal: `flat` becomes zero too.
fn refuse_lent(
    flat: &mut [u32],
    events: &mut [u8],
    values: &mut [u8],
    room: &mut [u8],
    list: &mut [u32],
    number: u64,
    place: u64,
) -> Answer
    ensures { left_with result flat events values room list
        ≡ refused_lent (length flat.old) (lent events values room list) number place }
{
    clear_all(flat);
    refuse(events, values, room, list, number, place)
}

// Section reading from the flat table of `v` vectors.
pub(crate) fn read_flat<'a>(
    kinds: &'a [u8],
    refs: &'a [u32],
    vecs: &'a [u32],
    v: usize,
    flat: &mut [u32],
    big_endian: bool,
    input: &[u8],
    events: &mut [u8],
    values: &mut [u8],
    room: &mut [u8],
    list: &mut [u32],
) -> Answer
    ensures { left_with result flat events values room list
        ≡ read_flat kinds.now refs.now vecs.now v flat.old
        big_endian input.now (lent events values room list) }
{
    match check_lent(
        kinds.len(),
        refs.len(),
        vecs.len(),
        v,
        flat.len(),
        input.len(),
        events.len(),
        values.len(),
        room.len(),
        list.len(),
    ) {
        Ok(()) => read_passed(
            kinds, refs, vecs, v, flat, big_endian, input, events, values, room, list,
        ),
        Err(refusal) => refuse_lent(
            flat,
            events,
            values,
            room,
            list,
            refusal.number(),
            refusal.place() as u64,
        ),
    }
}
