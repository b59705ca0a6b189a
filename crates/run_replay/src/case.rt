// One case: the call of its entry, held to the stored answer.
use crate::frame::{
    BYTE_ROOM, ENTRY, EVENT_ROOM, EVENTS, FLAG, INPUT, KINDS, MAXS, MINS, NUMBER, NUMBER_ROOM,
    PLACE, READ, REFS, STATES, STEPS, VALUE_INPUT, VALUE_ROOM, VALUES, VEC_REFS, VECS, bytes_of,
    least, load, number, words_of,
};
use crate::text;
use answers::Answer;
use buffer_contents::{all_zero, holds};
use std::io;

// What came of a case: the answer's number, and whether all was as stored; or that the case asks for more room than there is.
#[derive(Clone, Copy)]
pub(crate) enum Found {
    Stored(u64),
    Other(u64),
    Large,
}

fn sections<'a>(
    frame: &'a [u8],
    words: &'a [u32],
    events: &mut [u8],
    values: &mut [u8],
    room: &mut [u8],
    list: &mut [u32],
) -> Answer {
    doorquill::doorquill_read_sections(
        bytes_of(frame, KINDS),
        words_of(frame, words, REFS),
        words_of(frame, words, VECS),
        words_of(frame, words, MINS),
        words_of(frame, words, MAXS),
        bytes_of(frame, STATES),
        words_of(frame, words, VEC_REFS),
        number(frame, FLAG) % 2 == 1,
        2 <= number(frame, FLAG),
        bytes_of(frame, INPUT),
        events,
        values,
        room,
        list,
    )
}

fn changes<'a>(
    frame: &'a [u8],
    words: &'a [u32],
    events: &mut [u8],
    values: &mut [u8],
    room: &mut [u8],
    list: &mut [u32],
) -> Answer {
    doorquill_changes::doorquill_read_changes(
        bytes_of(frame, KINDS),
        words_of(frame, words, REFS),
        words_of(frame, words, VECS),
        words_of(frame, words, MINS),
        words_of(frame, words, MAXS),
        bytes_of(frame, STATES),
        words_of(frame, words, VEC_REFS),
        bytes_of(frame, INPUT),
        events,
        values,
        room,
        list,
    )
}

// Its cases have no room but for events: the rest isn't lent, so it would not be found zero.
fn time_rule(frame: &[u8], events: &mut [u8]) -> Answer {
    doorquill::doorquill_time_rule(bytes_of(frame, INPUT), bytes_of(frame, VALUE_INPUT), events)
}

fn call<'a>(
    frame: &'a [u8],
    words: &'a [u32],
    events: &mut [u8],
    values: &mut [u8],
    room: &mut [u8],
    list: &mut [u32],
) -> Answer {
    let entry = number(frame, ENTRY);
    if entry == 1 {
        return sections(frame, words, events, values, room, list);
    }
    if entry == 2 {
        return changes(frame, words, events, values, room, list);
    }
    time_rule(frame, events)
}

fn is(frame: &[u8], k: usize, x: u64) -> bool {
    number(frame, k) as u64 == x
}

// Whether the six numbers are the stored ones.
fn answered(frame: &[u8], a: Answer) -> bool {
    is(frame, NUMBER, a.number)
        & is(frame, PLACE, a.place)
        & is(frame, READ, a.read)
        & is(frame, EVENTS, a.events)
        & is(frame, VALUES, a.values)
        & is(frame, STEPS, a.steps)
}

fn left(frame: &[u8], events: &[u8], values: &[u8], room: &[u8], list: &[u32]) -> bool {
    holds(events, bytes_of(frame, EVENTS))
        & holds(values, bytes_of(frame, VALUES))
        & holds(room, b"")
        & all_zero(list)
}

// The line of a case that is not as stored.
fn tell(rt: &impl Print, at: u64, a: Answer) -> io::Result<()> {
    text::say(rt, b"case")?;
    text::next(rt, at)?;
    text::say(rt, b" is not as stored:")?;
    text::next(rt, a.number)?;
    text::next(rt, a.place)?;
    text::next(rt, a.read)?;
    text::next(rt, a.events)?;
    text::next(rt, a.values)?;
    text::next(rt, a.steps)?;
    text::say(rt, b"\n")
}

fn judged(rt: &impl Print, at: u64, a: Answer, same: bool) -> io::Result<Found> {
    let found = a.number;
    if same {
        return Ok(Found::Stored(found));
    }
    tell(rt, at, a)?;
    Ok(Found::Other(found))
}

// The call, with rooms of just the lengths that the case states.
fn held<'a>(
    rt: &impl Print,
    frame: &'a [u8],
    at: u64,
    words: &'a [u32],
    events: &mut [u8],
    values: &mut [u8],
    room: &mut [u8],
    list: &mut [u32],
) -> io::Result<Found> {
    let a = call(frame, words, events, values, room, list);
    judged(
        rt,
        at,
        a,
        answered(frame, a) & left(frame, events, values, room, list),
    )
}

// The same over larger rooms.
fn with_rooms<'a>(
    rt: &impl Print,
    frame: &'a [u8],
    at: u64,
    words: &'a [u32],
    events: &mut [u8],
    values: &mut [u8],
    room: &mut [u8],
    list: &mut [u32],
) -> io::Result<Found> {
    let e = least(number(frame, EVENT_ROOM), events.len());
    let v = least(number(frame, VALUE_ROOM), values.len());
    let b = least(number(frame, BYTE_ROOM), room.len());
    let n = least(number(frame, NUMBER_ROOM), list.len());
    held(
        rt,
        frame,
        at,
        words,
        &mut events[..e],
        &mut values[..v],
        &mut room[..b],
        &mut list[..n],
    )
}

// Every lent buffer is full of garbage.
fn loaded<'a>(rt: &impl Print, frame: &'a [u8], at: u64, words: &'a [u32]) -> io::Result<Found> {
    let mut events = [0xa5u8; 2048];
    let mut values = [0x5au8; 4096];
    let mut room = [0xc3u8; 128];
    let mut list = [0x9669_a55au32; 10];
    with_rooms(
        rt,
        frame,
        at,
        words,
        &mut events,
        &mut values,
        &mut room,
        &mut list,
    )
}

// Whether these buffers are large enough, as they are for any case of the list.
fn fits(frame: &[u8]) -> bool {
    (number(frame, EVENT_ROOM) <= 2048)
        & (number(frame, VALUE_ROOM) <= 4096)
        & (number(frame, BYTE_ROOM) <= 128)
        & (number(frame, NUMBER_ROOM) <= 10)
}

// No case of the list has more than 140 signals and 10 vectors.
pub(crate) fn run(rt: &impl Print, frame: &[u8], at: u64) -> io::Result<Found> {
    if !fits(frame) {
        return Ok(Found::Large);
    }
    let mut words = [0u32; 310];
    load(frame, &mut words);
    loaded(rt, frame, at, &words)
}
