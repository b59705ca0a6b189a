// A stream of change records, written under either flag, read back, written again, and read as sections beside change reading.
use crate::call::call;
use crate::text::{line, show};
use answers::Answer;
use buffer_contents::holds;
use buffer_contents::parts::first_bytes;
use std::io;

fn sections<'a>(
    kinds: &'a [u8],
    refs: &'a [u32],
    vecs: &'a [u32],
    mins: &'a [u32],
    maxs: &'a [u32],
    states: &'a [u8],
    vec_refs: &'a [u32],
    big_endian: bool,
    s: &[u8],
    events: &mut [u8],
    values: &mut [u8],
) -> Answer {
    let mut room = [0xc3u8; 16];
    let mut list = [0x9669_a55au32; 2];
    doorquill::doorquill_read_sections(
        kinds, refs, vecs, mins, maxs, states, vec_refs, big_endian, false, s, events, values,
        &mut room, &mut list,
    )
}

fn changes<'a>(
    kinds: &'a [u8],
    refs: &'a [u32],
    vecs: &'a [u32],
    mins: &'a [u32],
    maxs: &'a [u32],
    states: &'a [u8],
    vec_refs: &'a [u32],
    s: &[u8],
    events: &mut [u8],
    values: &mut [u8],
) -> Answer {
    let mut room = [0xc3u8; 16];
    let mut list = [0x9669_a55au32; 2];
    doorquill_changes::doorquill_read_changes(
        kinds, refs, vecs, mins, maxs, states, vec_refs, s, events, values, &mut room, &mut list,
    )
}

// Whether what is written anew is `w`.
fn again(
    kinds: &[u8],
    refs: &[u32],
    vecs: &[u32],
    mins: &[u32],
    maxs: &[u32],
    states: &[u8],
    vec_refs: &[u32],
    big_endian: bool,
    s: &[u8],
    w: &[u8],
) -> bool {
    let mut out = [0xa5u8; 2048];
    let a = call(
        false, kinds, refs, vecs, mins, maxs, states, vec_refs, big_endian, s, &mut out,
    );
    (a.number == 0) & (a.events == w.len() as u64) & holds(&out, w)
}

// Whether `w` is read back as `s`, and that is written as `w`.
fn back_again(
    kinds: &[u8],
    refs: &[u32],
    vecs: &[u32],
    mins: &[u32],
    maxs: &[u32],
    states: &[u8],
    vec_refs: &[u32],
    big_endian: bool,
    s: &[u8],
    w: &[u8],
) -> bool {
    let mut out = [0x5au8; 2048];
    let a = call(
        true, kinds, refs, vecs, mins, maxs, states, vec_refs, big_endian, w, &mut out,
    );
    let whole = (a.number == 0) & (a.events == s.len() as u64) & holds(&out, s);
    whole
        & again(
            kinds,
            refs,
            vecs,
            mins,
            maxs,
            states,
            vec_refs,
            big_endian,
            first_bytes(&out, s.len()),
            w,
        )
}

fn same_answer(a: Answer, b: Answer) -> bool {
    (a.number == 0)
        & (b.number == 0)
        & (a.events == b.events)
        & (a.values == b.values)
        & (a.steps == b.steps)
}

// Whether the events of `w`, read as sections, are those of `s`, read as change records.
fn same_events<'a>(
    kinds: &'a [u8],
    refs: &'a [u32],
    vecs: &'a [u32],
    mins: &'a [u32],
    maxs: &'a [u32],
    states: &'a [u8],
    vec_refs: &'a [u32],
    big_endian: bool,
    s: &[u8],
    w: &[u8],
) -> bool {
    let mut events = [0xa5u8; 2048];
    let mut values = [0x5au8; 2048];
    let mut other_events = [0x3cu8; 2048];
    let mut other_values = [0xc3u8; 2048];
    let a = sections(
        kinds,
        refs,
        vecs,
        mins,
        maxs,
        states,
        vec_refs,
        big_endian,
        w,
        &mut events,
        &mut values,
    );
    let b = changes(
        kinds,
        refs,
        vecs,
        mins,
        maxs,
        states,
        vec_refs,
        s,
        &mut other_events,
        &mut other_values,
    );
    same_answer(a, b) & holds(&events, &other_events) & holds(&values, &other_values)
}

fn told(rt: &impl Print, a: Answer, good: bool) -> io::Result<()> {
    if a.number != 0 {
        return Ok(());
    }
    if good {
        return line(rt, b"  comes back, with the same events");
    }
    line(rt, b"  DOES NOT come back with the same events")
}

fn length_of(a: Answer) -> usize {
    (a.events % 65536) as usize
}

fn written<'a>(
    rt: &impl Print,
    label: &[u8],
    kinds: &'a [u8],
    refs: &'a [u32],
    vecs: &'a [u32],
    mins: &'a [u32],
    maxs: &'a [u32],
    states: &'a [u8],
    vec_refs: &'a [u32],
    big_endian: bool,
    s: &[u8],
) -> io::Result<()> {
    let mut out = [0xa5u8; 2048];
    let a = call(
        false, kinds, refs, vecs, mins, maxs, states, vec_refs, big_endian, s, &mut out,
    );
    show(rt, label, a, &out)?;
    let w = first_bytes(&out, length_of(a));
    told(
        rt,
        a,
        back_again(
            kinds, refs, vecs, mins, maxs, states, vec_refs, big_endian, s, w,
        ) & same_events(
            kinds, refs, vecs, mins, maxs, states, vec_refs, big_endian, s, w,
        ),
    )
}

pub(crate) fn both<'a>(
    rt: &impl Print,
    kinds: &'a [u8],
    refs: &'a [u32],
    vecs: &'a [u32],
    mins: &'a [u32],
    maxs: &'a [u32],
    states: &'a [u8],
    vec_refs: &'a [u32],
    s: &[u8],
) -> io::Result<()> {
    written(
        rt, b"little", kinds, refs, vecs, mins, maxs, states, vec_refs, false, s,
    )?;
    written(
        rt, b"big", kinds, refs, vecs, mins, maxs, states, vec_refs, true, s,
    )
}
