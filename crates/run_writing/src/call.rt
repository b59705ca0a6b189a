// One call, with an output full of garbage.
use crate::text::show;
use answers::Answer;
use std::io;

pub(crate) fn call(
    back: bool,
    kinds: &[u8],
    refs: &[u32],
    vecs: &[u32],
    mins: &[u32],
    maxs: &[u32],
    states: &[u8],
    vec_refs: &[u32],
    big_endian: bool,
    input: &[u8],
    out: &mut [u8],
) -> Answer {
    if back {
        return doorquill_back::doorquill_read_back(
            kinds, refs, vecs, mins, maxs, states, vec_refs, big_endian, input, out,
        );
    }
    doorquill::doorquill_write_sections(
        kinds, refs, vecs, mins, maxs, states, vec_refs, big_endian, input, out,
    )
}

fn shown(
    rt: &impl Print,
    label: &[u8],
    back: bool,
    kinds: &[u8],
    refs: &[u32],
    vecs: &[u32],
    mins: &[u32],
    maxs: &[u32],
    states: &[u8],
    vec_refs: &[u32],
    big_endian: bool,
    input: &[u8],
    out: &mut [u8],
    room: usize,
) -> io::Result<()> {
    if out.len() < room {
        return Ok(());
    }
    let part = &mut out[..room];
    let a = call(
        back, kinds, refs, vecs, mins, maxs, states, vec_refs, big_endian, input, part,
    );
    show(rt, label, a, part)
}

// With so much room.
pub(crate) fn within(
    rt: &impl Print,
    label: &[u8],
    back: bool,
    kinds: &[u8],
    refs: &[u32],
    vecs: &[u32],
    mins: &[u32],
    maxs: &[u32],
    states: &[u8],
    vec_refs: &[u32],
    big_endian: bool,
    input: &[u8],
    room: usize,
) -> io::Result<()> {
    let mut out = [0xa5u8; 128];
    shown(
        rt, label, back, kinds, refs, vecs, mins, maxs, states, vec_refs, big_endian, input,
        &mut out, room,
    )
}
