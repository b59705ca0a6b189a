// The gatherer over the lent memory: what it keeps between parts of the input, and a vector looked up.
#![tactic(auto)]

ghost use Rattle.std.specs.Prelude.{◌≡◌};
ghost use Rattle.gather.specs.Writes.{vec_info_from, Looks};

use event_rooms::Counts;
use vecmarks::VecBufferInfo;
use vecstarts::{flags_of, info_of};

// Which vectors are listed in the open step, from the number `ended` to `listed` of the list, and how much of the two rooms is used.
#[derive(Clone, Copy)]
pub struct Gathered {
    pub ended: usize,
    pub listed: usize,
    pub counts: Counts,
}

// After a part of the input: the next unread byte, or a refusal's number and place.
#[derive(Clone, Copy)]
pub enum Part {
    Went(usize, Gathered),
    Out(u64, usize),
}

// A vector, looked up once: its index, where its bytes and the flags of all vectors lie, and its reference.
#[derive(Clone, Copy)]
pub struct VecInfo {
    pub v: usize,
    pub info: VecBufferInfo,
    pub flags: VecBufferInfo,
    pub reference: u32,
}

// Looks a vector up.
pub fn vec_info(
    mins: &[u32],
    maxs: &[u32],
    states: &[u8],
    vec_refs: &[u32],
    list: &[u32],
    v: usize,
) -> VecInfo
    requires { Looks mins.now maxs.now states.now vec_refs.now list.now v }
    ensures { result ≡ vec_info_from mins.now maxs.now states.now vec_refs.now v }
{
    let info = info_of(mins, maxs, states, list, v);
    let flags = flags_of(mins, maxs, states, list);
    VecInfo {
        v,
        info,
        flags,
        reference: vec_refs[v],
    }
}
