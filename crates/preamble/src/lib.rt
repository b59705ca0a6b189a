// The records before the section bytes: signals, vectors and the flag.
#![tactic(auto)]

ghost use Rattle.std.specs.Prelude.{◌≡◌, Ok, ◌+◌, ◌≤◌, length};
ghost use Rattle.tables.specs.Lists.{lists};
ghost use Rattle.preamble.specs.Preamble.{item_length, signal_at, vector_at, flag_at, whole_item, item_at};
ghost use Rattle.preamble.specs.Preamble.Code.{Whole, SignalTaken, VectorTaken};
ghost use Rattle.preamble.specs.Preamble.Loop.{Sized, Turned, Opens};

use numbers::house::get_u32;
use refusals::{Reason, Refusal};
use std::ops::ControlFlow;

// A record of the preamble and the place after it.
#[derive(Clone, Copy)]
pub enum Item {
    Signal {
        kind: u8,
        reference: u32,
        vector: u32,
        next: usize,
    },
    Vector {
        min: u32,
        max: u32,
        state: u8,
        reference: u32,
        next: usize,
    },
    Sections(bool, usize),
}

// The length of a record, its house kind included; 0 for an unknown kind.
fn item_length(kind: u8) -> usize
    ensures { result ≡ item_length kind }
{
    match kind {
        1 => 10,
        2 => 14,
        3 => 2,
        _ => 0,
    }
}

fn signal_at(s: &[u8], at: usize) -> Item
    requires { at + 10 ≤ length s.now }
    ensures { Ok result ≡ signal_at s.now at }
{
    Item::Signal {
        kind: s[at + 1],
        reference: get_u32(s, at + 2),
        vector: get_u32(s, at + 6),
        next: at + 10,
    }
}

fn vector_at(s: &[u8], at: usize) -> Item
    requires { at + 14 ≤ length s.now }
    ensures { Ok result ≡ vector_at s.now at }
{
    Item::Vector {
        min: get_u32(s, at + 1),
        max: get_u32(s, at + 5),
        state: s[at + 9],
        reference: get_u32(s, at + 10),
        next: at + 14,
    }
}

// "0 little or 1 big; else 17".
fn flag_at(s: &[u8], at: usize) -> Result<Item, Refusal>
    requires { at + 2 ≤ length s.now }
    ensures { result ≡ flag_at s.now at }
{
    let flag = s[at + 1];
    if flag <= 1 {
        return Ok(Item::Sections(flag == 1, at + 2));
    }
    Err(Refusal(Reason::Kind as u64, at))
}

fn whole_item(s: &[u8], at: usize) -> Result<Item, Refusal>
    requires { Whole s.now at }
    ensures { result ≡ whole_item s.now at }
{
    match s[at] {
        1 => Ok(signal_at(s, at)),
        2 => Ok(vector_at(s, at)),
        _ => flag_at(s, at),
    }
}

fn item_at(s: &[u8], at: usize) -> Result<Item, Refusal>
    ensures { result ≡ item_at s.now at }
{
    if s.len() <= at {
        return Err(Refusal(Reason::InputEnds as u64, s.len()));
    }
    let size = item_length(s[at]);
    if size == 0 {
        return Err(Refusal(Reason::Kind as u64, at));
    }
    if s.len() - at < size {
        return Err(Refusal(Reason::InputEnds as u64, at));
    }
    whole_item(s, at)
}

// How many signals and vectors the tables hold, and the place of the next record.
#[derive(Clone, Copy)]
struct Progress {
    signals: usize,
    vectors: usize,
    at: usize,
}

// What the preamble says: how many signals and vectors, the flag, the place of the first section byte.
#[derive(Clone, Copy, PartialEq, Eq, Debug)]
pub struct Opened {
    pub signals: usize,
    pub vectors: usize,
    pub big_endian: bool,
    pub at: usize,
}

// What one turn of the loop leads to.
type Turn = ControlFlow<Result<Opened, Refusal>, Progress>;

// "A 257th signal .. is 2 at that record".
fn take_signal(
    kinds: &mut [u8; 256],
    refs: &mut [u32; 256],
    vecs: &mut [u32; 256],
    p: Progress,
    kind: u8,
    reference: u32,
    vector: u32,
    next: usize,
) -> Turn
    ensures { SignalTaken p kind reference vector next kinds.old refs.old vecs.old kinds.new refs.new vecs.new result }
{
    let n = p.signals;
    if n < 256 {
        kinds[n] = kind;
        refs[n] = reference;
        vecs[n] = vector;
        return ControlFlow::Continue(Progress {
            signals: n + 1,
            vectors: p.vectors,
            at: next,
        });
    }
    ControlFlow::Break(Err(Refusal(Reason::Lists as u64, p.at)))
}

// ".. or 65th vector".
fn take_vector(
    mins: &mut [u32; 64],
    maxs: &mut [u32; 64],
    states: &mut [u8; 64],
    vec_refs: &mut [u32; 64],
    p: Progress,
    min: u32,
    max: u32,
    state: u8,
    reference: u32,
    next: usize,
) -> Turn
    ensures { VectorTaken p min max state reference next mins.old maxs.old states.old vec_refs.old mins.new maxs.new states.new vec_refs.new result }
{
    let n = p.vectors;
    if n < 64 {
        mins[n] = min;
        maxs[n] = max;
        states[n] = state;
        vec_refs[n] = reference;
        return ControlFlow::Continue(Progress {
            signals: p.signals,
            vectors: n + 1,
            at: next,
        });
    }
    ControlFlow::Break(Err(Refusal(Reason::Lists as u64, p.at)))
}

// One record.
fn one(
    s: &[u8],
    kinds: &mut [u8; 256],
    refs: &mut [u32; 256],
    vecs: &mut [u32; 256],
    mins: &mut [u32; 64],
    maxs: &mut [u32; 64],
    states: &mut [u8; 64],
    vec_refs: &mut [u32; 64],
    p: Progress,
) -> Turn
    ensures { Turned s.now (lists kinds.old refs.old vecs.old mins.old maxs.old states.old vec_refs.old) p (lists kinds.new refs.new vecs.new mins.new maxs.new states.new vec_refs.new) result }
{
    match item_at(s, p.at) {
        Ok(
            Item::Signal {
                kind,
                reference,
                vector,
                next,
            },
        ) => take_signal(kinds, refs, vecs, p, kind, reference, vector, next),
        Ok(
            Item::Vector {
                min,
                max,
                state,
                reference,
                next,
            },
        ) => take_vector(
            mins, maxs, states, vec_refs, p, min, max, state, reference, next,
        ),
        Ok(Item::Sections(big_endian, next)) => ControlFlow::Break(Ok(Opened {
            signals: p.signals,
            vectors: p.vectors,
            big_endian,
            at: next,
        })),
        Err(refusal) => ControlFlow::Break(Err(refusal)),
    }
}

// All records, to the first section byte.
pub fn read_preamble(
    s: &[u8],
    kinds: &mut [u8; 256],
    refs: &mut [u32; 256],
    vecs: &mut [u32; 256],
    mins: &mut [u32; 64],
    maxs: &mut [u32; 64],
    states: &mut [u8; 64],
    vec_refs: &mut [u32; 64],
) -> Result<Opened, Refusal>
    requires { Sized (lists kinds.old refs.old vecs.old mins.old maxs.old states.old vec_refs.old) }
    ensures { Opens s.now (lists kinds.new refs.new vecs.new mins.new maxs.new states.new vec_refs.new) result }
{
    let mut p = Progress {
        signals: 0,
        vectors: 0,
        at: 0,
    };
    loop {
        match one(s, kinds, refs, vecs, mins, maxs, states, vec_refs, p) {
            ControlFlow::Continue(q) => {
                p = q;
            }
            ControlFlow::Break(o) => {
                return o;
            }
        }
    }
}
