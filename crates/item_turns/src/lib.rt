// A turn over an item of the input: a value of a plain signal, a write to a vector with the changes that follow along it, the event that rule (a) wants
// before a write, or the step's end of one vector. A turn that leaves its item to be done says so, and the item is read again.
#![tactic(auto)]

ghost use Rattle.std.specs.Prelude.{◌≡◌};
ghost use Rattle.turns.specs.Turns.{Showing, Made};
ghost use Rattle.item_turns.specs.Lent.{tables, lent, before, after};
ghost use Rattle.item_turns.specs.Turn.{goes_on, stays, Looking, info_of, show_due, FollowAsks, Followed, GoAsks, Gone, PlainAsks, PlainTurns, TurnAsks, VectorAsks, Turns};

use along::read_along;
use event_rooms::Counts;
use gather::{Gathered, VecInfo, vec_info};
use plain_writes::write_plain;
use section_heads::{Item, Phase, Said};
use turns::show;
use vector_turns::{bit_number, is_for_vector, turn, vector_of};

// The lists of the two tables: kinds, states.
pub type Bytes<'a> = [&'a [u8]; 2];

// References, vector numbers, least ids, greatest ids, references of vectors.
pub type Numbers<'a> = [&'a [u32]; 5];

pub const KINDS: usize = 0;

pub const STATES: usize = 1;

pub const REFS: usize = 0;

pub const VECS: usize = 1;

pub const MINS: usize = 2;

pub const MAXS: usize = 3;

pub const VEC_REFS: usize = 4;

// How a turn ended.
#[derive(Clone, Copy)]
pub enum Ended {
    // The item is done: the reading goes on from a place and an id.
    On,
    // It is still to be done: the reading stays.
    Stay,
    // An event did not fit.
    Full,
}

#[derive(Clone, Copy)]
pub struct Went {
    pub ended: Ended,
    pub at: usize,
    pub id: usize,
    pub g: Gathered,
}

fn goes_on(at: usize, id: usize, g: Gathered) -> Went
    ensures { result ≡ goes_on at id g }
{
    Went {
        ended: Ended::On,
        at,
        id,
        g,
    }
}

fn stays(ended: Ended, g: Gathered) -> Went
    ensures { result ≡ stays ended g }
{
    Went {
        ended,
        at: 0,
        id: 0,
        g,
    }
}

// The vector that an item concerns, looked up.
fn vector_info<'a>(b: Bytes<'a>, n: Numbers<'a>, list: &[u32], c: Gathered, said: Said) -> VecInfo
    requires { Looking (tables b n) list.now c said }
    ensures { result ≡ info_of (tables b.entry n.entry) list.now c said }
{
    let vecs = n[VECS];
    let mins = n[MINS];
    let maxs = n[MAXS];
    let states = b[STATES];
    let vec_refs = n[VEC_REFS];
    let v = vector_of(vecs, list, c, said);
    vec_info(mins, maxs, states, vec_refs, list, v)
}

// The event of a vector, where it is due.
fn show_due(
    room: &mut [u8],
    events: &mut [u8],
    values: &mut [u8],
    counts: Counts,
    x: VecInfo,
    due: bool,
) -> Option<Counts>
    requires { Showing room.old events.old values.old counts x }
    ensures { Made.mk room.new events.new values.new result
        ≡ show_due due x counts room.old events.old values.old }
{
    if due {
        return show(room, events, values, counts, x);
    }
    Some(counts)
}

// After a write to bit `bit` of a vector: the changes that follow along it in a change list.
fn follow(s: &[u8], room: &mut [u8], x: VecInfo, bit: usize, item: Item, g: Gathered) -> Went
    requires { FollowAsks room.old x bit item }
    ensures { Followed x s.now bit item g room.old room.new result }
{
    let then = item.then;
    let phase = then.phase;
    match phase {
        Phase::Listed => {
            let to = read_along(s, room, x, bit, item.at);
            goes_on(to.at, then.id + (bit - to.left), g)
        }
        _ => goes_on(item.at, then.id, g),
    }
}

// An act that is over is followed; else the reading stays.
fn go_on(
    s: &[u8],
    room: &mut [u8],
    maxs: &[u32],
    x: VecInfo,
    item: Item,
    g: Gathered,
    over: bool,
) -> Went
    requires { GoAsks room.old maxs.now x item over }
    ensures { Gone x s.now maxs.now item g over room.old room.new result }
{
    if !over {
        return stays(Ended::Stay, g);
    }
    let then = item.then;
    let bit = bit_number(maxs, x.v, then.id);
    follow(s, room, x, bit, item, g)
}

// A turn that concerns a vector: a write to it, with the changes that follow along it, or the step's end of it.
fn turn_vector<'a>(
    b: Bytes<'a>,
    n: Numbers<'a>,
    s: &[u8],
    room: &mut [u8],
    list: &mut [u32],
    events: &mut [u8],
    values: &mut [u8],
    c: Gathered,
    item: Item,
) -> Went
    requires { VectorAsks (tables b n) (lent room list events values) c item }
    ensures { let t = tables b.entry n.entry in
        Turns t s.now (before room list events values) c item (after room list events values) result }
{
    let maxs = n[MAXS];
    let x = vector_info(b, n, list, c, item.said);
    let t = turn(room, list, maxs, x, c, item.said);
    match show_due(room, events, values, c.counts, x, t.due) {
        Some(counts) => {
            let g = Gathered {
                ended: t.ended,
                listed: t.listed,
                counts,
            };
            go_on(s, room, maxs, x, item, g, t.over)
        }
        None => stays(Ended::Full, c),
    }
}

// A value of a signal outside vectors.
fn plain_item<'a>(
    b: Bytes<'a>,
    n: Numbers<'a>,
    events: &mut [u8],
    values: &mut [u8],
    c: Gathered,
    item: Item,
) -> Went
    requires { PlainAsks (tables b n) events.old values.old c item }
    ensures { let t = tables b.entry n.entry in
        PlainTurns t c item events.old values.old events.new values.new result }
{
    let said = item.said;
    let then = item.then;
    let kinds = b[KINDS];
    let refs = n[REFS];
    match said {
        Said::Write { value, id } => match write_plain(
            kinds, refs, events, values, c.counts, id, value,
        ) {
            Some(counts) => goes_on(
                item.at,
                then.id,
                Gathered {
                    ended: c.ended,
                    listed: c.listed,
                    counts,
                },
            ),
            None => stays(Ended::Full, c),
        },
        _ => stays(Ended::Stay, c),
    }
}

// A turn: a write, or a part of the step's end.
pub fn turn_item<'a>(
    b: Bytes<'a>,
    n: Numbers<'a>,
    s: &[u8],
    room: &mut [u8],
    list: &mut [u32],
    events: &mut [u8],
    values: &mut [u8],
    c: Gathered,
    item: Item,
) -> Went
    requires { TurnAsks (tables b n) (lent room list events values) c item }
    ensures { let t = tables b.entry n.entry in
        Turns t s.now (before room list events values) c item (after room list events values) result }
{
    let vecs = n[VECS];
    let said = item.said;
    if is_for_vector(vecs, said) {
        return turn_vector(b, n, s, room, list, events, values, c, item);
    }
    plain_item(b, n, events, values, c, item)
}
