// What is done with an item among the values of a step: a turn; nothing more, where the step's end has come to each vector; or it is refused.
#![tactic(auto)]

ghost use Rattle.std.specs.Prelude.{◌≡◌};
ghost use Rattle.item_turns.specs.Lent.{tables, lent, before, after};
ghost use Rattle.item_acts.specs.Acts.{stage_of, moved_by, ActAsks, Acts};

use gather::Gathered;
use item_turns::{Bytes, Ended, Numbers, Went, turn_item};
use refusals::Refusal;
use section_heads::{Item, Said};
use vector_turns::all_ended;

// What is to be done with an item.
#[derive(Clone, Copy)]
enum Stage {
    // A turn.
    More,
    // Nothing: the step's end has come to each vector listed.
    Over,
    Bad(Refusal),
}

// How it ended.
#[derive(Clone, Copy)]
pub enum Tag {
    // The item is done: the reading goes on from a place and an id.
    On,
    // It is still to be done: the reading stays.
    Stay,
    // The step is over: the reading goes on from a place.
    Over,
    // It is refused by a number and a place.
    Out,
}

#[derive(Clone, Copy)]
pub struct Acted {
    pub tag: Tag,
    pub at: usize,
    pub id: usize,
    pub number: u64,
    pub g: Gathered,
}

fn stage_of(said: Said, g: Gathered) -> Stage
    ensures { result ≡ stage_of said g }
{
    match said {
        Said::Bad(refusal) => Stage::Bad(refusal),
        Said::StepEnd => {
            if all_ended(g) {
                return Stage::Over;
            }
            Stage::More
        }
        _ => Stage::More,
    }
}

// After a turn over an item that ends at `at`.
fn moved(at: usize, w: Went) -> Acted
    ensures { result ≡ moved_by at w w.ended }
{
    let g = w.g;
    let ended = w.ended;
    match ended {
        Ended::On => Acted {
            tag: Tag::On,
            at: w.at,
            id: w.id,
            number: 0,
            g,
        },
        Ended::Stay => Acted {
            tag: Tag::Stay,
            at: 0,
            id: 0,
            number: 0,
            g,
        },
        Ended::Full => Acted {
            tag: Tag::Out,
            at,
            id: 0,
            number: 16,
            g,
        },
    }
}

pub fn act_item<'a>(
    b: Bytes<'a>,
    n: Numbers<'a>,
    s: &[u8],
    room: &mut [u8],
    list: &mut [u32],
    events: &mut [u8],
    values: &mut [u8],
    g: Gathered,
    item: Item,
) -> Acted
    requires { ActAsks (tables b n) (lent room list events values) g item }
    ensures { let t = tables b.entry n.entry in
        Acts t s.now (before room list events values) g item (after room list events values) result }
{
    let end = item.at;
    let stage = stage_of(item.said, g);
    match stage {
        Stage::More => {
            let w = turn_item(b, n, s, room, list, events, values, g, item);
            moved(end, w)
        }
        Stage::Over => Acted {
            tag: Tag::Over,
            at: end,
            id: 0,
            number: 0,
            g,
        },
        Stage::Bad(refusal) => Acted {
            tag: Tag::Out,
            at: refusal.place(),
            id: 0,
            number: refusal.number(),
            g,
        },
    }
}
