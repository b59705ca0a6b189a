// The values of a step, in section reading: the loop that most of a reading's time goes to. Each turn does one thing, and one that leaves its item to be done
// leaves the reading where it stands, so that the item is read again.
#![tactic(auto)]

ghost use Rattle.sections.specs.Item.{value_item};
ghost use Rattle.item_acts.specs.Acts.{Acts};
ghost use Rattle.item_turns.specs.Lent.{tables, lent, before, after};
ghost use Rattle.value_readings.specs.Values.{PlaceAsks, ValuesAsk, Values};

use gather::{Gathered, Part};
use item_acts::{Acted, Tag, act_item};
use item_turns::{Bytes, KINDS, Numbers};
use section_heads::{Item, Stand, standing};
use section_items::value_item;
use values::How;
use vector_turns::next_step;

// A step that is entered: how its bytes are read, and the item that said its time.
#[derive(Clone, Copy)]
pub struct Entered {
    pub how: How,
    pub item: Item,
}

// Where a reading stands among the values of a step, and how bytes are read there.
#[derive(Clone, Copy)]
struct Place {
    how: How,
    x: Stand,
    at: usize,
}

// One turn over the item at a place.
fn one_value<'a>(
    b: Bytes<'a>,
    n: Numbers<'a>,
    s: &[u8],
    room: &mut [u8],
    list: &mut [u32],
    events: &mut [u8],
    values: &mut [u8],
    g: Gathered,
    p: Place,
) -> Acted
    requires { PlaceAsks (tables b n) p.how s.now (lent room list events values) g p.x p.at }
    ensures { let t = tables b.entry n.entry in
        let item = value_item t.kinds p.how s.now p.x p.at in
        Acts t s.now (before room list events values) g item (after room list events values) result }
{
    let kinds = b[KINDS];
    let item = value_item(kinds, p.how, s, p.x, p.at);
    act_item(b, n, s, room, list, events, values, g, item)
}

// From the item that said the step's time to the step's end.
pub fn read_values<'a>(
    b: Bytes<'a>,
    n: Numbers<'a>,
    s: &[u8],
    room: &mut [u8],
    list: &mut [u32],
    events: &mut [u8],
    values: &mut [u8],
    c: Gathered,
    e: Entered,
) -> Part
    requires { ValuesAsk (tables b n) s.now (lent room list events values) c e.item }
    ensures { let t = tables b.entry n.entry in
        Values t e.how s.now (before room list events values) c e.item (after room list events values) result }
{
    let how = e.how;
    let item = e.item;
    let from = item.then;
    let phase = from.phase;
    let time = from.time;
    let mut id: usize = 0;
    let mut at = item.at;
    let mut g = c;
    loop {
        let x = standing(phase, id, time);
        let w = one_value(b, n, s, room, list, events, values, g, Place { how, x, at });
        let tag = w.tag;
        match tag {
            Tag::On => {
                at = w.at;
                id = w.id;
                g = w.g;
            }
            Tag::Stay => {
                g = w.g;
            }
            Tag::Over => {
                return Part::Went(w.at, next_step(w.g));
            }
            Tag::Out => {
                return Part::Out(w.number, w.at);
            }
        }
    }
}
