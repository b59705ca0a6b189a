// Change reading: what the records say, one at a time, goes through the gatherer, as the items of sections do.
#![tactic(auto)]

ghost use Rattle.std.specs.Prelude.{◌≡◌};
ghost use Rattle.gather.specs.Follows.{Asks, Runs};
ghost use Rattle.changes.specs.Changes.{scan_changes};
ghost use Rattle.item_turns.specs.Lent.{tables, lent, before, after};
ghost use Rattle.change_readings.specs.Records.{opened_by, acted_by, RecordAsks, Records};

use changes::record_item;
use event_rooms::{Counts, time_change};
use gather::{Gathered, Part};
use item_acts::{Acted, Tag, act_item};
use item_turns::{Bytes, KINDS, Numbers};
use section_heads::Said;
use vector_turns::next_step;

// Where a reading stands: inside a step or between steps, and at which byte.
#[derive(Clone, Copy)]
struct Place {
    inside: bool,
    at: usize,
}

// How a record's turn ended.
#[derive(Clone, Copy)]
enum End {
    // The reading goes on from a place.
    More,
    // The input is over.
    Over,
    // It is refused by a number and a place.
    Out,
}

#[derive(Clone, Copy)]
struct Step {
    end: End,
    inside: bool,
    at: usize,
    number: u64,
    g: Gathered,
}

// After a time, whose record ends at `at`.
fn opened(at: usize, g: Gathered, put: Option<Counts>) -> Step
    ensures { result ≡ opened_by at g put }
{
    match put {
        Some(counts) => Step {
            end: End::More,
            inside: true,
            at,
            number: 0,
            g: Gathered {
                ended: g.ended,
                listed: g.listed,
                counts,
            },
        },
        None => Step {
            end: End::Out,
            inside: false,
            at,
            number: 16,
            g,
        },
    }
}

// After a write or a step's end, whose record stands at `p`.
fn acted(p: Place, w: Acted) -> Step
    ensures { result ≡ acted_by p w w.tag }
{
    let tag = w.tag;
    let g = w.g;
    match tag {
        Tag::On => Step {
            end: End::More,
            inside: true,
            at: w.at,
            number: 0,
            g,
        },
        Tag::Stay => Step {
            end: End::More,
            inside: p.inside,
            at: p.at,
            number: 0,
            g,
        },
        Tag::Over => Step {
            end: End::More,
            inside: false,
            at: w.at,
            number: 0,
            g: next_step(g),
        },
        Tag::Out => Step {
            end: End::Out,
            inside: false,
            at: w.at,
            number: w.number,
            g,
        },
    }
}

// One turn over the record at a place.
fn one_record<'a>(
    b: Bytes<'a>,
    n: Numbers<'a>,
    s: &[u8],
    room: &mut [u8],
    list: &mut [u32],
    events: &mut [u8],
    values: &mut [u8],
    g: Gathered,
    p: Place,
) -> Step
    requires { RecordAsks (tables b n) s.now (lent room list events values) g p.inside p.at }
    ensures { let t = tables b.entry n.entry in
        Records t s.now (before room list events values) g p.inside p.at (after room list events values) result }
{
    let kinds = b[KINDS];
    let item = record_item(kinds, s, p.inside, p.at);
    let said = item.said;
    match said {
        Said::Time(u) => opened(item.at, g, time_change(events, g.counts, u)),
        Said::Over => Step {
            end: End::Over,
            inside: false,
            at: item.at,
            number: 0,
            g,
        },
        _ => acted(p, act_item(b, n, s, room, list, events, values, g, item)),
    }
}

// All records: what they do, and how the input ended.
pub fn read_changes<'a>(
    b: Bytes<'a>,
    n: Numbers<'a>,
    s: &[u8],
    room: &mut [u8],
    list: &mut [u32],
    events: &mut [u8],
    values: &mut [u8],
    c: Gathered,
) -> Part
    requires { Asks (tables b n) (lent room list events values) c }
    ensures { let t = tables b.entry n.entry in
        Runs t (before room list events values) (after room list events values) c result (scan_changes t s.now) }
{
    let mut inside = false;
    let mut at: usize = 0;
    let mut g = c;
    loop {
        let w = one_record(b, n, s, room, list, events, values, g, Place { inside, at });
        let end = w.end;
        match end {
            End::More => {
                inside = w.inside;
                at = w.at;
                g = w.g;
            }
            End::Over => {
                let last = w.g;
                return Part::Went(w.at, last);
            }
            End::Out => {
                return Part::Out(w.number, w.at);
            }
        }
    }
}
