// Section reading: between steps what the bytes say, one item at a time; and each step's time and values.
#![tactic(auto)]

ghost use Rattle.std.specs.Prelude.{◌≡◌};
ghost use Rattle.section_scan.specs.Sections.{scan_sections};
ghost use Rattle.gather.specs.Follows.{Asks, Runs};
ghost use Rattle.item_turns.specs.Lent.{tables, lent, before, after};
ghost use Rattle.section_heads.specs.Heads.{standing};
ghost use Rattle.sections.specs.Item.{after_values};
ghost use Rattle.value_readings.specs.Values.{ValuesAsk};
ghost use Rattle.readings.specs.Step.{Opened};

use event_rooms::time_change;
use gather::{Gathered, Part};
use item_turns::{Bytes, Numbers};
use section_heads::{Item, Phase, Said, Stand, standing};
use section_items::{after_values, head_item};
use value_readings::{Entered, read_values};
use values::How;

// A step, from the item that said its time.
fn read_step<'a>(
    b: Bytes<'a>,
    n: Numbers<'a>,
    s: &[u8],
    room: &mut [u8],
    list: &mut [u32],
    events: &mut [u8],
    values: &mut [u8],
    c: Gathered,
    e: Entered,
) -> Part
    requires { ValuesAsk (tables b n) s.now (lent room list events values) c e.item }
    ensures { let t = tables b.entry n.entry in
        Opened t e.how s.now (before room list events values) c e.item (after room list events values) result }
{
    let item = e.item;
    let then = item.then;
    match time_change(events, c.counts, then.time) {
        Some(counts) => {
            let g = Gathered {
                ended: c.ended,
                listed: c.listed,
                counts,
            };
            read_values(b, n, s, room, list, events, values, g, e)
        }
        None => Part::Out(16, item.at),
    }
}

// Where the reading stands after a step.
fn behind(then: Stand) -> Stand
    ensures { result ≡ standing (after_values then.phase) 0 then.time }
{
    standing(after_values(then.phase), 0, then.time)
}

// Section reading.
pub fn read_sections<'a>(
    b: Bytes<'a>,
    n: Numbers<'a>,
    how: How,
    s: &[u8],
    room: &mut [u8],
    list: &mut [u32],
    events: &mut [u8],
    values: &mut [u8],
    c: Gathered,
) -> Part
    requires { Asks (tables b n) (lent room list events values) c }
    ensures { let t = tables b.entry n.entry in
        Runs t (before room list events values) (after room list events values) c result
        (scan_sections t how s.now) }
{
    let mut x = standing(Phase::Mark, 0, 0);
    let mut at: usize = 0;
    let mut g = c;
    let answer = 'sections: loop {
        let item = head_item(how, s, x, at);
        let said = item.said;
        let then = item.then;
        match said {
            Said::Over => {
                break 'sections Part::Went(item.at, g);
            }
            Said::Bad(refusal) => {
                break 'sections Part::Out(refusal.number(), refusal.place());
            }
            Said::Time(_) => match read_step(
                b,
                n,
                s,
                room,
                list,
                events,
                values,
                g,
                Entered { how, item },
            ) {
                Part::Went(end, k) => {
                    x = behind(then);
                    at = end;
                    g = k;
                }
                Part::Out(number, place) => {
                    break 'sections Part::Out(number, place);
                }
            },
            _ => {
                x = then;
                at = item.at;
            }
        }
    };
    answer
}
