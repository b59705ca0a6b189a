// Change reading: its face.
#![tactic(auto)]

mod passed;

ghost use Rattle.std.specs.Prelude.{◌≡◌};
ghost use Rattle.entries.specs.Entries.{read_changes};
ghost use Rattle.entries.specs.Faces.{tables, lent, left};

use answers::Answer;
use checks::checks;
use passed::changes_passed;
use reading_ends::refuse;
use tables::Tables;

pub fn doorquill_read_changes<'a>(
    kinds: &'a [u8],
    refs: &'a [u32],
    vecs: &'a [u32],
    mins: &'a [u32],
    maxs: &'a [u32],
    states: &'a [u8],
    vec_refs: &'a [u32],
    input: &[u8],
    events: &mut [u8],
    values: &mut [u8],
    room: &mut [u8],
    list: &mut [u32],
) -> Answer
    ensures { let t = tables kinds refs vecs mins maxs states vec_refs in
        left result events values room list ≡ read_changes t input.now (lent events values room list) }
{
    let tables = Tables {
        kinds,
        refs,
        vecs,
        mins,
        maxs,
        states,
        vec_refs,
    };
    match checks(
        &tables,
        input.len(),
        events.len(),
        values.len(),
        room.len(),
        list.len(),
    ) {
        Ok(()) => changes_passed(
            [kinds, states],
            [refs, vecs, mins, maxs, vec_refs],
            input,
            events,
            values,
            room,
            list,
        ),
        Err(refusal) => refuse(
            events,
            values,
            room,
            list,
            refusal.number(),
            refusal.place() as u64,
        ),
    }
}
