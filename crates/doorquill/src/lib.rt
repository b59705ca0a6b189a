// Section reading, over flat lists and over vector records, the time rule, and sections written: their faces.
#![tactic(auto)]

mod lent;
mod passed;

ghost use Rattle.std.specs.Prelude.{◌≡◌, length};
ghost use Rattle.values.specs.Value.{manner};
ghost use Rattle.entries.specs.Entries.{read_sections, apply_time_rule};
ghost use Rattle.entries.specs.Faces.{tables, lent, left, left_in};
ghost use Rattle.doorquill.specs.Lent.Flat.{left_with};
ghost use Rattle.doorquill.specs.Lent.{read_sections_lent};
ghost use Rattle.entries.specs.Written.{write_sections};

use answers::Answer;
use answers::kept::{end_filled, refuse_kept, within_limits};
use checks::{checks, checks_without_room};
use encoder::apply;
use lent::{read_flat, room_for, unpack};
use passed::sections_passed;
use reading_ends::refuse;
use section_writing::write_sections;
use tables::Tables;
use values::How;

// A vector's record, as a host lends it.
#[repr(C)]
#[derive(Clone, Copy)]
pub struct Vector {
    pub min: u32,
    pub max: u32,
    pub state: u8,
    pub reference: u32,
}

// Section reading; reals are little-endian, or follow the flag.
pub fn doorquill_read_sections<'a>(
    kinds: &'a [u8],
    refs: &'a [u32],
    vecs: &'a [u32],
    mins: &'a [u32],
    maxs: &'a [u32],
    states: &'a [u8],
    vec_refs: &'a [u32],
    big_endian: bool,
    reals_by_flag: bool,
    input: &[u8],
    events: &mut [u8],
    values: &mut [u8],
    room: &mut [u8],
    list: &mut [u32],
) -> Answer
    ensures { let t = tables kinds refs vecs mins maxs states vec_refs in
        left result events values room list
        ≡ read_sections t (manner big_endian reals_by_flag) input.now (lent events values room list) }
{
    let tables = Tables {
        kinds,
        refs,
        vecs,
        mins,
        maxs,
        states,
        vec_refs,
    };
    match checks(
        &tables,
        input.len(),
        events.len(),
        values.len(),
        room.len(),
        list.len(),
    ) {
        Ok(()) => sections_passed(
            [kinds, states],
            [refs, vecs, mins, maxs, vec_refs],
            How {
                big_endian,
                reals_by_flag,
            },
            input,
            events,
            values,
            room,
            list,
        ),
        Err(refusal) => refuse(
            events,
            values,
            room,
            list,
            refusal.number(),
            refusal.place() as u64,
        ),
    }
}

// Section reading over vector records: a thin entry over the same core. `flat` lends 4 numbers for each record; it is a working buffer.
pub fn doorquill_read_sections_lent<'a>(
    kinds: &'a [u8],
    refs: &'a [u32],
    vecs: &'a [u32],
    vectors: &[Vector],
    flat: &mut [u32],
    big_endian: bool,
    input: &[u8],
    events: &mut [u8],
    values: &mut [u8],
    room: &mut [u8],
    list: &mut [u32],
) -> Answer
    ensures { left_with result flat events values room list
        ≡ read_sections_lent vectors.now kinds.now refs.now vecs.now
        big_endian input.now (lent events values room list) (length flat.old) }
{
    let n = room_for(vectors.len(), flat.len());
    unpack(vectors, flat, n);
    read_flat(
        kinds,
        refs,
        vecs,
        vectors.len(),
        flat,
        big_endian,
        input,
        events,
        values,
        room,
        list,
    )
}

// The time rule over an event stream and its value bytes: what is kept of it.
pub fn doorquill_time_rule(events: &[u8], values: &[u8], kept: &mut [u8]) -> Answer
    ensures { left_in result kept
        ≡ apply_time_rule events.now (length values.now) (length kept.old) }
{
    if within_limits(events.len(), values.len(), kept.len()) {
        let w = apply(events, values.len(), kept);
        return end_filled(kept, w);
    }
    refuse_kept(kept, 1, 0)
}

// Sections written from change records.
pub fn doorquill_write_sections(
    kinds: &[u8],
    refs: &[u32],
    vecs: &[u32],
    mins: &[u32],
    maxs: &[u32],
    states: &[u8],
    vec_refs: &[u32],
    big_endian: bool,
    changes: &[u8],
    out: &mut [u8],
) -> Answer
    ensures { let t = tables kinds refs vecs mins maxs states vec_refs in
        left_in result out ≡ write_sections t big_endian changes.now (length out.old) }
{
    let tables = Tables {
        kinds,
        refs,
        vecs,
        mins,
        maxs,
        states,
        vec_refs,
    };
    match checks_without_room(&tables, changes.len(), out.len()) {
        // Of the tables the kinds alone are asked.
        Ok(()) => {
            let w = write_sections(kinds, big_endian, changes, out);
            end_filled(out, w)
        }
        Err(refusal) => refuse_kept(out, refusal.number(), refusal.place() as u64),
    }
}
