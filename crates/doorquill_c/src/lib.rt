// Section reading, over flat lists and over vector records, the time rule, and sections written, as C calls them.
// Each export is the library's function of that name, with its clauses.
#![tactic(auto)]

ghost use Rattle.std.specs.Prelude.{◌≡◌, length};
ghost use Rattle.values.specs.Value.{manner};
ghost use Rattle.entries.specs.Entries.{read_sections, apply_time_rule};
ghost use Rattle.entries.specs.Faces.{tables, lent, left, left_in};
ghost use Rattle.doorquill.specs.Lent.Flat.{left_with};
ghost use Rattle.doorquill.specs.Lent.{read_sections_lent};
ghost use Rattle.entries.specs.Written.{write_sections};

use answers::Answer;
use doorquill::Vector;

#[unsafe(no_mangle)]
pub extern "C" fn doorquill_read_sections<'a>(
    kinds: &'a [u8],
    refs: &'a [u32],
    vecs: &'a [u32],
    mins: &'a [u32],
    maxs: &'a [u32],
    states: &'a [u8],
    vec_refs: &'a [u32],
    big_endian: bool,
    reals_by_flag: bool,
    input: &[u8],
    events: &mut [u8],
    values: &mut [u8],
    room: &mut [u8],
    list: &mut [u32],
) -> Answer
    ensures { let t = tables kinds refs vecs mins maxs states vec_refs in
        left result events values room list
        ≡ read_sections t (manner big_endian reals_by_flag) input.now (lent events values room list) }
{
    doorquill::doorquill_read_sections(
        kinds,
        refs,
        vecs,
        mins,
        maxs,
        states,
        vec_refs,
        big_endian,
        reals_by_flag,
        input,
        events,
        values,
        room,
        list,
    )
}

#[unsafe(no_mangle)]
pub extern "C" fn doorquill_read_sections_lent<'a>(
    kinds: &'a [u8],
    refs: &'a [u32],
    vecs: &'a [u32],
    vectors: &[Vector],
    flat: &mut [u32],
    big_endian: bool,
    input: &[u8],
    events: &mut [u8],
    values: &mut [u8],
    room: &mut [u8],
    list: &mut [u32],
) -> Answer
    ensures { left_with result flat events values room list
        ≡ read_sections_lent vectors.now kinds.now refs.now vecs.now
        big_endian input.now (lent events values room list) (length flat.old) }
{
    doorquill::doorquill_read_sections_lent(
        kinds, refs, vecs, vectors, flat, big_endian, input, events, values, room, list,
    )
}

#[unsafe(no_mangle)]
pub extern "C" fn doorquill_time_rule(events: &[u8], values: &[u8], kept: &mut [u8]) -> Answer
    ensures { left_in result kept
        ≡ apply_time_rule events.now (length values.now) (length kept.old) }
{
    doorquill::doorquill_time_rule(events, values, kept)
}

#[unsafe(no_mangle)]
pub extern "C" fn doorquill_write_sections(
    kinds: &[u8],
    refs: &[u32],
    vecs: &[u32],
    mins: &[u32],
    maxs: &[u32],
    states: &[u8],
    vec_refs: &[u32],
    big_endian: bool,
    changes: &[u8],
    out: &mut [u8],
) -> Answer
    ensures { let t = tables kinds refs vecs mins maxs states vec_refs in
        left_in result out ≡ write_sections t big_endian changes.now (length out.old) }
{
    doorquill::doorquill_write_sections(
        kinds, refs, vecs, mins, maxs, states, vec_refs, big_endian, changes, out,
    )
}
