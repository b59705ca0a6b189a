// Section reading, over tables that passed their checks.
ghost use Rattle.std.specs.Prelude.{◌≡◌, length};
ghost use Rattle.tables.specs.Layout.{layout_of, total_bytes};
ghost use Rattle.section_scan.specs.Sections.{scan_sections};
ghost use Rattle.answers.specs.Outcome.{leaves};
ghost use Rattle.item_turns.specs.Lent.{tables};
ghost use Rattle.entries.specs.Faces.{Checked, ran, Over, lent, left};

use answers::Answer;
use event_rooms::Counts;
use gather::{Gathered, Part};
use item_turns::{Bytes, KINDS, MAXS, MINS, Numbers, REFS, STATES, VEC_REFS, VECS};
use reading_ends::{finish, start};
use readings::read_sections;
use room_needs::total_bytes;
use tables::Tables;
use values::How;

// The acts of all sections.
fn sections_part<'a>(
    b: Bytes<'a>,
    n: Numbers<'a>,
    how: How,
    input: &[u8],
    events: &mut [u8],
    values: &mut [u8],
    room: &mut [u8],
    list: &mut [u32],
    need: usize,
) -> Part
    requires { let t = tables b n in
        Checked t input events values room list × (need ≡ total_bytes (layout_of t)) }
    ensures { let t = tables b.entry n.entry in
        Over need (length t.mins) result events values room list
        (ran t events values (scan_sections t how input.now)) }
{
    let mins = n[MINS];
    let maxs = n[MAXS];
    let states = b[STATES];
    start(mins, maxs, states, room, list);
    let c = Gathered {
        ended: 0,
        listed: 0,
        counts: Counts {
            events: 0,
            values: 0,
            steps: 0,
        },
    };
    read_sections(
        b,
        n,
        how,
        input,
        &mut room[..need],
        &mut list[..mins.len()],
        events,
        values,
        c,
    )
}

pub(crate) fn sections_passed<'a>(
    b: Bytes<'a>,
    n: Numbers<'a>,
    how: How,
    input: &[u8],
    events: &mut [u8],
    values: &mut [u8],
    room: &mut [u8],
    list: &mut [u32],
) -> Answer
    requires { Checked (tables b n) input events values room list }
    ensures { let t = tables b.entry n.entry in
        left result events values room list
        ≡ leaves (lent events values room list) (ran t events values (scan_sections t how input.now)) }
{
    let mins = n[MINS];
    let tables = Tables {
        kinds: b[KINDS],
        refs: n[REFS],
        vecs: n[VECS],
        mins,
        maxs: n[MAXS],
        states: b[STATES],
        vec_refs: n[VEC_REFS],
    };
    let need = total_bytes(&tables);
    let part = sections_part(b, n, how, input, events, values, room, list, need);
    finish(events, values, room, list, need, mins.len(), part)
}
