// Section bytes read back into change records: the face.
#![tactic(auto)]

ghost use Rattle.std.specs.Prelude.{◌≡◌, length};
ghost use Rattle.entries.specs.Written.{read_back};
ghost use Rattle.entries.specs.Faces.{tables, left_in};

use answers::Answer;
use answers::kept::{end_filled, refuse_kept};
use checks::checks_without_room;
use read_back::read_back;
use tables::Tables;

pub fn doorquill_read_back(
    kinds: &[u8],
    refs: &[u32],
    vecs: &[u32],
    mins: &[u32],
    maxs: &[u32],
    states: &[u8],
    vec_refs: &[u32],
    big_endian: bool,
    input: &[u8],
    out: &mut [u8],
) -> Answer
    ensures { let t = tables kinds refs vecs mins maxs states vec_refs in
        left_in result out ≡ read_back t big_endian input.now (length out.old) }
{
    let tables = Tables {
        kinds,
        refs,
        vecs,
        mins,
        maxs,
        states,
        vec_refs,
    };
    match checks_without_room(&tables, input.len(), out.len()) {
        Ok(()) => {
            let w = read_back(kinds, big_endian, input, out);
            end_filled(out, w)
        }
        Err(refusal) => refuse_kept(out, refusal.number(), refusal.place() as u64),
    }
}
