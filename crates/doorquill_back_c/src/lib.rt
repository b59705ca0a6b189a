// Section bytes read back into change records, as C calls it.
// Each export is the library's function of that name, with its clauses.
#![tactic(auto)]

ghost use Rattle.std.specs.Prelude.{◌≡◌, length};
ghost use Rattle.entries.specs.Written.{read_back};
ghost use Rattle.entries.specs.Faces.{tables, left_in};

use answers::Answer;

#[unsafe(no_mangle)]
pub extern "C" fn doorquill_read_back(
    kinds: &[u8],
    refs: &[u32],
    vecs: &[u32],
    mins: &[u32],
    maxs: &[u32],
    states: &[u8],
    vec_refs: &[u32],
    big_endian: bool,
    input: &[u8],
    out: &mut [u8],
) -> Answer
    ensures { let t = tables kinds refs vecs mins maxs states vec_refs in
        left_in result out ≡ read_back t big_endian input.now (length out.old) }
{
    doorquill_back::doorquill_read_back(
        kinds, refs, vecs, mins, maxs, states, vec_refs, big_endian, input, out,
    )
}
