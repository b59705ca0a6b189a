// What an item of the input does to one vector: which vector it is for, and its turn; and when a step's end has come to each.
#![tactic(auto)]

ghost use Rattle.std.specs.Prelude.{◌≡◌, ◌-◌, eqb, get_or};
ghost use Rattle.tables.specs.Lists.{nth};
ghost use Rattle.turns.specs.Turns.{Left};
ghost use Rattle.vector_turns.specs.OneVector.{IdIn, BitIn, Named, for_vector, Concerned, vector_of, Turning, turned, next_step};

use gather::{Gathered, VecInfo};
use section_heads::Said;
use slices::usize_of_u32;
use turns::{Turned, turn_end, turn_write};
use vecstarts::listed;

// The vector number of a signal, 0 for none.
fn vector_number(vecs: &[u32], id: usize) -> usize
    requires { IdIn vecs.now id }
    ensures { result ≡ nth vecs.now id }
{
    usize_of_u32(vecs[id - 1])
}

// "Bit number is max id minus id."
pub fn bit_number(maxs: &[u32], v: usize, id: usize) -> usize
    requires { BitIn maxs.now v id }
    ensures { result ≡ get_or maxs.now v 0 - id }
{
    usize_of_u32(maxs[v]) - id
}

// Whether an item concerns a vector: a write to it, or the step's end.
pub fn is_for_vector(vecs: &[u32], said: Said) -> bool
    requires { Named vecs.now said }
    ensures { result ≡ for_vector vecs.now said }
{
    match said {
        Said::Write { value: _, id } => vector_number(vecs, id) != 0,
        _ => true,
    }
}

// The vector of a write, or at a step's end the first that is listed.
pub fn vector_of(vecs: &[u32], list: &[u32], c: Gathered, said: Said) -> usize
    requires { Concerned vecs.now list.now c said }
    ensures { result ≡ vector_of vecs.now list.now c said }
{
    match said {
        Said::Write { value: _, id } => vector_number(vecs, id) - 1,
        _ => listed(list, c.ended),
    }
}

// What an item does to a vector.
pub fn turn(
    room: &mut [u8],
    list: &mut [u32],
    maxs: &[u32],
    x: VecInfo,
    c: Gathered,
    said: Said,
) -> Turned
    requires { Turning room.old list.old maxs.now x c said }
    ensures { Left.mk room.new list.new result
        ≡ turned maxs.now x c said room.old list.old }
{
    match said {
        Said::Write { value, id } => {
            let bit = bit_number(maxs, x.v, id);
            turn_write(room, list, x, c, bit, (value % 256) as u8)
        }
        _ => turn_end(room, x, c),
    }
}

// Whether the step's end has come to each vector listed.
pub fn all_ended(c: Gathered) -> bool
    ensures { result ≡ eqb c.ended c.listed }
{
    c.ended == c.listed
}

// After the step's end: nothing is listed.
pub fn next_step(c: Gathered) -> Gathered
    ensures { result ≡ next_step c }
{
    let counts = c.counts;
    Gathered {
        ended: 0,
        listed: 0,
        counts,
    }
}
