// Check 5: each id in a vector's range names that vector.
#![tactic(auto)]

ghost use Rattle.std.specs.Prelude.{◌≡◌, ◌+◌, ◌≤◌, ◌<◌, length, get_or};
ghost use Rattle.tables.specs.Checks.{check5};
ghost use Rattle.tables.specs.Checks.Loops.{Stranger};
ghost use Rattle.tables.specs.Good.{Sized, Ranged};

use refusals::{Reason, Refusal};
use slices::usize_of_u32;
use tables::{Check, Tables};

// The lowest id of `min..=max` that is below `best` and doesn't name the vector `number`, or else `best`. The ids that it passes name the vector,
// so that all vectors together pass no more ids than there are.
fn stranger(vecs: &[u32], number: u32, min: usize, max: usize, best: usize) -> usize
    requires { (1 ≤ min) × (best ≤ length vecs.now + 1) }
    ensures { Stranger vecs.now number min max best result }
{
    for id in min..best {
        if max < id {
            return best;
        }
        if vecs[id - 1] != number {
            return id;
        }
    }
    best
}

// The same of the vector with the index `v`.
fn stranger_in(tables: &Tables, v: usize, best: usize) -> usize
    requires { Sized tables.now × Ranged tables.now × (v < length tables.now.mins) × (best ≤ length tables.now.kinds + 1) }
    ensures { Stranger tables.now.vecs (v + 1) (get_or tables.now.mins v 0) (get_or tables.now.maxs v 0) best result }
{
    stranger(
        tables.vecs,
        v as u32 + 1,
        usize_of_u32(tables.mins[v]),
        usize_of_u32(tables.maxs[v]),
        best,
    )
}

// Check 5.
pub fn check_names(tables: &Tables) -> Check
    requires { Sized tables.now × Ranged tables.now }
    ensures { result ≡ check5 tables.now }
{
    let end = tables.kinds.len() + 1;
    let mut best = end;
    for v in 0..tables.mins.len() {
        best = stranger_in(tables, v, best);
    }
    if best <= tables.kinds.len() {
        return Err(Refusal(Reason::Range as u64, best));
    }
    Ok(())
}
