// The runs of numbers that vector records are made flat into: least ids, greatest ids, references, and states behind them.
#![tactic(auto)]

ghost use Rattle.std.specs.Prelude.{◌≡◌, ◌+◌, ◌*◌, ◌≤◌, length, replicate};
ghost use Rattle.slices.specs.Splice.{part};

// A run of `n` numbers.
fn run_of(flat: &[u32], at: usize, n: usize) -> &[u32]
    requires { at + n ≤ length flat.now }
    ensures { result.now ≡ part flat.now at n }
{
    &flat[at..at + n]
}

pub fn least_ids(flat: &[u32], v: usize) -> &[u32]
    requires { v ≤ length flat.now }
    ensures { result.now ≡ part flat.now 0 v }
{
    run_of(flat, 0, v)
}

pub fn greatest_ids(flat: &[u32], v: usize) -> &[u32]
    requires { v + v ≤ length flat.now }
    ensures { result.now ≡ part flat.now v v }
{
    run_of(flat, v, v)
}

pub fn references(flat: &[u32], v: usize) -> &[u32]
    requires { 2 * v + v ≤ length flat.now }
    ensures { result.now ≡ part flat.now (2 * v) v }
{
    run_of(flat, 2 * v, v)
}

// They are a working buffer: all of it becomes zero.
pub fn clear_all(flat: &mut [u32])
    ensures { flat.new ≡ replicate (length flat.old) 0 }
{
    flat.fill(0);
}
