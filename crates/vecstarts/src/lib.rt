// The numbers beside the working room: where the bytes of each vector start, and which vectors are listed.
#![tactic(auto)]

ghost use Rattle.std.specs.Prelude.{◌≡◌, ◌+◌, ◌-◌, ◌<◌, ◌≤◌, length, get_or};
ghost use Rattle.states.specs.declared.States.TheVariants.{Two};
ghost use Rattle.states.specs.Kind.{bytes_required};
ghost use Rattle.vecmarks.specs.Info.{info_at};
ghost use Rattle.vecstarts.specs.Numbers.{layout_from, Shapes, Started, start_in, listed_in, listing, filled};

use slices::usize_of_u32;
use states::States;
use vecmarks::{VecBufferInfo, mask_bytes};

// Where the bytes of vector `v` start; at the number of vectors, where the flags start.
fn start_of(list: &[u32], v: usize) -> usize
    requires { v ≤ length list.now }
    ensures { result ≡ start_in list.now v }
{
    if v == 0 {
        0
    } else {
        usize_of_u32(list[v - 1] % 65536)
    }
}

// The vector listed as the `i`-th.
pub fn listed(list: &[u32], i: usize) -> usize
    requires { i < length list.now }
    ensures { result ≡ listed_in list.now i }
{
    usize_of_u32(list[i] / 65536)
}

pub fn list_vector(list: &mut [u32], i: usize, v: usize)
    requires { (i < length list.old) × (v < 16384) }
    ensures { list.new ≡ listing list.old i v }
{
    list[i] = v as u32 * 65536 + list[i] % 65536;
}

fn width_of(mins: &[u32], maxs: &[u32], v: usize) -> usize
    requires { (v < length mins.now) × (v < length maxs.now) × (get_or mins.now v 0 ≤ get_or maxs.now v 0) }
    ensures { (result ≡ get_or maxs.now v 0 - get_or mins.now v 0 + 1) × (result ≤ 4294967296) }
{
    usize_of_u32(maxs[v] - mins[v]) + 1
}

// The value bytes and the mask bytes of a vector.
fn chunk_bytes(states: States, width: usize) -> usize
    requires { width ≤ 4294967296 }
    ensures { result ≡ bytes_required states width + bytes_required Two width }
{
    states.bytes_required(width) + mask_bytes(width)
}

// Puts the start of each vector but the first, and of the flags, into the numbers.
pub fn fill_starts(mins: &[u32], maxs: &[u32], states: &[u8], list: &mut [u32])
    requires { Shapes mins.now maxs.now states.now × (length mins.now ≤ length list.old) }
    ensures { list.new ≡ filled (layout_from mins.now maxs.now states.now) list.old (length mins.now) }
{
    let mut at: usize = 0;
    for i in 0..mins.len() {
        at += chunk_bytes(States::of(states[i]), width_of(mins, maxs, i));
        list[i] = at as u32;
    }
}

// Where the bytes of vector `v` lie.
pub fn info_of(mins: &[u32], maxs: &[u32], states: &[u8], list: &[u32], v: usize) -> VecBufferInfo
    requires { Shapes mins.now maxs.now states.now × Started (layout_from mins.now maxs.now states.now) list.now × (v < length mins.now) }
    ensures { result ≡ info_at (layout_from mins.now maxs.now states.now) v }
{
    let kind = States::of(states[v]);
    let width = width_of(mins, maxs, v);
    VecBufferInfo {
        start: start_of(list, v),
        bytes: kind.bytes_required(width),
        width,
        states: kind,
    }
}

// Where the flags of all vectors lie: a bit for each, whose value says that the vector has marks and whose mark says that it is listed.
pub fn flags_of(mins: &[u32], maxs: &[u32], states: &[u8], list: &[u32]) -> VecBufferInfo
    requires { Shapes mins.now maxs.now states.now × Started (layout_from mins.now maxs.now states.now) list.now }
    ensures { result ≡ info_at (layout_from mins.now maxs.now states.now) (length mins.now) }
{
    let width = mins.len();
    VecBufferInfo {
        start: start_of(list, width),
        bytes: mask_bytes(width),
        width,
        states: States::Two,
    }
}
