// Rule (c)'s test, on the mask bytes of one vector.
#![tactic(auto)]

ghost use Rattle.std.specs.Prelude.{◌≡◌, ◌+◌, ◌-◌, ◌<◌, ◌≤◌, ◌^◌, length};
ghost use Rattle.states.specs.declared.States.TheVariants.{Two};
ghost use Rattle.states.specs.Kind.{bytes_required};
ghost use Rattle.vecmarks.specs.Info.{Inside, marks_of};
ghost use Rattle.vecmarks.specs.Full.{all_full, full_in};

use vecmarks::{VecBufferInfo, mask_bytes};

// Whether each byte has all its bits set.
fn all_full(bytes: &[u8]) -> bool
    ensures { result ≡ all_full bytes.now }
{
    bytes.iter().all(|byte| *byte == 255)
}

// The same, the last byte asked first: a list that falls fills it last.
fn all_full_by_last(bytes: &[u8]) -> bool
    ensures { result ≡ all_full bytes.now }
{
    match bytes {
        [] => true,
        [rest @ .., last] => *last == 255 && all_full(rest),
    }
}

// The mask of the lowest `k` bits.
fn low_bits(k: usize) -> u8
    requires { k < 8 }
    ensures { result ≡ 2 ^ k - 1 }
{
    (1 << (k as u32)) - 1
}

// Rule (c), as the Rust tests it: the first mask byte is skipped unless the width is a multiple of 8, all others must be full, and the one skipped must
// have the bits that the width leaves over.
fn full_in(marks: &[u8], width: usize) -> bool
    requires { length marks.now ≡ bytes_required Two width }
    ensures { result ≡ full_in width marks.now }
{
    let over = width % 8;
    if over == 0 {
        return all_full_by_last(marks);
    }
    all_full_by_last(&marks[1..]) && marks[0] == low_bits(over)
}

pub fn full_signal_has_changed(room: &[u8], info: VecBufferInfo) -> bool
    requires { Inside room.now info }
    ensures { result ≡ full_in info.width (marks_of info room.now) }
{
    let at = info.start + info.bytes;
    full_in(&room[at..at + mask_bytes(info.width)], info.width)
}
