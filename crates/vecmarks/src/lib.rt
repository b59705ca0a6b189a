// The values and marks of one vector in the working room, by where its bytes lie.
#![tactic(auto)]

ghost use Rattle.std.specs.Prelude.{◌≡◌, not, cond, ◌+◌, ◌<◌, ◌^◌};
ghost use Rattle.states.specs.declared.States.TheVariants.{Two};
ghost use Rattle.states.specs.Kind.{bits, bytes_required};
ghost use Rattle.vecmarks.specs.Info.{Inside, value_of, with_value, is_marked, with_mark, is_second, has_marks, is_quiet, with_bit};

use packed_values::{get_at, set_at};
use states::States;

// Where the bytes of a vector lie: its value bytes from `start` on, and its mask bytes behind them.
#[derive(Clone, Copy)]
pub struct VecBufferInfo {
    pub start: usize,
    pub bytes: usize,
    pub width: usize,
    pub states: States,
}

pub fn get_value(room: &[u8], info: VecBufferInfo, bit: usize) -> u8
    requires { Inside room.now info × (bit < info.width) }
    ensures { result ≡ value_of info bit room.now }
{
    let kind = info.states;
    packed_values::get_value(room, kind, info.start, info.bytes, bit)
}

pub fn set_value(room: &mut [u8], info: VecBufferInfo, bit: usize, value: u8)
    requires { Inside room.old info × (bit < info.width) × (value < 2 ^ bits info.states) }
    ensures { room.new ≡ with_value info bit value room.old }
{
    let kind = info.states;
    packed_values::set_value(room, kind, info.start, info.bytes, bit, value);
}

// Whether a bit was written since the last event of its vector.
pub fn has_bit_changed(room: &[u8], info: VecBufferInfo, bit: usize) -> bool
    requires { Inside room.now info × (bit < info.width) }
    ensures { result ≡ is_marked info bit room.now }
{
    get_at(room, 8 * (info.start + info.bytes) + bit, 1, 1) == 1
}

pub fn mark_bit_changed(room: &mut [u8], info: VecBufferInfo, bit: usize)
    requires { Inside room.old info × (bit < info.width) }
    ensures { room.new ≡ with_mark info bit 1 room.old }
{
    set_at(room, 8 * (info.start + info.bytes) + bit, 1, 1, 1);
}

// Rule (a): the bit was written since the last event of its vector, and the new value differs.
pub fn is_second_change(room: &[u8], info: VecBufferInfo, bit: usize, value: u8) -> bool
    requires { Inside room.now info × (bit < info.width) }
    ensures { result ≡ is_second info bit value room.now }
{
    if has_bit_changed(room, info, bit) {
        value != get_value(room, info, bit)
    } else {
        false
    }
}

pub fn mask_bytes(width: usize) -> usize
    ensures { result ≡ bytes_required Two width }
{
    States::Two.bytes_required(width)
}

// Whether a vector has marks.
pub fn has_signal_changed(room: &[u8], flags: VecBufferInfo, v: usize) -> bool
    requires { Inside room.now flags × (v < flags.width) }
    ensures { result ≡ has_marks flags v room.now }
{
    get_value(room, flags, v) == 1
}

// Whether a write to a bit above 0 that is not marked makes no event and lists nothing.
pub fn is_quiet(room: &[u8], info: VecBufferInfo, flags: VecBufferInfo, v: usize) -> bool
    requires { Inside room.now info × (0 < info.width) × Inside room.now flags × (v < flags.width) }
    ensures { result ≡ is_quiet info flags v room.now }
{
    if !has_signal_changed(room, flags, v) {
        return false;
    }
    if !has_bit_changed(room, flags, v) {
        return false;
    }
    !has_bit_changed(room, info, 0)
}

// Stores a bit and marks it where it is not marked, and says whether it was not.
pub fn write_new(room: &mut [u8], info: VecBufferInfo, bit: usize, value: u8) -> bool
    requires { Inside room.old info × (bit < info.width) × (value < 2 ^ bits info.states) }
    ensures told { result ≡ not (is_marked info bit room.old) }
    ensures bytes { room.new ≡ cond (is_marked info bit room.old) room.old (with_bit info bit value room.old) }
{
    if !has_bit_changed(room, info, bit) {
        set_value(room, info, bit, value);
        mark_bit_changed(room, info, bit);
        return true;
    }
    false
}

// Takes a vector off the list, at the end of a step.
pub fn unlist(room: &mut [u8], flags: VecBufferInfo, v: usize)
    requires { Inside room.old flags × (v < flags.width) }
    ensures { room.new ≡ with_mark flags v 0 room.old }
{
    set_at(room, 8 * (flags.start + flags.bytes) + v, 1, 1, 0);
}
