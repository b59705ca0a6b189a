// The packed working room that all vectors share, and the numbers beside it: where the bytes of each vector start, and which vectors are listed.
#![tactic(auto)]

ghost use Rattle.std.specs.Prelude.{◌≡◌, false, ◌+◌};
ghost use Rattle.vecmarks.specs.Info.{is_marked, with_mark};
ghost use Rattle.vecstarts.specs.Numbers.{listing};
ghost use Rattle.vecbuffer.specs.Changes.{Lent, Marks, marked, Updates, updated, Takes, taken};

use slices::{clear, copy_part};
use vecmarks::{VecBufferInfo, has_bit_changed, mark_bit_changed, mask_bytes, set_value};
use vecstarts::list_vector;

// Lists a vector that is not listed yet. Answers how many are listed.
fn list_signal(
    room: &mut [u8],
    list: &mut [u32],
    flags: VecBufferInfo,
    v: usize,
    count: usize,
) -> usize
    requires { Marks room.old list.old flags v count × (is_marked flags v room.old ≡ false) }
    ensures { Lent.mk room.new list.new result ≡ Lent.mk (with_mark flags v 1 room.old) (listing list.old count v) (count + 1) }
{
    list_vector(list, count, v);
    mark_bit_changed(room, flags, v);
    count + 1
}

// Says that a vector has marks, and lists it where it is not listed yet. Answers how many are listed.
pub fn mark_signal_changed(
    room: &mut [u8],
    list: &mut [u32],
    flags: VecBufferInfo,
    v: usize,
    count: usize,
) -> usize
    requires { Marks room.old list.old flags v count }
    ensures { Lent.mk room.new list.new result ≡ marked flags v count room.old list.old }
{
    if has_bit_changed(room, flags, v) {
        set_value(room, flags, v, 1);
        return count;
    }
    let next = list_signal(room, list, flags, v, count);
    set_value(room, flags, v, 1);
    next
}

// Rule (b): stores a bit and marks it, says that its vector has marks, and lists the vector. Answers how many are listed.
pub fn update_value(
    room: &mut [u8],
    list: &mut [u32],
    info: VecBufferInfo,
    flags: VecBufferInfo,
    v: usize,
    count: usize,
    bit: usize,
    value: u8,
) -> usize
    requires { Updates room.old list.old info flags v count bit value }
    ensures { Lent.mk room.new list.new result ≡ updated info flags v count bit value room.old list.old }
{
    set_value(room, info, bit, value);
    mark_bit_changed(room, info, bit);
    mark_signal_changed(room, list, flags, v, count)
}

// Copies the value bytes of a vector out, and clears its marks.
pub fn get_full_value_and_clear_changes(
    room: &mut [u8],
    info: VecBufferInfo,
    flags: VecBufferInfo,
    v: usize,
    values: &mut [u8],
    at: usize,
)
    requires { Takes room.old info flags v values.old at }
    ensures { (room.new, values.new) ≡ taken info flags v at room.old values.old }
{
    copy_part(room, info.start, info.bytes, values, at);
    clear(room, info.start + info.bytes, mask_bytes(info.width), 0);
    set_value(room, flags, v, 0);
}
