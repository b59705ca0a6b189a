// Values in packed bytes: fields of one bit or four, by shifts and masks.
#![tactic(auto)]

ghost use Rattle.std.specs.Prelude.{◌≡◌, ◌+◌, ◌-◌, ◌*◌, ◌≤◌, ◌<◌, ◌/◌, ◌%◌, ◌^◌, length, get_or, set};
ghost use Rattle.states.specs.Kind.{bits, per_byte};
ghost use Rattle.states.specs.Field.{field_get, field_set};
ghost use Rattle.states.specs.Packed.{field_at, set_at, value_place};

use states::States;

// A field of a byte, by shifts and masks.
fn get_field(byte: u8, shift: u32, width: u32, mask: u8) -> u8
    requires { (shift < 8) × (mask ≡ 2 ^ width - 1) }
    ensures { result ≡ field_get width shift byte }
{
    (byte >> shift) & mask
}

fn set_field(byte: u8, shift: u32, width: u32, mask: u8, value: u8) -> u8
    requires { (shift + width ≤ 8) × (0 < width) × (mask ≡ 2 ^ width - 1) × (value < 2 ^ width) }
    ensures { result ≡ field_set width shift byte value }
{
    (byte & !(mask << shift)) | (value << shift)
}

// The field whose lowest bit has the number `p` in `packed`, eight to a byte.
pub fn get_at(packed: &[u8], p: usize, width: u32, mask: u8) -> u8
    requires { (p / 8 < length packed.now) × (mask ≡ 2 ^ width - 1) }
    ensures { result ≡ field_at width p packed.now }
{
    get_field(packed[p / 8], (p % 8) as u32, width, mask)
}

pub fn set_at(packed: &mut [u8], p: usize, width: u32, mask: u8, value: u8)
    requires { (p / 8 < length packed.old) × (p % 8 + width ≤ 8) × (0 < width) × (mask ≡ 2 ^ width - 1) × (value < 2 ^ width) }
    ensures { packed.new ≡ set_at width p packed.old value }
{
    let i = p / 8;
    packed[i] = set_field(packed[i], (p % 8) as u32, width, mask, value);
}

// "Bit 0 lies lowest in the last byte": the byte of the `k`-th group of values.
fn from_last(bytes: usize, k: usize) -> usize
    requires { k < bytes }
    ensures { result ≡ bytes - 1 - k }
{
    bytes - 1 - k
}

// Where the value of a bit lies, of a vector whose `bytes` value bytes start at `at`.
fn value_place(states: States, at: usize, bytes: usize, bit: usize) -> usize
    requires { (bit < per_byte states * bytes) × (at + bytes ≤ 1073741823) }
    ensures { result ≡ value_place states at bytes bit }
{
    match states {
        States::Two => 8 * (at + from_last(bytes, bit / States::TWO_IN_A_BYTE))
            + bit % States::TWO_IN_A_BYTE,
        States::Nine => 8 * (at + from_last(bytes, bit / States::NINE_IN_A_BYTE))
            + bit % States::NINE_IN_A_BYTE * 4,
    }
}

// The value of a bit of a vector whose `bytes` value bytes start at `at` in `packed`.
pub fn get_value(packed: &[u8], states: States, at: usize, bytes: usize, bit: usize) -> u8
    requires { (bit < per_byte states * bytes) × (at + bytes ≤ length packed.now) × (at + bytes ≤ 1073741823) }
    ensures { result ≡ field_at (bits states) (value_place states at bytes bit) packed.now }
{
    let p = value_place(states, at, bytes, bit);
    get_at(packed, p, states.bits(), states.mask())
}

// One field of byte `i`.
fn set_in(packed: &mut [u8], i: usize, shift: usize, width: u32, mask: u8, value: u8)
    requires { (i < length packed.old) × (shift + width ≤ 8) × (0 < width) × (mask ≡ 2 ^ width - 1) × (value < 2 ^ width) }
    ensures { packed.new ≡ set packed.old i (field_set width shift (get_or packed.old i 0) value) }
{
    packed[i] = set_field(packed[i], shift as u32, width, mask, value);
}

// By the kind, so that byte and shift come without a sum that is taken apart again.
pub fn set_value(packed: &mut [u8], states: States, at: usize, bytes: usize, bit: usize, value: u8)
    requires { (bit < per_byte states * bytes) × (at + bytes ≤ length packed.old) × (at + bytes ≤ 1073741823) × (value < 2 ^ bits states) }
    ensures { packed.new ≡ set_at (bits states) (value_place states at bytes bit) packed.old value }
{
    match states {
        States::Two => set_in(
            packed,
            at + from_last(bytes, bit / States::TWO_IN_A_BYTE),
            bit % States::TWO_IN_A_BYTE,
            States::TWO_BITS,
            States::TWO_MASK,
            value,
        ),
        States::Nine => set_in(
            packed,
            at + from_last(bytes, bit / States::NINE_IN_A_BYTE),
            bit % States::NINE_IN_A_BYTE * 4,
            States::NINE_BITS,
            States::NINE_MASK,
            value,
        ),
    }
}
