// "Integers of fixed size follow the flag."
ghost use Rattle.std.specs.Prelude.{◌≡◌, ◌+◌, ◌≤◌, length};
ghost use Rattle.slices.specs.Splice.{part};
ghost use Rattle.numbers.specs.Fixed.{little, fixed, positive};

use crate::house::get_u32;

// A signed number of 64 bits, as its bits.
pub fn read_i64(big_endian: bool, s: &[u8], at: usize) -> u64
    requires { at + 8 ≤ length s.now }
    ensures { result ≡ fixed big_endian (part s.now at 8) }
{
    let first = read_i32(big_endian, s, at);
    let last = read_i32(big_endian, s, at + 4);
    if big_endian {
        first as u64 * 0x1_0000_0000 + last as u64
    } else {
        last as u64 * 0x1_0000_0000 + first as u64
    }
}

// A signed number of 32 bits, where it is not negative.
pub fn read_u32(big_endian: bool, s: &[u8], at: usize) -> Option<u32>
    requires { at + 4 ≤ length s.now }
    ensures { result ≡ positive (fixed big_endian (part s.now at 4)) }
{
    let v = read_i32(big_endian, s, at);
    if v < 0x8000_0000 { Some(v) } else { None }
}

// A signed number of 32 bits, as its bits.
fn read_i32(big_endian: bool, s: &[u8], at: usize) -> u32
    requires { at + 4 ≤ length s.now }
    ensures { result ≡ fixed big_endian (part s.now at 4) }
{
    if big_endian {
        get_u32(s, at)
    } else {
        little_u32(s, at)
    }
}

fn little_u32(s: &[u8], at: usize) -> u32
    requires { at + 4 ≤ length s.now }
    ensures { result ≡ little (part s.now at 4) }
{
    u32::from_le_bytes([s[at], s[at + 1], s[at + 2], s[at + 3]])
}
