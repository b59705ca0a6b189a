// Bytes and numbers written to a buffer where they fit: LEB128, DWARF 5 section 7.6, in its shortest form, and numbers of fixed size.
#![tactic(auto)]

ghost use Rattle.std.specs.Prelude.{◌≡◌, [], ◌∷◌, ◌≤◌, length};
ghost use Rattle.slices.specs.Field.{field_of};
ghost use Rattle.slices.specs.Splice.{splice, part};
ghost use Rattle.leb128.specs.Shortest.{fits, rest, leb_bytes, unsigned_bytes, signed_bytes};
ghost use Rattle.number_writer.specs.Little.{little_bytes, fixed_bytes};
ghost use Rattle.numbers.specs.Fixed.{big_bytes};
ghost use Rattle.number_writer.specs.Put.{after_put};

use refusals::Refusal;
use slices::copy_part;

// What a call that fills one output has done: the bytes read and written, and the steps counted.
#[derive(Clone, Copy, PartialEq, Eq, Debug)]
pub struct Done {
    pub read: usize,
    pub count: usize,
    pub steps: u64,
}

// How such a call ends.
pub type Written = Result<Done, Refusal>;

// What is left lies within seven bits.
fn fits(signed: bool, left: u64) -> bool
    ensures { result ≡ fits signed left }
{
    if signed {
        if left < 64 {
            return true;
        }
        return 0xffff_ffff_ffff_ffc0 <= left;
    }
    left < 128
}

// What is left after the low seven bits.
fn rest(signed: bool, left: u64) -> u64
    ensures { result ≡ rest signed left }
{
    if signed {
        if left < 0x8000_0000_0000_0000 {
            return left / 128;
        }
        return left / 128 + 0xfe00_0000_0000_0000;
    }
    left / 128
}

// A number's bytes at the front of `bytes`, and how many they are.
fn encode(bytes: &mut [u8], signed: bool, n: u64) -> usize
    requires { 10 ≤ length bytes.old }
    ensures { (bytes.new ≡ splice bytes.old 0 (leb_bytes signed n)) × (result ≡ length (leb_bytes signed n)) × (result ≤ 10) }
{
    let mut left = n;
    for i in 0..9 {
        if fits(signed, left) {
            bytes[i] = (left % 128) as u8;
            return i + 1;
        }
        bytes[i] = (128 + left % 128) as u8;
        left = rest(signed, left);
    }
    bytes[9] = (left % 128) as u8;
    10
}

// The first `count` of `bytes` to `out` at `at`, and the place after them, where they fit; otherwise nothing is written.
fn put_front(out: &mut [u8], at: usize, bytes: &[u8], count: usize) -> Option<usize>
    requires { count ≤ length bytes.now }
    ensures { (result ≡ field_of count out.old at) × (out.new ≡ after_put out.old at (part bytes.now 0 count)) }
{
    if out.len() < count {
        return None;
    }
    if out.len() - count < at {
        return None;
    }
    copy_part(bytes, 0, count, out, at);
    Some(at + count)
}

// All of `bytes`.
pub fn put_bytes(out: &mut [u8], at: usize, bytes: &[u8]) -> Option<usize>
    ensures { (result ≡ field_of (length bytes.now) out.old at) × (out.new ≡ after_put out.old at bytes.now) }
{
    put_front(out, at, bytes, bytes.len())
}

// One byte.
pub fn put_byte(out: &mut [u8], at: usize, b: u8) -> Option<usize>
    ensures { (result ≡ field_of 1 out.old at) × (out.new ≡ after_put out.old at (b ∷ [])) }
{
    let one: [u8; 1] = [b];
    put_bytes(out, at, &one)
}

// A number's bytes.
fn put(out: &mut [u8], at: usize, signed: bool, n: u64) -> Option<usize>
    ensures { (result ≡ field_of (length (leb_bytes signed n)) out.old at) × (out.new ≡ after_put out.old at (leb_bytes signed n)) }
{
    let mut bytes: [u8; 10] = [0; 10];
    let count = encode(&mut bytes, signed, n);
    put_front(out, at, &bytes, count)
}

pub fn put_unsigned(out: &mut [u8], at: usize, n: u64) -> Option<usize>
    ensures { (result ≡ field_of (length (unsigned_bytes n)) out.old at) × (out.new ≡ after_put out.old at (unsigned_bytes n)) }
{
    put(out, at, false, n)
}

// A signed number, given as its 64 bits.
pub fn put_signed(out: &mut [u8], at: usize, n: u64) -> Option<usize>
    ensures { (result ≡ field_of (length (signed_bytes n)) out.old at) × (out.new ≡ after_put out.old at (signed_bytes n)) }
{
    put(out, at, true, n)
}

fn put_little(out: &mut [u8], at: usize, v: u64) -> Option<usize>
    ensures { (result ≡ field_of 8 out.old at) × (out.new ≡ after_put out.old at (little_bytes 8 v)) }
{
    put_bytes(out, at, &v.to_le_bytes())
}

fn put_big(out: &mut [u8], at: usize, v: u64) -> Option<usize>
    ensures { (result ≡ field_of 8 out.old at) × (out.new ≡ after_put out.old at (big_bytes 8 v)) }
{
    put_bytes(out, at, &v.to_be_bytes())
}

pub fn put_fixed(out: &mut [u8], at: usize, big_endian: bool, v: u64) -> Option<usize>
    ensures { (result ≡ field_of 8 out.old at) × (out.new ≡ after_put out.old at (fixed_bytes big_endian 8 v)) }
{
    if big_endian {
        put_big(out, at, v)
    } else {
        put_little(out, at, v)
    }
}
