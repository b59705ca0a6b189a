// Parts of slices: copied, written, zeroed; and numbers in a wider type.
#![tactic(auto)]

ghost use Rattle.std.specs.Prelude.{◌≡◌, ◌+◌, ◌<◌, ◌≤◌, length, replicate};
ghost use Rattle.slices.specs.Field.{field_of};
ghost use Rattle.slices.specs.Splice.{splice, part};

// The place after a field of `n` bytes at `at`, where the input does not end before that.
pub fn field_at(s: &[u8], at: usize, n: usize) -> Option<usize>
    ensures { result ≡ field_of n s.now at }
{
    if s.len() < n {
        return None;
    }
    if at <= s.len() - n {
        Some(at + n)
    } else {
        None
    }
}

// `count` bytes of `src` from `from` on, to `dst` at `at`.
pub fn copy_part(src: &[u8], from: usize, count: usize, dst: &mut [u8], at: usize)
    requires { (from + count ≤ length src.now) × (at + count ≤ length dst.old) }
    ensures { dst.new ≡ splice dst.old at (part src.now from count) }
{
    // Not by `copy_from_slice`, which forgets that the two lie apart, and becomes a `memmove`.
    for i in 0..count {
        dst[at + i] = src[from + i];
    }
}

// All of `bytes`, to `dst` at `at`.
pub fn write_at(dst: &mut [u8], at: usize, bytes: &[u8])
    requires { at + length bytes.now ≤ length dst.old }
    ensures { dst.new ≡ splice dst.old at bytes.now }
{
    copy_part(bytes, 0, bytes.len(), dst, at);
}

// `count` elements of `dst` from `at` on become `zero`. Not by `fill`, which asks of a type parameter that its clone is a copy.
pub fn clear<T: Copy>(dst: &mut [T], at: usize, count: usize, zero: T)
    requires { at + count ≤ length dst.old }
    ensures { dst.new ≡ splice dst.old at (replicate count zero) }
{
    for x in &mut dst[at..at + count] {
        *x = zero;
    }
}

// Numbers as they are, in a wider type.
pub fn usize_of_byte(x: u8) -> usize
    ensures { (result ≡ x) × (result ≤ 255) }
{
    x as usize
}

pub fn u32_of_byte(x: u8) -> u32
    ensures { (result ≡ x) × (result ≤ 255) }
{
    x as u32
}

pub fn u64_of_byte(x: u8) -> u64
    ensures { result ≡ x }
{
    x as u64
}

pub fn usize_of_u32(x: u32) -> usize
    ensures { (result ≡ x) × (result < 4294967296) }
{
    x as usize
}

pub fn u64_of_u32(x: u32) -> u64
    ensures { result ≡ x }
{
    x as u64
}

pub fn u64_of_usize(x: usize) -> u64
    ensures { result ≡ x }
{
    x as u64
}
