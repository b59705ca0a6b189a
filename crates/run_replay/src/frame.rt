// The form of the list, as the comparison program writes it: frames, each a length of 2 bytes and so many bytes, and last an empty one. A frame
// whose first 2 bytes are 0 is a heading, with a name after them. Any other is a case: 21 numbers of 2 bytes, lists of 4-byte numbers, lists of bytes.
ghost use Rattle.std.specs.Prelude.{◌≤◌};

use buffer_contents::parts::{first_bytes, first_numbers, rest, rest_numbers};
use slices::usize_of_byte;

pub(crate) const ENTRY: usize = 0;

// The flag, and 2 more where reals follow it.
pub(crate) const FLAG: usize = 1;

// Lengths of the lists of numbers.
pub(crate) const REFS: usize = 2;

pub(crate) const VECS: usize = 3;

pub(crate) const MINS: usize = 4;

pub(crate) const MAXS: usize = 5;

pub(crate) const VEC_REFS: usize = 6;

// Lengths of the lists of bytes, of which the last two are what the outputs must hold.
pub(crate) const KINDS: usize = 7;

pub(crate) const STATES: usize = 8;

pub(crate) const INPUT: usize = 9;

pub(crate) const VALUE_INPUT: usize = 10;

pub(crate) const EVENTS: usize = 11;

pub(crate) const VALUES: usize = 12;

// Lengths of the lent rooms.
pub(crate) const EVENT_ROOM: usize = 13;

pub(crate) const VALUE_ROOM: usize = 14;

pub(crate) const BYTE_ROOM: usize = 15;

pub(crate) const NUMBER_ROOM: usize = 16;

// The answer's numbers that are no lengths above.
pub(crate) const NUMBER: usize = 17;

pub(crate) const PLACE: usize = 18;

pub(crate) const READ: usize = 19;

pub(crate) const STEPS: usize = 20;

const HEAD: usize = 42;

// The 2-byte number at a place.
fn pair(s: &[u8], at: usize) -> usize
    ensures { result ≤ 65535 }
{
    if s.len() < 2 {
        return 0;
    }
    if at <= s.len() - 2 {
        return usize_of_byte(s[at]) * 256 + usize_of_byte(s[at + 1]);
    }
    0
}

// What stands before a frame.
pub(crate) fn length_of(head: &[u8]) -> usize
    ensures { result ≤ 65535 }
{
    pair(head, 0)
}

// A number of a frame's head.
pub(crate) fn number(frame: &[u8], k: usize) -> usize
    ensures { result ≤ 65535 }
{
    if k < 21 {
        return pair(frame, 2 * k);
    }
    0
}

// The sum of the numbers of a head from one on, up to another.
fn sum(frame: &[u8], from: usize, to: usize) -> usize
    ensures { result ≤ 1376235 }
{
    let mut total: usize = 0;
    let mut k: usize = 0;
    while k < 21 {
        total += if_between(number(frame, k), from, k, to);
        k += 1;
    }
    total
}

fn if_between(x: usize, from: usize, k: usize, to: usize) -> usize
    requires { x ≤ 65535 }
    ensures { result ≤ 65535 }
{
    if k < from {
        return 0;
    }
    if k < to { x } else { 0 }
}

// How many numbers of 4 bytes there are.
fn count(frame: &[u8]) -> usize
    ensures { result ≤ 1376235 }
{
    sum(frame, REFS, KINDS)
}

// Whether a frame names an entry and is as long as its head says.
pub(crate) fn is_case(frame: &[u8]) -> bool {
    if 3 < number(frame, ENTRY) {
        return false;
    }
    HEAD + 4 * count(frame) + sum(frame, KINDS, EVENT_ROOM) == frame.len()
}

fn word(frame: &[u8], at: usize) -> u32 {
    if frame.len() < 4 {
        return 0;
    }
    if at <= frame.len() - 4 {
        return numbers::house::get_u32(frame, at);
    }
    0
}

pub(crate) fn least(a: usize, b: usize) -> usize
    ensures { (result ≤ a) × (result ≤ b) }
{
    if a < b { a } else { b }
}

// The numbers of 4 bytes, as far as there is room for them.
pub(crate) fn load(frame: &[u8], words: &mut [u32]) {
    let n = least(count(frame), words.len());
    let mut i: usize = 0;
    while i < n {
        words[i] = word(frame, HEAD + 4 * i);
        i += 1;
    }
}

// A list of numbers, of those that were loaded.
pub(crate) fn words_of<'a, 'b>(frame: &'a [u8], words: &'b [u32], k: usize) -> &'b [u32] {
    first_numbers(rest_numbers(words, sum(frame, REFS, k)), number(frame, k))
}

// A list of bytes.
pub(crate) fn bytes_of(frame: &[u8], k: usize) -> &[u8] {
    let at = HEAD + 4 * count(frame) + sum(frame, KINDS, k);
    first_bytes(rest(frame, at), number(frame, k))
}

// The name in a heading.
pub(crate) fn name(frame: &[u8]) -> &[u8] {
    rest(frame, 2)
}
