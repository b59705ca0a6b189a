// Stored cases as text: parts between marks, numbers, and lists of them.
#![tactic(auto)]

mod error;

ghost use Rattle.std.specs.Prelude.{◌≡◌, ◌==◌, ◌<◌, ◌≤◌, length, drop, IfSome};
ghost use Rattle.std.specs.List.{position};
ghost use Rattle.cases.specs.Cases.{before, after, part, digit, spelled, Listed, Unhexed};

use buffer_contents::parts::rest;
pub use error::CaseError;

fn find(s: &[u8], b: u8) -> Option<usize>
    ensures value { result ≡ position (λ x. x == b) s.now }
    ensures bound { IfSome result (λ i. i < length s.now) }
{
    s.iter().position(|x| *x == b)
}

// The bytes before the first `b`, or all, and those after it.
#[tactic(auto, using(crate::specs::Cases::Code::cut_laws))]
pub fn split_once(s: &[u8], b: u8) -> (&[u8], &[u8])
    ensures before { result.0.now ≡ before b s.now }
    ensures after { result.1.now ≡ after b s.now }
{
    match find(s, b) {
        Some(i) => (&s[..i], &s[i + 1..]),
        None => (s, &[]),
    }
}

// The bytes before the first `b`, or all.
pub fn before(s: &[u8], b: u8) -> &[u8]
    ensures { result.now ≡ before b s.now }
{
    split_once(s, b).0
}

// From a place, the next place after a `b`, or the end; never one before it.
#[tactic(auto, using(crate::specs::Cases::Code::place_laws))]
pub fn after(s: &[u8], b: u8, at: usize) -> usize
    ensures place { drop result s.now ≡ after b (drop at s.now) }
    ensures onward { at ≤ result }
{
    match find(rest(s, at), b) {
        Some(i) => at + i + 1,
        None => at.max(s.len()),
    }
}

// The part number `k`, from 0, of those that `b` stands between.
pub fn part(s: &[u8], b: u8, k: usize) -> &[u8]
    ensures { result.now ≡ part b k s.now }
{
    s.split(|x| *x == b).nth(k).unwrap_or(&[])
}

// The digit that a byte stands for.
#[tactic(auto, using(crate::specs::Cases::Code::digit_laws))]
fn digit(c: u8) -> u8
    ensures value { result ≡ digit c }
    ensures upper_bound { result ≤ 15 }
{
    match c {
        ..=b'9' => c.saturating_sub(b'0'),
        _ => c.saturating_sub(b'a' - 10) % 16,
    }
}

// The number that decimal digits spell.
#[tactic(auto, using(crate::specs::Cases::Code::spelled_is))]
pub fn number(s: &[u8]) -> u64
    ensures { result ≡ spelled 0 s.now }
{
    s.iter().fold(
        0,
        |v, c| v % 1152921504606846976 * 10 + u64::from(digit(*c)),
    )
}

// The numbers between spaces, as many as there is room for, and how many that is.
#[tactic(auto, using(crate::specs::Cases::Code::list_laws))]
pub fn numbers(s: &[u8], out: &mut [u32]) -> usize
    ensures { Listed s.now out.new result }
{
    let mut left = s;
    // By index, here and below: no clause says what an adapter of `iter_mut` wrote.
    for i in 0..out.len() {
        if left.is_empty() {
            return i;
        }
        let (word, next) = split_once(left, b' ');
        out[i] = (number(word) % 4294967296) as u32;
        left = next;
    }
    out.len()
}

// The bytes that pairs of hex digits stand for, as many as there is room for, and how many that is.
#[tactic(auto, using(crate::specs::Cases::Code::pair_laws))]
pub fn unhex(s: &[u8], out: &mut [u8]) -> usize
    ensures { Unhexed s.now out.new result }
{
    let n = out.len().min(s.len() / 2);
    for i in 0..n {
        out[i] = digit(s[2 * i]) * 16 + digit(s[2 * i + 1]);
    }
    n
}
