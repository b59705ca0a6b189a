// LEB128 numbers: what both readers find at a place; and tallies of every number of one and of two bytes, and of every cut of ten numbers.
ghost use Rattle.std.specs.Prelude.{◌≤◌, ◌<◌};

use crate::text;
use buffer_contents::byte_or_zero;
use buffer_contents::parts::first_bytes;
use leb128::LebError;
use std::io;

fn show(rt: &impl Print, r: Result<(u64, usize), LebError>, signed: bool) -> io::Result<()> {
    match r {
        Ok((v, next)) => {
            if signed {
                text::signed(rt, v)?;
            } else {
                text::decimal(rt, v)?;
            }
            text::say(rt, b" to ")?;
            text::decimal(rt, next as u64)
        }
        Err(LebError::Short) => text::say(rt, b"short"),
        Err(LebError::Large) => text::say(rt, b"large"),
    }
}

pub(crate) fn both(rt: &impl Print, label: &[u8], s: &[u8], at: usize) -> io::Result<()> {
    text::say(rt, label)?;
    text::say(rt, b": unsigned ")?;
    show(rt, leb128::unsigned(s, at), false)?;
    text::say(rt, b", signed ")?;
    show(rt, leb128::signed(s, at), true)?;
    text::say(rt, b"\n")
}

// The 64 bits of a number below `size` whose upper half, where there is a sign, stands for negative numbers.
fn with_sign(number: u64, size: u64, signed: bool) -> u64
    requires { (number < size) × (size ≤ 16384) }
{
    if !signed {
        return number;
    }
    if number < size / 2 {
        return number;
    }
    0xffff_ffff_ffff_ffff - (size - number) + 1
}

// 1 where a reading found this number, and this place after it.
fn found(r: Result<(u64, usize), LebError>, number: u64, place: usize) -> u64
    ensures { result ≤ 1 }
{
    match r {
        Ok((v, next)) => { if v == number && next == place { 1 } else { 0 } }
        Err(LebError::Short) => 0,
        Err(LebError::Large) => 0,
    }
}

// The same of the reader that is asked for; each by a call of its own, so that what was read is never laid down.
fn reads(s: &[u8], at: usize, signed: bool, number: u64, place: usize) -> u64
    ensures { result ≤ 1 }
{
    if signed {
        return found(leb128::signed(s, at), number, place);
    }
    found(leb128::unsigned(s, at), number, place)
}

fn one_byte(k: u64, signed: bool) -> u64
    ensures { result ≤ 1 }
{
    let s = [(k % 128) as u8, 0x55];
    reads(&s, 0, signed, with_sign(k % 128, 128, signed), 1)
}

fn two_bytes(k: u64, signed: bool) -> u64
    ensures { result ≤ 1 }
{
    let s = [0x55, (128 + k % 128) as u8, (k / 128 % 128) as u8, 0x55];
    reads(&s, 1, signed, with_sign(k % 16384, 16384, signed), 3)
}

// 1 where the input ends inside the number at its start.
fn cut_off(s: &[u8], signed: bool) -> u64
    ensures { result ≤ 1 }
{
    let short = if signed {
        matches!(leb128::signed(s, 0), Err(LebError::Short))
    } else {
        matches!(leb128::unsigned(s, 0), Err(LebError::Short))
    };
    if short { 1 } else { 0 }
}

// A number of n + 1 bytes, of which the input has the first k.
fn cut(n: usize, k: usize, signed: bool) -> u64
    requires { n < 12 }
    ensures { result ≤ 1 }
{
    let mut b = [0x80u8; 12];
    b[n] = 0;
    cut_off(first_bytes(&b, k), signed)
}

// The vector `k` of those of one byte, of two bytes, or cut: 1 where it comes out right.
fn right(which: u8, k: u64, signed: bool) -> u64
    ensures { result ≤ 1 }
{
    if which == b'1' {
        return one_byte(k, signed);
    }
    if which == b'2' {
        return two_bytes(k, signed);
    }
    let n = (k / 10 % 10) as usize;
    let most = (k % 10) as usize;
    if n < most {
        return 0;
    }
    cut(n, most, signed)
}

fn count(which: u8, turns: u64, signed: bool) -> u64 {
    let mut agree: u64 = 0;
    let mut k: u64 = 0;
    while k < turns {
        agree += right(which, k, signed);
        k += 1;
    }
    agree
}

// How many of some vectors come out as a plain formula has them, and how many do not.
pub(crate) fn tally(
    rt: &impl Print,
    label: &[u8],
    which: &[u8],
    turns: u64,
    all: u64,
) -> io::Result<()> {
    let agree = count(
        byte_or_zero(which, 0),
        turns,
        byte_or_zero(label, 0) == b's',
    );
    text::say(rt, label)?;
    text::say(rt, b": agree ")?;
    text::decimal(rt, agree)?;
    text::say(rt, b", differ ")?;
    if agree <= all {
        text::decimal(rt, all - agree)?;
    }
    text::say(rt, b"\n")
}
