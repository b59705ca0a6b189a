// Integers of fixed size by the flag, and house numbers.
ghost use Rattle.std.specs.Prelude.{◌+◌, ◌≤◌, length};

use crate::text;
use cases::{number, part};
use numbers::{fixed, house};
use std::io;

fn show(rt: &impl Print, p: Option<u32>) -> io::Result<()> {
    match p {
        Some(n) => text::decimal(rt, n as u64),
        None => text::say(rt, b"negative"),
    }
}

fn by_flag(rt: &impl Print, words: &[u8], big_endian: bool, s: &[u8], at: usize) -> io::Result<()>
    requires { at + 8 ≤ length s.now }
{
    text::say(rt, words)?;
    text::signed(rt, fixed::read_i64(big_endian, s, at))?;
    text::say(rt, b" ")?;
    show(rt, fixed::read_u32(big_endian, s, at))
}

pub(crate) fn integers(rt: &impl Print, label: &[u8], s: &[u8], at: usize) -> io::Result<()> {
    if s.len() < 8 {
        return Ok(());
    }
    if s.len() - 8 < at {
        return Ok(());
    }
    text::say(rt, label)?;
    by_flag(rt, b": big ", true, s, at)?;
    by_flag(rt, b", little ", false, s, at)?;
    text::say(rt, b", real ")?;
    text::decimal(rt, fixed::read_i64(false, s, at))?;
    text::say(rt, b"\n")
}

fn dump(rt: &impl Print, s: &[u8]) -> io::Result<()> {
    let mut i: usize = 0;
    while i < s.len() {
        text::hex(rt, s[i])?;
        i += 1;
    }
    Ok(())
}

// Two numbers, the second told by its halves, written into bytes that are all `ee`, and read back.
pub(crate) fn house_pair(rt: &impl Print, first: &[u8], second: &[u8]) -> io::Result<()> {
    let v = (number(first) % 4294967296) as u32;
    let high = number(part(second, b' ', 0)) % 4294967296;
    let w = high * 4294967296 + number(part(second, b' ', 1)) % 4294967296;
    let mut b = [0xeeu8; 16];
    house::put_u32(&mut b, 2, v);
    house::put_u64(&mut b, 7, w);
    dump(rt, &b)?;
    text::say(rt, b": ")?;
    text::decimal(rt, house::get_u32(&b, 2) as u64)?;
    text::say(rt, b" ")?;
    text::decimal(rt, house::get_u64(&b, 7))?;
    text::say(rt, b"\n")
}
