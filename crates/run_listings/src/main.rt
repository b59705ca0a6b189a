// Section reading on inputs of some size: those of the readings that are too large to be stored, and the listings of real files, each a line of standard input
// in hex; `#` begins a remark.
#![tactic(auto)]

mod large;

use buffer_contents::byte_or_zero;
use buffer_contents::parts::{first_bytes, rest};
use cases::{after, before, unhex};
use full_reads::read_full;
use std::io;

fn show(rt: &impl Print, input: &[u8]) -> io::Result<()> {
    let mut text = [0u8; 65536];
    let k = listing_text::print(input, &mut text);
    rt.write_all(&text[..k])
}

fn one(rt: &impl Print, line: &[u8]) -> io::Result<()> {
    if byte_or_zero(line, 0) == b'#' {
        return Ok(());
    }
    let mut input = [0u8; 8192];
    let n = unhex(line, &mut input);
    show(rt, first_bytes(&input, n))
}

fn all(rt: &impl Print, text: &[u8]) -> io::Result<()> {
    let mut at: usize = 0;
    let mut left: usize = text.len();
    while 0 < left {
        if text.len() <= at {
            return Ok(());
        }
        one(rt, before(rest(text, at), b'\n'))?;
        at = after(text, b'\n', at);
        left -= 1;
    }
    Ok(())
}

fn main(rt: HostRuntime) -> io::Result<()> {
    large::all(&rt)?;
    let mut text = [0u8; 65536];
    let n = read_full(&mut rt.reader(), &mut text)?;
    all(&rt, &text[..n])
}
