// Runs the checks on stored tables of every kind and at the limits, and prints the two numbers of each answer. A line of standard input is a case, of
// nine parts with `|` between them: its label, the seven lists, and the lengths of the five lent buffers. `#` begins a remark.
#![tactic(auto)]

mod lists;
mod text;

use buffer_contents::byte_or_zero;
use buffer_contents::parts::rest;
use cases::{after, before, number, part};
use full_reads::read_full;
use lists::{bytes_of, fill, numbers_of};
use std::io;
use tables::Tables;
use text::show;

// The length of a lent buffer.
fn lent(line: &[u8], k: usize) -> usize {
    number(part(part(line, b'|', 8), b' ', k)) as usize
}

fn checked(rt: &impl Print, line: &[u8], bytes: &[u8], words: &[u32]) -> io::Result<()> {
    let tables = Tables {
        kinds: bytes_of(bytes, 0, part(line, b'|', 1)),
        refs: numbers_of(words, 1, part(line, b'|', 2)),
        vecs: numbers_of(words, 2, part(line, b'|', 3)),
        mins: numbers_of(words, 3, part(line, b'|', 4)),
        maxs: numbers_of(words, 4, part(line, b'|', 5)),
        states: bytes_of(bytes, 5, part(line, b'|', 6)),
        vec_refs: numbers_of(words, 6, part(line, b'|', 7)),
    };
    show(
        rt,
        part(line, b'|', 0),
        checks::checks(
            &tables,
            lent(line, 0),
            lent(line, 1),
            lent(line, 2),
            lent(line, 3),
            lent(line, 4),
        ),
    )
}

fn one(rt: &impl Print, line: &[u8], bytes: &mut [u8], words: &mut [u32]) -> io::Result<()> {
    if byte_or_zero(line, 0) == b'#' {
        return Ok(());
    }
    fill(line, bytes, words);
    checked(rt, line, bytes, words)
}

fn all(rt: &impl Print, text: &[u8], bytes: &mut [u8], words: &mut [u32]) -> io::Result<()> {
    let mut at: usize = 0;
    let mut left: usize = text.len();
    while 0 < left {
        if text.len() <= at {
            return Ok(());
        }
        one(rt, before(rest(text, at), b'\n'), bytes, words)?;
        at = after(text, b'\n', at);
        left -= 1;
    }
    Ok(())
}

fn run(rt: &(impl Input + Print), bytes: &mut [u8], words: &mut [u32]) -> io::Result<()> {
    let mut text = [0u8; 65536];
    let n = read_full(&mut rt.reader(), &mut text)?;
    all(rt, &text[..n], bytes, words)
}

fn main(rt: HostRuntime) -> io::Result<()> {
    let mut bytes = [0u8; 81920];
    let mut words = [0u32; 180224];
    run(&rt, &mut bytes, &mut words)
}
