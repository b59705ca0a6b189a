// Runs the readers and writers of `numbers` on vectors that are not theorems, and prints what it finds. A line of standard input is a case, with `|` between
// its parts, of which the first says what is run. `#` begins a remark, which says what the others are.
#![tactic(auto)]

mod lebs;
mod marked;
mod sized;
mod text;

use buffer_contents::byte_or_zero;
use buffer_contents::parts::{first_bytes, rest};
use cases::{after, before, number, part, unhex};
use full_reads::read_full;
use std::io;

// What is run, by the first letter of its name.
fn run(rt: &impl Print, name: u8, line: &[u8], bytes: &[u8]) -> io::Result<()> {
    let label = part(line, b'|', 1);
    let at = number(part(line, b'|', 3));
    match name {
        b'l' => lebs::both(rt, label, bytes, at as usize),
        b't' => lebs::tally(
            rt,
            label,
            part(line, b'|', 2),
            at,
            number(part(line, b'|', 4)),
        ),
        b'i' => sized::integers(rt, label, bytes, at as usize),
        b'h' => sized::house_pair(rt, label, part(line, b'|', 2)),
        b'm' => marked::marks(rt, label, bytes),
        b'a' => marked::altered(rt, label, bytes),
        _ => Ok(()),
    }
}

fn one(rt: &impl Print, line: &[u8]) -> io::Result<()> {
    let mut bytes = [0u8; 32];
    let n = unhex(part(line, b'|', 2), &mut bytes);
    run(rt, byte_or_zero(line, 0), line, first_bytes(&bytes, n))
}

fn all(rt: &impl Print, text: &[u8]) -> io::Result<()> {
    let mut at: usize = 0;
    let mut left: usize = text.len();
    while 0 < left {
        if text.len() <= at {
            return Ok(());
        }
        one(rt, before(rest(text, at), b'\n'))?;
        at = after(text, b'\n', at);
        left -= 1;
    }
    Ok(())
}

fn main(rt: HostRuntime) -> io::Result<()> {
    let mut text = [0u8; 65536];
    let n = read_full(&mut rt.reader(), &mut text)?;
    all(&rt, &text[..n])
}
