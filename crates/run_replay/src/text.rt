// What the program prints.
use std::io;

pub(crate) fn say(rt: &impl Print, words: &[u8]) -> io::Result<()> {
    rt.write_all(words)
}

pub(crate) fn decimal(rt: &impl Print, n: u64) -> io::Result<()> {
    print!(rt; "{n}")
}

pub(crate) fn line(rt: &impl Print, words: &[u8]) -> io::Result<()> {
    say(rt, words)?;
    say(rt, b"\n")
}

// A number after a space.
pub(crate) fn next(rt: &impl Print, n: u64) -> io::Result<()> {
    print!(rt; " {n}")
}
