// Words and numbers on standard output.
use std::io;

pub(crate) fn say(rt: &impl Print, words: &[u8]) -> io::Result<()> {
    rt.write_all(words)
}

pub(crate) fn decimal(rt: &impl Print, n: u64) -> io::Result<()> {
    print!(rt; "{n}")
}

// 64 bits as a number with a sign.
pub(crate) fn signed(rt: &impl Print, v: u64) -> io::Result<()> {
    if v < 0x8000_0000_0000_0000 {
        return decimal(rt, v);
    }
    say(rt, b"-")?;
    decimal(rt, 0xffff_ffff_ffff_ffff - v + 1)
}

pub(crate) fn hex(rt: &impl Print, b: u8) -> io::Result<()> {
    print!(rt; "{b:02x}")
}
