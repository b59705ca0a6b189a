// What the program prints.
use answer_lines::answer_line;
use answers::Answer;
use buffer_contents::parts::first_bytes;
use std::io;

pub(crate) fn line(rt: &impl Print, words: &[u8]) -> io::Result<()> {
    rt.write_all(words)?;
    rt.write_all(b"\n")
}

pub(crate) fn show(rt: &impl Print, label: &[u8], a: Answer, out: &[u8]) -> io::Result<()> {
    let mut text = [0u8; 8192];
    let n = answer_line(&mut text, label, a, out);
    rt.write_all(first_bytes(&text, n))
}
