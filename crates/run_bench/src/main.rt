// Runs the bench on stored cases from standard input, each a length of 2 bytes and so many bytes, and last an empty one, and prints each answer.
#![tactic(auto)]

mod case;
mod text;

use buffer_contents::parts::{first_bytes, rest};
use full_reads::read_full;
use std::io;

// A list that does not end with an empty case is bad.
fn each(rt: &impl Print, list: &[u8]) -> io::Result<()> {
    let mut at: usize = 0;
    while 2 <= list.len() - at {
        let n = case::two(rest(list, at));
        if n == 0 {
            return Ok(());
        }
        if list.len() - at - 2 < n {
            break;
        }
        case::run(rt, first_bytes(rest(list, at + 2), n))?;
        at += 2 + n;
    }
    text::line(rt, b"bad list")
}

fn main(rt: HostRuntime) -> io::Result<()> {
    let mut list = [0u8; 131072];
    let n = read_full(&mut rt.reader(), &mut list)?;
    each(&rt, &list[..n])
}
