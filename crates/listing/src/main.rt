// Prints the listing of standard input.
#![tactic(auto)]

use full_reads::read_full;
use std::io;

fn main(rt: HostRuntime) -> io::Result<()> {
    // one byte more than it reads at most, so that longer input shows
    let mut input = [0u8; 32769];
    let n = read_full(&mut rt.reader(), &mut input)?;
    let mut text = [0u8; 65536];
    let k = listing_text::print(&input[..n], &mut text);
    rt.write_all(&text[..k])
}
