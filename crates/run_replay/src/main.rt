// Replays a list of stored cases through the entries, and holds every answer and every lent byte to what is stored.
#![tactic(auto)]

mod case;
mod frame;
mod tally;
mod text;

use buffer_contents::parts::first_bytes;
use case::Found;
use full_reads::read_full;
use std::io::{self, Read};

#[derive(Clone, Copy)]
enum Turn {
    More,
    Done,
    Bad,
}

// The length of the next frame; where the input ends, more than any frame has.
fn next_length<R: Read>(input: &mut R) -> io::Result<usize> {
    let mut head = [0u8; 2];
    let got = read_full(input, &mut head)?;
    if got < 2 {
        return Ok(65536);
    }
    Ok(frame::length_of(&head))
}

fn heading(rt: &impl Print, frame: &[u8], counts: &mut [u64]) -> io::Result<Turn> {
    tally::show(rt, counts)?;
    tally::clear(counts);
    text::line(rt, frame::name(frame))?;
    Ok(Turn::More)
}

fn one_case(rt: &impl Print, frame: &[u8], counts: &mut [u64]) -> io::Result<Turn> {
    let entry = frame::number(frame, frame::ENTRY);
    let at = tally::begin(counts);
    match case::run(rt, frame, at)? {
        Found::Stored(number) => {
            tally::stored(counts, entry, number);
            Ok(Turn::More)
        }
        Found::Other(number) => {
            tally::other(counts, entry, number);
            Ok(Turn::More)
        }
        Found::Large => Ok(Turn::Bad),
    }
}

fn one_frame(rt: &impl Print, frame: &[u8], counts: &mut [u64]) -> io::Result<Turn> {
    if frame.len() < 2 {
        return Ok(Turn::Bad);
    }
    if frame::number(frame, frame::ENTRY) == 0 {
        return heading(rt, frame, counts);
    }
    if frame::is_case(frame) {
        return one_case(rt, frame, counts);
    }
    Ok(Turn::Bad)
}

// Whether the input has so many bytes more, now at the front of `frame`.
fn fill<R: Read>(input: &mut R, frame: &mut [u8], n: usize) -> io::Result<bool> {
    if frame.len() < n {
        return Ok(false);
    }
    let got = read_full(input, &mut frame[..n])?;
    Ok(got == n)
}

fn next_frame<R: Read>(
    rt: &impl Print,
    input: &mut R,
    frame: &mut [u8],
    counts: &mut [u64],
) -> io::Result<Turn> {
    let n = next_length(input)?;
    if n == 0 {
        return Ok(Turn::Done);
    }
    if fill(input, frame, n)? {
        return one_frame(rt, first_bytes(frame, n), counts);
    }
    Ok(Turn::Bad)
}

// Whether the list came to its end, an empty frame, within so many frames.
fn replay<R: Read>(
    rt: &impl Print,
    input: &mut R,
    frame: &mut [u8],
    counts: &mut [u64],
) -> io::Result<bool> {
    let mut left: usize = 65536;
    while 0 < left {
        match next_frame(rt, input, frame, counts)? {
            Turn::More => {}
            Turn::Done => return Ok(true),
            Turn::Bad => return Ok(false),
        }
        left -= 1;
    }
    Ok(false)
}

fn replay_all<R: Read>(
    rt: &impl Print,
    input: &mut R,
    frame: &mut [u8],
    counts: &mut [u64],
) -> io::Result<()> {
    let whole = replay(rt, input, frame, counts)?;
    tally::show(rt, counts)?;
    if !whole {
        text::line(rt, b"bad list")?;
    }
    Ok(())
}

fn main(rt: HostRuntime) -> io::Result<()> {
    let mut frame = [0u8; 10240];
    let mut counts = [0u64; 88];
    replay_all(&rt, &mut rt.reader(), &mut frame, &mut counts)
}
