// Runs the writer of sections and the reader back on document 01's worked input, at each refusal's limit and on stored streams, and prints each answer. A line
// of standard input is a case, of twelve parts with `|` between them: what is run, its label, the seven lists, the flag, the room, the input. Bytes are in
// hex, other numbers in decimal; `#` begins a remark.
#![tactic(auto)]

mod call;
mod round;
mod text;

use buffer_contents::byte_or_zero;
use buffer_contents::parts::{first_bytes, first_numbers, rest};
use cases::{after, before, number, numbers, part, unhex};
use full_reads::read_full;
use std::io;

// `write` and `back` are one call, `round` is both under either flag and what comes of them.
fn run<'a>(
    rt: &impl Print,
    line: &[u8],
    kinds: &'a [u8],
    refs: &'a [u32],
    vecs: &'a [u32],
    mins: &'a [u32],
    maxs: &'a [u32],
    states: &'a [u8],
    vec_refs: &'a [u32],
    input: &[u8],
) -> io::Result<()> {
    if byte_or_zero(line, 0) == b'r' {
        return round::both(rt, kinds, refs, vecs, mins, maxs, states, vec_refs, input);
    }
    call::within(
        rt,
        part(line, b'|', 1),
        byte_or_zero(line, 0) == b'b',
        kinds,
        refs,
        vecs,
        mins,
        maxs,
        states,
        vec_refs,
        byte_or_zero(part(line, b'|', 9), 0) == b'b',
        input,
        number(part(line, b'|', 10)) as usize,
    )
}

fn with_input<'a>(
    rt: &impl Print,
    line: &[u8],
    kinds: &'a [u8],
    refs: &'a [u32],
    vecs: &'a [u32],
    mins: &'a [u32],
    maxs: &'a [u32],
    states: &'a [u8],
    vec_refs: &'a [u32],
) -> io::Result<()> {
    let mut input = [0u8; 2048];
    let n = unhex(part(line, b'|', 11), &mut input);
    run(
        rt,
        line,
        kinds,
        refs,
        vecs,
        mins,
        maxs,
        states,
        vec_refs,
        first_bytes(&input, n),
    )
}

fn with_vectors<'a>(
    rt: &impl Print,
    line: &[u8],
    kinds: &'a [u8],
    refs: &'a [u32],
    vecs: &'a [u32],
) -> io::Result<()> {
    let mut mins = [0u32; 4];
    let mut maxs = [0u32; 4];
    let mut states = [0u8; 4];
    let mut vec_refs = [0u32; 4];
    let a = numbers(part(line, b'|', 5), &mut mins);
    let b = numbers(part(line, b'|', 6), &mut maxs);
    let c = unhex(part(line, b'|', 7), &mut states);
    let d = numbers(part(line, b'|', 8), &mut vec_refs);
    with_input(
        rt,
        line,
        kinds,
        refs,
        vecs,
        first_numbers(&mins, a),
        first_numbers(&maxs, b),
        first_bytes(&states, c),
        first_numbers(&vec_refs, d),
    )
}

fn one(rt: &impl Print, line: &[u8]) -> io::Result<()> {
    if byte_or_zero(line, 0) == b'#' {
        return Ok(());
    }
    let mut kinds = [0u8; 16];
    let mut refs = [0u32; 16];
    let mut vecs = [0u32; 16];
    let a = unhex(part(line, b'|', 2), &mut kinds);
    let b = numbers(part(line, b'|', 3), &mut refs);
    let c = numbers(part(line, b'|', 4), &mut vecs);
    with_vectors(
        rt,
        line,
        first_bytes(&kinds, a),
        first_numbers(&refs, b),
        first_numbers(&vecs, c),
    )
}

fn all(rt: &impl Print, text: &[u8]) -> io::Result<()> {
    let mut at: usize = 0;
    let mut left: usize = text.len();
    while 0 < left {
        if text.len() <= at {
            return Ok(());
        }
        one(rt, before(rest(text, at), b'\n'))?;
        at = after(text, b'\n', at);
        left -= 1;
    }
    Ok(())
}

fn main(rt: HostRuntime) -> io::Result<()> {
    let mut text = [0u8; 65536];
    let n = read_full(&mut rt.reader(), &mut text)?;
    all(&rt, &text[..n])
}
