// Prints a line for each fragment of a recorded reassembly, `fragment`, time and session: from standard input, as the listing reads it, through section
// reading, the time rule and the bench.
#![tactic(auto)]

mod bench_records;
mod text;

use answers::Answer;
use bench_records::fragments;
use buffer_contents::parts::{first_bytes, first_numbers, rest};
use full_reads::read_full;
use preamble::{Opened, read_preamble};
use std::io;
use text::refused;

const SESSION: u32 = 3;

const STROBE: u32 = 4;

const CLOSE: u32 = 5;

// What was accepted goes on, a refusal is printed.
fn good(rt: &impl Print, a: Answer) -> io::Result<bool> {
    if a.number == 0 {
        return Ok(true);
    }
    refused(rt, a.number, a.place)?;
    Ok(false)
}

fn benched(rt: &impl Print, kept: &[u8], values: &[u8]) -> io::Result<()> {
    let mut out = [0u8; 16384];
    let a = bench::doorquill_bench(kept, values, SESSION, STROBE, CLOSE, &mut out);
    if good(rt, a)? {
        fragments(rt, first_bytes(&out, a.events as usize))?;
    }
    Ok(())
}

fn ruled(rt: &impl Print, events: &[u8], values: &[u8]) -> io::Result<()> {
    let mut kept = [0u8; 16384];
    let a = doorquill::doorquill_time_rule(events, values, &mut kept);
    if good(rt, a)? {
        benched(rt, first_bytes(&kept, a.events as usize), values)?;
    }
    Ok(())
}

// Section reading, over the rooms that the listing lends.
fn read<'a>(
    rt: &impl Print,
    kinds: &'a [u8],
    refs: &'a [u32],
    vecs: &'a [u32],
    mins: &'a [u32],
    maxs: &'a [u32],
    states: &'a [u8],
    vec_refs: &'a [u32],
    big_endian: bool,
    s: &[u8],
) -> io::Result<()> {
    let mut events = [0u8; 16384];
    let mut values = [0u8; 8192];
    let mut room = [0u8; 264];
    let mut list = [0u32; 64];
    let a = doorquill::doorquill_read_sections(
        kinds,
        refs,
        vecs,
        mins,
        maxs,
        states,
        vec_refs,
        big_endian,
        false,
        s,
        &mut events,
        &mut values,
        &mut room,
        &mut list,
    );
    if good(rt, a)? {
        ruled(
            rt,
            first_bytes(&events, a.events as usize),
            first_bytes(&values, a.values as usize),
        )?;
    }
    Ok(())
}

// The tables, and the section bytes after them.
fn opened(rt: &impl Print, input: &[u8]) -> io::Result<()> {
    let mut kinds = [0u8; 256];
    let mut refs = [0u32; 256];
    let mut vecs = [0u32; 256];
    let mut mins = [0u32; 64];
    let mut maxs = [0u32; 64];
    let mut states = [0u8; 64];
    let mut vec_refs = [0u32; 64];
    match read_preamble(
        input,
        &mut kinds,
        &mut refs,
        &mut vecs,
        &mut mins,
        &mut maxs,
        &mut states,
        &mut vec_refs,
    ) {
        Ok(
            Opened {
                signals,
                vectors,
                big_endian,
                at,
            },
        ) => read(
            rt,
            first_bytes(&kinds, signals),
            first_numbers(&refs, signals),
            first_numbers(&vecs, signals),
            first_numbers(&mins, vectors),
            first_numbers(&maxs, vectors),
            first_bytes(&states, vectors),
            first_numbers(&vec_refs, vectors),
            big_endian,
            rest(input, at),
        ),
        Err(refusal) => refused(rt, refusal.number(), refusal.place() as u64),
    }
}

fn main(rt: HostRuntime) -> io::Result<()> {
    let mut input = [0u8; 32769];
    let n = read_full(&mut rt.reader(), &mut input)?;
    opened(&rt, &input[..n])
}
