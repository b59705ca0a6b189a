// How many cases of a list gave each answer: counts for the cases, those as stored and the others, and 22 for each entry, the last for numbers that
// no answer has.
ghost use Rattle.std.specs.Prelude.{◌≤◌};

use crate::text;
use std::io;

const CASES: usize = 0;

const STORED: usize = 1;

const OTHERS: usize = 2;

fn get(counts: &[u64], k: usize) -> u64 {
    if k < counts.len() {
        return counts[k];
    }
    0
}

fn more(n: u64) -> u64 {
    if n < 0xffff_ffff { n + 1 } else { n }
}

fn bump(counts: &mut [u64], k: usize) {
    if k < counts.len() {
        counts[k] = more(counts[k]);
    }
}

// The number of the case that begins, from 1.
pub(crate) fn begin(counts: &mut [u64]) -> u64 {
    bump(counts, CASES);
    get(counts, CASES)
}

fn row(number: u64) -> usize
    ensures { result ≤ 21 }
{
    if number <= 20 { number as usize } else { 21 }
}

// The counter of an entry and a row.
fn place(entry: usize, row: usize) -> usize
    requires { row ≤ 21 }
{
    entry % 4 * 22 + row
}

fn add(counts: &mut [u64], entry: usize, number: u64) {
    bump(counts, place(entry, row(number)));
}

pub(crate) fn stored(counts: &mut [u64], entry: usize, number: u64) {
    add(counts, entry, number);
    bump(counts, STORED);
}

pub(crate) fn other(counts: &mut [u64], entry: usize, number: u64) {
    add(counts, entry, number);
    bump(counts, OTHERS);
}

pub(crate) fn clear(counts: &mut [u64]) {
    let mut k: usize = 0;
    while k < counts.len() {
        counts[k] = 0;
        k += 1;
    }
}

fn say_answer(rt: &impl Print, row: usize) -> io::Result<()> {
    if row == 0 {
        return text::say(rt, b"accepted:");
    }
    if row == 21 {
        return text::say(rt, b"other numbers:");
    }
    text::say(rt, b"refused")?;
    text::next(rt, row as u64)?;
    text::say(rt, b":")
}

// The cases of one answer: of sections, changes and the time rule.
fn show_row(
    rt: &impl Print,
    row: usize,
    sections: u64,
    changes: u64,
    events: u64,
) -> io::Result<()> {
    if sections == 0 {
        if changes == 0 {
            if events == 0 {
                return Ok(());
            }
        }
    }
    say_answer(rt, row)?;
    text::say(rt, b" sections")?;
    text::next(rt, sections)?;
    text::say(rt, b", changes")?;
    text::next(rt, changes)?;
    text::say(rt, b", time rule")?;
    text::next(rt, events)?;
    text::say(rt, b"\n")
}

fn show_rows(rt: &impl Print, counts: &[u64]) -> io::Result<()> {
    let mut row: usize = 0;
    while row < 22 {
        show_row(
            rt,
            row,
            get(counts, place(1, row)),
            get(counts, place(2, row)),
            get(counts, place(3, row)),
        )?;
        row += 1;
    }
    Ok(())
}

// What is known of a list; nothing of one without cases.
pub(crate) fn show(rt: &impl Print, counts: &[u64]) -> io::Result<()> {
    if get(counts, CASES) == 0 {
        return Ok(());
    }
    show_rows(rt, counts)?;
    text::decimal(rt, get(counts, CASES))?;
    text::say(rt, b" cases:")?;
    text::next(rt, get(counts, STORED))?;
    text::say(rt, b" as stored,")?;
    text::next(rt, get(counts, OTHERS))?;
    text::say(rt, b" not\n")
}
