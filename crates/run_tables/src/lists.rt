// The seven lists in the order of the checks: kinds and states, 0 and 5, in one buffer, the others in another. A list is told in runs with a space between
// them: X*N/E+D stands for N entries, X first and D more after every E; of X*N all are X, and X alone is one entry.
use buffer_contents::parts::{first_bytes, first_numbers, rest, rest_numbers};
use cases::{before, number, part};

#[derive(Clone, Copy)]
struct Run {
    first: u32,
    many: usize,
    every: u32,
    more: u32,
}

fn narrow(n: u64) -> u32 {
    (n % 4294967296) as u32
}

fn read_run(run: &[u8]) -> Run {
    Run {
        first: narrow(number(before(run, b'*'))),
        many: number(before(part(run, b'*', 1), b'/')) as usize,
        every: narrow(number(before(part(run, b'/', 1), b'+'))),
        more: narrow(number(part(run, b'+', 1))),
    }
}

fn length(run: Run) -> usize {
    if run.many == 0 { 1 } else { run.many }
}

// Where a list begins in its buffer. Those of signals have room for 65,536 entries, those of vectors for 16,384.
fn start(k: usize) -> usize {
    match k {
        2 => 65536,
        3 => 131072,
        4 => 147456,
        5 => 65536,
        6 => 163840,
        _ => 0,
    }
}

fn put_byte(bytes: &mut [u8], at: usize, x: u32) {
    if bytes.len() <= at {
        return;
    }
    bytes[at] = (x % 256) as u8;
}

fn put_number(words: &mut [u32], at: usize, x: u32) {
    if words.len() <= at {
        return;
    }
    words[at] = x;
}

// An entry of the list `k`, of which 0 and 5 are bytes.
fn put(k: usize, at: usize, x: u32, bytes: &mut [u8], words: &mut [u32]) {
    if k % 5 == 0 {
        put_byte(bytes, at, x);
        return;
    }
    put_number(words, at, x);
}

// The entries of one run from `at` on.
fn put_run(run: Run, k: usize, at: usize, bytes: &mut [u8], words: &mut [u32]) {
    let mut left = length(run);
    let mut i = at;
    let mut x = run.first;
    let mut same: u32 = 0;
    while 0 < left {
        put(k, i, x, bytes, words);
        same = same.wrapping_add(1);
        if same == run.every {
            same = 0;
            x = x.wrapping_add(run.more);
        }
        i = i.wrapping_add(1);
        left -= 1;
    }
}

fn fill_list(list: &[u8], k: usize, bytes: &mut [u8], words: &mut [u32]) {
    let mut at = start(k);
    let mut j: usize = 0;
    while j < list.len() {
        let text = part(list, b' ', j);
        if text.len() == 0 {
            return;
        }
        let run = read_run(text);
        put_run(run, k, at, bytes, words);
        at = at.wrapping_add(length(run));
        j += 1;
    }
}

// The lists of a case.
pub(crate) fn fill(line: &[u8], bytes: &mut [u8], words: &mut [u32]) {
    let mut k: usize = 0;
    while k < 7 {
        fill_list(part(line, b'|', k + 1), k, bytes, words);
        k += 1;
    }
}

// How many entries a list has.
fn size(list: &[u8]) -> usize {
    let mut n: usize = 0;
    let mut j: usize = 0;
    while j < list.len() {
        let text = part(list, b' ', j);
        if text.len() == 0 {
            return n;
        }
        n = n.wrapping_add(length(read_run(text)));
        j += 1;
    }
    n
}

pub(crate) fn bytes_of<'a, 'b>(bytes: &'a [u8], k: usize, list: &'b [u8]) -> &'a [u8] {
    first_bytes(rest(bytes, start(k)), size(list))
}

pub(crate) fn numbers_of<'a, 'b>(words: &'a [u32], k: usize, list: &'b [u8]) -> &'a [u32] {
    first_numbers(rest_numbers(words, start(k)), size(list))
}
