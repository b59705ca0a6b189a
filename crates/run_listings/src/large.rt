// The readings' inputs that are too large to be stored, put through section reading: the six numbers of each answer, and whether every lent buffer is left as
// it must be.
use answers::Answer;
use buffer_contents::parts::{first_bytes, first_numbers};
use buffer_contents::{all_zero, holds};
use std::io;

// A tailer alone.
const TAILER: [u8; 12] = *b"TAI\0\0\0\0\0\0\0\0\0";

// A cycle at the time 0, whose one change is that of the id B9 64, 12857, to 05; and a tailer.
const ONE_CHANGE: [u8; 33] = *b"CYC\0\0\0\0\0\0\0\0\0\xb9\x64\x05\0\x7fECY\0TAI\0\0\0\0\0\0\0\0\0";

// What that makes: the time 0, and a two-state value of reference 1, one byte at the start of the values.
const MADE: [u8; 22] = *b"\x01\0\0\0\0\0\0\0\0\x02\0\0\0\x01\0\0\0\0\0\0\0\x01";

fn say(rt: &impl Print, words: &[u8]) -> io::Result<()> {
    rt.write_all(words)
}

// A number after a space.
fn next(rt: &impl Print, n: u64) -> io::Result<()> {
    print!(rt; " {n}")
}

fn show(rt: &impl Print, label: &[u8], a: Answer, left: bool) -> io::Result<()> {
    say(rt, label)?;
    say(rt, b":")?;
    next(rt, a.number)?;
    next(rt, a.place)?;
    next(rt, a.read)?;
    next(rt, a.events)?;
    next(rt, a.values)?;
    next(rt, a.steps)?;
    if left {
        say(rt, b", buffers as they must be\n")
    } else {
        say(rt, b", BUFFERS NOT\n")
    }
}

// Whether the outputs hold these bytes and zeros after them, and the working buffers zeros alone.
fn is_left(
    events: &[u8],
    values: &[u8],
    room: &[u8],
    list: &[u32],
    made: &[u8],
    shown: &[u8],
) -> bool {
    holds(events, made) & holds(values, shown) & holds(room, b"") & all_zero(list)
}

// One input over signals alone, and the event and value bytes that must come of it. Every lent buffer is full of garbage.
fn run<'a>(
    rt: &impl Print,
    label: &[u8],
    kinds: &'a [u8],
    refs: &'a [u32],
    vecs: &'a [u32],
    input: &[u8],
    made: &[u8],
    shown: &[u8],
) -> io::Result<()> {
    let mut events = [0xa5u8; 64];
    let mut values = [0x5au8; 16];
    let mut room = [0xc3u8; 16];
    let mut list = [0x9669_a55au32; 4];
    let a = doorquill::doorquill_read_sections(
        kinds,
        refs,
        vecs,
        first_numbers(refs, 0),
        first_numbers(refs, 0),
        first_bytes(kinds, 0),
        first_numbers(refs, 0),
        false,
        false,
        input,
        &mut events,
        &mut values,
        &mut room,
        &mut list,
    );
    show(
        rt,
        label,
        a,
        is_left(&events, &values, &room, &list, made, shown),
    )
}

// So many signals of one kind.
fn alike(
    rt: &impl Print,
    label: &[u8],
    kind: u8,
    n: usize,
    input: &[u8],
    made: &[u8],
    shown: &[u8],
) -> io::Result<()> {
    let kinds = [kind; 65536];
    let refs = [1u32; 65536];
    let vecs = [0u32; 65536];
    run(
        rt,
        label,
        first_bytes(&kinds, n),
        first_numbers(&refs, n),
        first_numbers(&vecs, n),
        input,
        made,
        shown,
    )
}

pub(crate) fn all(rt: &impl Print) -> io::Result<()> {
    alike(
        rt,
        b"A2, 65536 signals of kind 2",
        2,
        65536,
        &TAILER,
        b"",
        b"",
    )?;
    alike(
        rt,
        b"B9 64 of 12857 signals",
        4,
        12857,
        &ONE_CHANGE,
        &MADE,
        b"\x05",
    )?;
    alike(
        rt,
        b"B9 64 of 12856 signals",
        4,
        12856,
        &ONE_CHANGE,
        b"",
        b"",
    )
}
