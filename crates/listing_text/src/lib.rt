// The listing: its preamble, and the text of what section reading finds.
#![tactic(auto)]

mod lines;

ghost use Rattle.std.specs.Prelude.{◌≡◌, min, ◌≤◌, drop};
ghost use Rattle.plain_text.specs.Text.{IsPrefixLen, Holds, Prints};
ghost use Rattle.listing_text.specs.Lines.{refused_word, pair_line};
ghost use Rattle.preamble.specs.Preamble.{preamble};
ghost use Rattle.preamble.specs.Preamble.Loop.{up_to};
ghost use Rattle.listing_text.specs.Listing.{told, section_lines, after_preamble, listing};
ghost use Rattle.listing_text.specs.Listing.Code.{Within, lists_of};

use answers::Answer;
use doorquill::doorquill_read_sections;
use lines::{event_lines, pair_line};
use preamble::{Opened, read_preamble};
use slices::u64_of_usize;

fn least(n: u64, most: usize) -> usize
    ensures { (result ≡ min most n) × (result ≤ most) }
{
    most.min(n as usize)
}

// "Alone `refused`, number, place".
fn refuse(text: &mut [u8], number: u64, place: u64) -> usize
    ensures { Holds text.old (pair_line refused_word number place) text.new result }
{
    pair_line(text, 0, b"refused ", number, place)
}

// The events that section reading made, and its answer.
fn tell(a: Answer, events: &[u8], values: &[u8], text: &mut [u8]) -> usize
    ensures { Holds text.old (told a events.now values.now) text.new result }
{
    if a.number != 0 {
        return refuse(text, a.number, a.place);
    }
    let n = least(a.events, events.len());
    let end = event_lines(&events[..n], values, text, 0);
    pair_line(text, end, b"done ", a.read, a.steps)
}

// The signal and vector tables, as they are lent.
#[derive(Clone, Copy)]
struct Tables<'a> {
    kinds: &'a [u8],
    refs: &'a [u32],
    vecs: &'a [u32],
    mins: &'a [u32],
    maxs: &'a [u32],
    states: &'a [u8],
    vec_refs: &'a [u32],
}

// Section reading, over the rooms that the listing lends.
fn list_sections(t: &Tables<'_>, big_endian: bool, s: &[u8], text: &mut [u8]) -> usize
    ensures { Holds text.old (section_lines (lists_of t.now) big_endian s.now) text.new result }
{
    let mut events = [0u8; 16384];
    let mut values = [0u8; 8192];
    let mut room = [0u8; 264];
    let mut list = [0u32; 64];
    let a = doorquill_read_sections(
        t.kinds,
        t.refs,
        t.vecs,
        t.mins,
        t.maxs,
        t.states,
        t.vec_refs,
        big_endian,
        false,
        s,
        &mut events,
        &mut values,
        &mut room,
        &mut list,
    );
    tell(a, &events, &values, text)
}

// The same, over the first entries of each table and the bytes from `at` on.
fn list_tables(
    t: &Tables<'_>,
    signals: usize,
    vectors: usize,
    big_endian: bool,
    input: &[u8],
    at: usize,
    text: &mut [u8],
) -> usize
    requires { Within input.now (lists_of t.now) signals vectors at }
    ensures { Holds text.old (section_lines (up_to (lists_of t.now) signals vectors) big_endian (drop at input.now)) text.new result }
{
    let first = Tables {
        kinds: &t.kinds[..signals],
        refs: &t.refs[..signals],
        vecs: &t.vecs[..signals],
        mins: &t.mins[..vectors],
        maxs: &t.maxs[..vectors],
        states: &t.states[..vectors],
        vec_refs: &t.vec_refs[..vectors],
    };
    list_sections(&first, big_endian, &input[at..], text)
}

// The listing of input that is not too long.
fn list_short(input: &[u8], text: &mut [u8]) -> usize
    ensures { Holds text.old (after_preamble input.now (preamble input.now)) text.new result }
{
    let mut kinds = [0u8; 256];
    let mut refs = [0u32; 256];
    let mut vecs = [0u32; 256];
    let mut mins = [0u32; 64];
    let mut maxs = [0u32; 64];
    let mut states = [0u8; 64];
    let mut vec_refs = [0u32; 64];
    match read_preamble(
        input,
        &mut kinds,
        &mut refs,
        &mut vecs,
        &mut mins,
        &mut maxs,
        &mut states,
        &mut vec_refs,
    ) {
        Ok(
            Opened {
                signals,
                vectors,
                big_endian,
                at,
            },
        ) => {
            let t = Tables {
                kinds: &kinds,
                refs: &refs,
                vecs: &vecs,
                mins: &mins,
                maxs: &maxs,
                states: &states,
                vec_refs: &vec_refs,
            };
            list_tables(&t, signals, vectors, big_endian, input, at, text)
        }
        Err(refusal) => refuse(text, refusal.number(), u64_of_usize(refusal.place())),
    }
}

// The listing of `input`: as much of its text as `text` holds, from its start, and how much that is.
pub fn list(input: &[u8], text: &mut [u8]) -> usize
    ensures prefix_len { IsPrefixLen result text.new }
    ensures holds { Holds text.old (listing input.now) text.new result }
{
    if 32768 < input.len() {
        return refuse(text, 1, 32768);
    }
    list_short(input, text)
}

// The same, over a text that holds the longest listing: all of it.
pub fn print(input: &[u8], text: &mut [u8; 65536]) -> usize
    ensures prefix_len { IsPrefixLen result text.new }
    ensures prints { Prints text.old (listing input.now) text.new result }
{
    list(input, text)
}
