// The lines of the listing.
ghost use Rattle.std.specs.Prelude.{◌≡◌, ◌+◌, true, length};
ghost use Rattle.numbers.specs.Fixed.{big_bytes};
ghost use Rattle.event_streams.specs.Stream.{in_values};
ghost use Rattle.plain_text.specs.Text.Laws.{Adds};
ghost use Rattle.listing_text.specs.Lines.{time_line, hex_line, pair_line, real_word, state_word, event_line, event_lines};
ghost use Rattle.listing_text.specs.Lines.Code.{numbered, Turned};

use event_streams::next_event;
use numbers::house::put_u64;
use plain_text::{put, put_decimal, put_hex};
use records::Record;
use slices::{u64_of_u32, usize_of_u32};
use states::States;

// A word, with the space behind it, and a number.
fn put_number(text: &mut [u8], at: usize, word: &[u8], number: u64) -> usize
    ensures { Adds text.old at (numbered word.now number) text.new result }
{
    let end = put(text, at, word);
    put_decimal(text, end, number)
}

fn time_line(text: &mut [u8], at: usize, time: u64) -> usize
    ensures { Adds text.old at (time_line time) text.new result }
{
    let end = put_number(text, at, b"time ", time);
    put(text, end, b"\n")
}

// A word, a reference, and bytes in hex.
fn hex_line(text: &mut [u8], at: usize, word: &[u8], reference: u32, bytes: &[u8]) -> usize
    ensures { Adds text.old at (hex_line word.now reference bytes.now) text.new result }
{
    let a = put_number(text, at, word, u64_of_u32(reference));
    let b = put(text, a, b" ");
    let c = put_hex(text, b, bytes);
    put(text, c, b"\n")
}

// A word and two numbers.
pub(crate) fn pair_line(text: &mut [u8], at: usize, word: &[u8], a: u64, b: u64) -> usize
    ensures { Adds text.old at (pair_line word.now a b) text.new result }
{
    let p = put_number(text, at, word, a);
    let q = put_number(text, p, b" ", b);
    put(text, q, b"\n")
}

fn value_line(text: &mut [u8], at: usize, states: States, reference: u32, bytes: &[u8]) -> usize
    ensures { Adds text.old at (hex_line (state_word states) reference bytes.now) text.new result }
{
    match states {
        States::Two => hex_line(text, at, b"two ", reference, bytes),
        States::Nine => hex_line(text, at, b"nine ", reference, bytes),
    }
}

fn real_line(text: &mut [u8], at: usize, reference: u32, bits: u64) -> usize
    ensures { Adds text.old at (hex_line real_word reference (big_bytes 8 bits)) text.new result }
{
    let mut bytes = [0u8; 8];
    put_u64(&mut bytes, 0, bits);
    hex_line(text, at, b"real ", reference, &bytes)
}

fn event_line(text: &mut [u8], at: usize, values: &[u8], event: Record) -> usize
    requires { in_values (length values.now) event ≡ true }
    ensures { Adds text.old at (event_line values.now event) text.new result }
{
    match event {
        Record::Time(time) => time_line(text, at, time),
        Record::Value {
            states,
            reference,
            start,
            length,
        } => {
            let first = usize_of_u32(start);
            let end = first + usize_of_u32(length);
            value_line(text, at, states, reference, &values[first..end])
        }
        Record::Real { reference, bits } => real_line(text, at, reference, bits),
    }
}

// How far the events have been read, and where the text ends.
#[derive(Clone, Copy)]
struct Progress {
    read: usize,
    end: usize,
}

// The line of one event, or the stream's end.
fn one(events: &[u8], values: &[u8], text: &mut [u8], p: Progress) -> Option<Progress>
    ensures { Turned events.now values.now text.old p text.new result }
{
    match next_event(events, values.len(), true, p.read) {
        Ok(Some((event, next))) => Some(Progress {
            read: next,
            end: event_line(text, p.end, values, event),
        }),
        Ok(None) => None,
        Err(_) => None,
    }
}

// A line for each event of a stream.
pub(crate) fn event_lines(events: &[u8], values: &[u8], text: &mut [u8], at: usize) -> usize
    ensures { Adds text.old at (event_lines events.now values.now) text.new result }
{
    let mut p = Progress { read: 0, end: at };
    while let Some(next) = one(events, values, text, p) {
        p = next;
    }
    p.end
}
