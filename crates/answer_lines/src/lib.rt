// An answer as a line of text, for the programs that show stored cases.
#![tactic(auto)]

ghost use Rattle.std.specs.Prelude.{◌≡◌};
ghost use Rattle.plain_text.specs.Text.{Holds};
ghost use Rattle.plain_text.specs.Text.Laws.{Adds};
ghost use Rattle.answer_lines.specs.Told.{spaced, pair, numbers, reported, told};

use answers::Answer;
use buffer_contents::holds;
use buffer_contents::parts::first_bytes;
use plain_text::{put, put_decimal, put_hex};

fn length(n: u64) -> usize
    ensures { result ≡ n }
{
    n as usize
}

fn put_spaced(text: &mut [u8], at: usize, n: u64) -> usize
    ensures { Adds text.old at (spaced n) text.new result }
{
    let end = put(text, at, b" ");
    put_decimal(text, end, n)
}

fn put_pair(text: &mut [u8], at: usize, a: u64, b: u64) -> usize
    ensures { Adds text.old at (pair a b) text.new result }
{
    let end = put_spaced(text, at, a);
    put_spaced(text, end, b)
}

fn put_numbers(text: &mut [u8], at: usize, a: Answer) -> usize
    ensures { Adds text.old at (numbers a) text.new result }
{
    let p = put_pair(text, at, a.number, a.place);
    let q = put_pair(text, p, a.read, a.events);
    put_pair(text, q, a.values, a.steps)
}

// The bytes that are reported of an output, and a mark where one after them is not zero.
fn put_reported(text: &mut [u8], at: usize, out: &[u8], bytes: &[u8]) -> usize
    ensures { Adds text.old at (reported out.now bytes.now) text.new result }
{
    let p = put(text, at, b" ");
    let q = put_hex(text, p, bytes);
    if holds(out, bytes) {
        return put(text, q, b"\n");
    }
    put(text, q, b"!\n")
}

// As much of the line of an answer and its output as `text` has room for, and how much that is.
pub fn answer_line(text: &mut [u8], label: &[u8], a: Answer, out: &[u8]) -> usize
    ensures { Holds text.old (told label.now a out.now) text.new result }
{
    let p = put(text, 0, label);
    let q = put(text, p, b":");
    let e = put_numbers(text, q, a);
    put_reported(text, e, out, first_bytes(out, length(a.events)))
}
