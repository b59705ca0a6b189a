// Section marks: each against each, and with every byte altered.
ghost use Rattle.std.specs.Prelude.{◌≡◌, ◌+◌, ◌≤◌, length};
ghost use Rattle.slices.specs.Splice.{part};
ghost use Rattle.numbers.specs.Marks.{same, esn, ecy, eod};

use crate::text;
use numbers::marks;
use numbers::marks::Section;
use std::io;

// A caller that names a mark has the definition's list.
fn ends_snapshot(s: &[u8], at: usize) -> bool
    requires { at + 4 ≤ length s.now }
    ensures { result ≡ same (part s.now at 4) esn }
{
    marks::is_mark(s, at, &marks::ESN)
}

fn ends_cycle(s: &[u8], at: usize) -> bool
    requires { at + 4 ≤ length s.now }
    ensures { result ≡ same (part s.now at 4) ecy }
{
    marks::is_mark(s, at, &marks::ECY)
}

fn ends_directory(s: &[u8], at: usize) -> bool
    requires { at + 4 ≤ length s.now }
    ensures { result ≡ same (part s.now at 4) eod }
{
    marks::is_mark(s, at, &marks::EOD)
}

// 0 to 3 for a section mark, 4 to 6 for an end mark, 7 for no mark.
fn which(s: &[u8], at: usize) -> u64
    requires { at + 4 ≤ length s.now }
    ensures { result ≤ 7 }
{
    match marks::section_at(s, at) {
        Section::Snapshot => 0,
        Section::Cycle => 1,
        Section::Directory => 2,
        Section::Tailer => 3,
        Section::Unknown => {
            if ends_snapshot(s, at) {
                return 4;
            }
            if ends_cycle(s, at) {
                return 5;
            }
            if ends_directory(s, at) {
                return 6;
            }
            7
        }
    }
}

// What stands at every place of a row of marks.
pub(crate) fn marks(rt: &impl Print, label: &[u8], s: &[u8]) -> io::Result<()> {
    text::say(rt, label)?;
    text::say(rt, b":")?;
    let mut at: usize = 0;
    while 4 <= s.len() - at {
        text::say(rt, b" ")?;
        text::decimal(rt, which(s, at))?;
        at += 1;
    }
    text::say(rt, b"\n")
}

// Whether a mark with byte j altered to v is still one.
fn altered_to(s: &[u8], j: usize, v: u8) -> u64
    requires { (4 ≤ length s.now) × (j ≤ 3) }
    ensures { result ≤ 1 }
{
    let mut b = [s[0], s[1], s[2], s[3]];
    b[j] = v;
    if which(&b, 0) < 7 { 1 } else { 0 }
}

fn altered_at(s: &[u8], j: usize) -> u64
    requires { (4 ≤ length s.now) × (j ≤ 3) }
{
    let mut known: u64 = 0;
    let mut v: u8 = 0;
    loop {
        known += altered_to(s, j, v);
        if v == 255 {
            return known;
        }
        v += 1;
    }
}

// How many of the 256 values of each byte of a mark leave a mark.
pub(crate) fn altered(rt: &impl Print, label: &[u8], s: &[u8]) -> io::Result<()> {
    if s.len() < 4 {
        return Ok(());
    }
    text::say(rt, label)?;
    text::say(rt, b":")?;
    let mut j: usize = 0;
    while j < 4 {
        text::say(rt, b" ")?;
        text::decimal(rt, altered_at(s, j))?;
        j += 1;
    }
    text::say(rt, b"\n")
}
