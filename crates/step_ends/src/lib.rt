// What a session vector, a strobe and a close line show at each step's end of an event stream.
#![tactic(auto)]

ghost use Rattle.std.specs.Prelude.{◌≡◌, true, ◌+◌, ◌≤◌, length};
ghost use Rattle.slices.specs.Splice.{part};
ghost use Rattle.numbers.specs.Fixed.{big};
ghost use Rattle.event_streams.specs.Stream.{in_values};
ghost use Rattle.step_ends.specs.Steps.{line_of, two_of, suits, opened, shows, see_time, see_real, see_value, see_event, see};
ghost use Rattle.step_ends.specs.Steps.Code.{Few, Within};

use event_streams::next_event;
use records::Record;
use refusals::{Reason, Refusal};
use slices::{u32_of_byte, usize_of_u32};
use states::States;

// The references of the session vector, the strobe and the close line.
#[derive(Clone, Copy)]
pub struct Names {
    pub session: u32,
    pub strobe: u32,
    pub close: u32,
}

// Which of the three a reference is.
#[derive(Clone, Copy)]
pub enum Line {
    Session,
    Strobe,
    Close,
    Other,
}

// Whether a step is open, its time, and what each of the three shows.
#[derive(Clone, Copy)]
pub struct Watch {
    pub begun: bool,
    pub time: u64,
    pub session: u32,
    pub strobe: u32,
    pub close: u32,
}

// What a record of the stream brings.
#[derive(Clone, Copy)]
pub enum Seen {
    // No step ends: what is shown then, and the place after the record.
    More(Watch, usize),
    // A time record ends the open step and opens another.
    Step(Watch, usize),
    // The input's end.
    End,
}

fn line_of(names: Names, reference: u32) -> Line
    ensures { result ≡ line_of names reference }
{
    if reference == names.session {
        return Line::Session;
    }
    if reference == names.strobe {
        return Line::Strobe;
    }
    if reference == names.close {
        return Line::Close;
    }
    Line::Other
}

// Two-state, and of 1 to `most` bytes.
fn two_of(states: States, length: u32, most: u32) -> bool
    ensures { result ≡ two_of states length most }
{
    match states {
        States::Two => {
            if length == 0 {
                return false;
            }
            length <= most
        }
        States::Nine => false,
    }
}

// "1 to 4 bytes long for the session, 1 byte for the others".
fn suits(line: Line, states: States, length: u32) -> bool
    ensures { result ≡ suits line states length }
{
    match line {
        Line::Session => two_of(states, length, 4),
        Line::Strobe => two_of(states, length, 1),
        Line::Close => two_of(states, length, 1),
        Line::Other => true,
    }
}

// The number of up to four value bytes, the highest first.
fn value_of(values: &[u8], start: usize, count: usize) -> u32
    requires { Few values.now start count }
    ensures { result ≡ big (part values.now start count) }
{
    let mut value: u32 = 0;
    for byte in &values[start..start + count] {
        value = value * 256 + u32_of_byte(*byte);
    }
    value
}

// What is shown after a value of one of the three, or of another signal.
fn show(values: &[u8], watch: Watch, line: Line, start: u32, count: u32) -> Watch
    requires { Within values.now line start count }
    ensures { result ≡ shows values.now watch line start count }
{
    match line {
        Line::Session => Watch {
            begun: watch.begun,
            time: watch.time,
            session: value_of(values, usize_of_u32(start), usize_of_u32(count)),
            strobe: watch.strobe,
            close: watch.close,
        },
        Line::Strobe => Watch {
            begun: watch.begun,
            time: watch.time,
            session: watch.session,
            strobe: value_of(values, usize_of_u32(start), usize_of_u32(count)),
            close: watch.close,
        },
        Line::Close => Watch {
            begun: watch.begun,
            time: watch.time,
            session: watch.session,
            strobe: watch.strobe,
            close: value_of(values, usize_of_u32(start), usize_of_u32(count)),
        },
        Line::Other => watch,
    }
}

fn opened(watch: Watch, time: u64) -> Watch
    ensures { result ≡ opened watch time }
{
    Watch {
        begun: true,
        time,
        session: watch.session,
        strobe: watch.strobe,
        close: watch.close,
    }
}

// A time opens a step, and ends the one that is open.
fn see_time(watch: Watch, time: u64, next: usize) -> Result<Seen, Refusal>
    ensures { result ≡ see_time watch time next }
{
    if watch.begun {
        return Ok(Seen::Step(opened(watch, time), next));
    }
    Ok(Seen::More(opened(watch, time), next))
}

// A value: 34.
fn see_value(
    values: &[u8],
    watch: Watch,
    line: Line,
    states: States,
    start: u32,
    count: u32,
    at: usize,
    next: usize,
) -> Result<Seen, Refusal>
    requires { start + count ≤ length values.now }
    ensures { result ≡ see_value values.now watch line states start count at next }
{
    if suits(line, states, count) {
        return Ok(Seen::More(show(values, watch, line, start, count), next));
    }
    Err(Refusal(Reason::Bench as u64, at))
}

// A real: 34 where it is of one of the three.
fn see_real(watch: Watch, line: Line, at: usize, next: usize) -> Result<Seen, Refusal>
    ensures { result ≡ see_real watch line at next }
{
    match line {
        Line::Session => Err(Refusal(Reason::Bench as u64, at)),
        Line::Strobe => Err(Refusal(Reason::Bench as u64, at)),
        Line::Close => Err(Refusal(Reason::Bench as u64, at)),
        Line::Other => Ok(Seen::More(watch, next)),
    }
}

fn see_event(
    names: Names,
    values: &[u8],
    watch: Watch,
    event: Record,
    at: usize,
    next: usize,
) -> Result<Seen, Refusal>
    requires { in_values (length values.now) event ≡ true }
    ensures { result ≡ see_event names values.now watch event at next }
{
    match event {
        Record::Time(time) => see_time(watch, time, next),
        Record::Value {
            states,
            reference,
            start,
            length,
        } => see_value(
            values,
            watch,
            line_of(names, reference),
            states,
            start,
            length,
            at,
            next,
        ),
        Record::Real { reference, bits: _ } => {
            see_real(watch, line_of(names, reference), at, next)
        }
    }
}

// The record at a place of the stream, and what it brings.
pub fn see(names: Names, s: &[u8], values: &[u8], watch: Watch, at: usize) -> Result<Seen, Refusal>
    ensures { result ≡ see names s.now values.now watch at }
{
    match next_event(s, values.len(), watch.begun, at) {
        Ok(Some((event, next))) => see_event(names, values, watch, event, at, next),
        Ok(None) => Ok(Seen::End),
        Err(refusal) => Err(refusal),
    }
}
