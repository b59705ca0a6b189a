// Sections written from change records.
#![tactic(auto)]

ghost use Rattle.std.specs.Prelude.{◌≡◌, true, ◌++◌, ◌<◌};
ghost use Rattle.numbers.specs.Marks.{cyc};
ghost use Rattle.number_writer.specs.Put.{Puts};
ghost use Rattle.number_writer.specs.Little.{fixed_bytes};
ghost use Rattle.sections_writer.specs.Writer.{time_bytes, time_good, value_bytes, write_bytes};
ghost use Rattle.sections_writer.specs.Writer.Turn.{EndsIn};

use number_writer::{Written, put_byte, put_bytes, put_fixed, put_signed, put_unsigned};
use numbers::marks::CYC;
use std::ops::ControlFlow;

// Where the writing stands: inside a step or not, the steps opened so far, the last one's time, and its last id.
#[derive(Clone, Copy)]
pub struct Pen {
    pub inside: bool,
    pub steps: u64,
    pub time: u64,
    pub id: usize,
}

// How far the records have been read, and how many bytes have been written.
#[derive(Clone, Copy)]
pub struct Progress {
    pub pen: Pen,
    pub read: usize,
    pub count: usize,
}

// What one turn of the loop leads to.
pub type Turn = ControlFlow<Written, Progress>;

// "Times must not fall, neighbouring times differ by at most 2^63-1".
pub fn time_good(pen: Pen, u: u64) -> bool
    ensures { result ≡ time_good pen u }
{
    if pen.steps == 0 {
        return true;
    }
    if u < pen.time {
        return false;
    }
    u - pen.time <= 0x7fff_ffff_ffff_ffff
}

// The cycle's mark and its time.
fn put_first(out: &mut [u8], at: usize, big_endian: bool, u: u64) -> Option<usize>
    ensures { Puts out.old at (cyc ++ fixed_bytes big_endian 8 u) out.new result }
{
    let next = put_bytes(out, at, &CYC)?;
    put_fixed(out, next, big_endian, u)
}

// The first time as it is, a later one as a delta.
pub fn put_time(out: &mut [u8], at: usize, big_endian: bool, pen: Pen, u: u64) -> Option<usize>
    requires { time_good pen u ≡ true }
    ensures { Puts out.old at (time_bytes big_endian pen u) out.new result }
{
    if pen.steps == 0 {
        return put_first(out, at, big_endian, u);
    }
    put_signed(out, at, u - pen.time)
}

// A value whose record ends before `next`.
fn put_value(
    out: &mut [u8],
    at: usize,
    kind: u8,
    value: u64,
    s: &[u8],
    next: usize,
) -> Option<usize>
    requires { EndsIn s.now next }
    ensures { Puts out.old at (value_bytes kind value s.now next) out.new result }
{
    if kind <= 4 {
        return put_byte(out, at, s[next - 1]);
    }
    if kind == 5 {
        return put_signed(out, at, value);
    }
    put_fixed(out, at, false, value)
}

// The delta to the last id, and the value.
pub fn put_write(
    out: &mut [u8],
    at: usize,
    pen: Pen,
    kind: u8,
    id: usize,
    value: u64,
    s: &[u8],
    next: usize,
) -> Option<usize>
    requires { (pen.id < id) × EndsIn s.now next }
    ensures { Puts out.old at (write_bytes pen kind id value s.now next) out.new result }
{
    let value_at = put_unsigned(out, at, (id - pen.id) as u64)?;
    put_value(out, value_at, kind, value, s, next)
}
