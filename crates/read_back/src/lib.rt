// Section bytes back to change records.
#![tactic(auto)]

ghost use Rattle.std.specs.Prelude.{◌≡◌, ◌≤◌, ◌<◌, length, ◌∷◌};
ghost use Rattle.slices.specs.Field.{field_of};
ghost use Rattle.numbers.specs.Fixed.{big_bytes};
ghost use Rattle.section_scan.specs.Sections.{with_kinds};
ghost use Rattle.sections.specs.Item.Scans.{said_times};
ghost use Rattle.number_writer.specs.Ended.{Fills};
ghost use Rattle.number_writer.specs.Put.{Puts, after_put};
ghost use Rattle.read_back.specs.ReadBack.{byte_of, write_of, read_back};
ghost use Rattle.read_back.specs.ReadBack.Loop.{Ready, step_at};
ghost use Rattle.read_back.specs.ReadBack.Turn.{Small, Fitting, Sounds, Counts, Does, said_bytes, taking};

use number_writer::{Done, Written, put_byte, put_bytes, put_fixed};
use numbers::house::put_u32;
use refusals::{Reason, Refusal};
use section_heads::{Item, Phase, Said, Stand, standing};
use section_items::next_item;
use sections::signal_kind;
use states::to_ieee1164;
use std::ops::ControlFlow;
use values::How;

// How far the bytes have been read, and how many bytes of records have been written.
#[derive(Clone, Copy)]
struct Progress {
    mode: Stand,
    read: usize,
    count: usize,
    steps: u64,
}

// What one turn of the loop leads to.
type Turn = ControlFlow<Written, Progress>;

fn put_id(out: &mut [u8], at: usize, id: usize) -> Option<usize>
    ensures { (result ≡ field_of 4 out.old at) × (out.new ≡ after_put out.old at (big_bytes 4 id)) }
{
    let mut bytes: [u8; 4] = [0; 4];
    put_u32(&mut bytes, 0, (id % 0x1_0000_0000) as u32);
    put_bytes(out, at, &bytes)
}

fn put_time_record(out: &mut [u8], at: usize, u: u64) -> Option<usize>
    ensures { Puts out.old at (1 ∷ big_bytes 8 u) out.new result }
{
    let next = put_byte(out, at, 1)?;
    put_fixed(out, next, true, u)
}

// The kind of a write and its id.
fn put_head(out: &mut [u8], at: usize, record_kind: u8, id: usize) -> Option<usize>
    ensures { Puts out.old at (record_kind ∷ big_bytes 4 id) out.new result }
{
    let next = put_byte(out, at, record_kind)?;
    put_id(out, next, id)
}

// The byte of a value, in the order of sections.
fn byte_of(kind: u8, value: u64) -> u8
    requires { Small kind value }
    ensures { result ≡ byte_of kind value }
{
    if kind <= 1 {
        return to_ieee1164(value as u8);
    }
    value as u8
}

fn put_byte_write(out: &mut [u8], at: usize, kind: u8, id: usize, value: u64) -> Option<usize>
    requires { (kind ≤ 4) × Small kind value }
    ensures { Puts out.old at (write_of kind id value) out.new result }
{
    let next = put_head(out, at, 2, id)?;
    put_byte(out, next, byte_of(kind, value))
}

fn put_wide_write(out: &mut [u8], at: usize, kind: u8, id: usize, value: u64) -> Option<usize>
    requires { 4 < kind }
    ensures { Puts out.old at (write_of kind id value) out.new result }
{
    let next = put_head(out, at, 3, id)?;
    put_fixed(out, next, true, value)
}

fn put_write_record(out: &mut [u8], at: usize, kind: u8, id: usize, value: u64) -> Option<usize>
    requires { Fitting kind value }
    ensures { Puts out.old at (write_of kind id value) out.new result }
{
    if kind <= 4 {
        return put_byte_write(out, at, kind, id, value);
    }
    put_wide_write(out, at, kind, id, value)
}

// The record of what is said, where it is something.
fn put_said(kinds: &[u8], out: &mut [u8], at: usize, said: Said) -> Option<usize>
    requires { (at ≤ length out.old) × Sounds kinds.now said }
    ensures { Puts out.old at (said_bytes kinds.now said) out.new result }
{
    match said {
        Said::Time(u) => put_time_record(out, at, u),
        Said::Write { value, id } => put_write_record(out, at, signal_kind(kinds, id), id, value),
        Said::StepEnd => put_byte(out, at, 4),
        _ => Some(at),
    }
}

fn times_said(said: Said) -> u64
    ensures { (result ≡ said_times said) × (result ≤ 1) }
{
    match said {
        Said::Time(_) => 1,
        _ => 0,
    }
}

// An item that says something, or nothing.
fn take_item(kinds: &[u8], out: &mut [u8], p: Progress, item: Item) -> Turn
    requires { (p.count ≤ length out.old) × Sounds kinds.now item.said × Counts p item.said item.at }
    ensures { let step = taking kinds.now p.steps item.at item.said item.then in
        Does out.old p step out.new result }
{
    let k = times_said(item.said);
    match put_said(kinds, out, p.count, item.said) {
        Some(count) => ControlFlow::Continue(Progress {
            mode: item.then,
            read: item.at,
            count,
            steps: p.steps + k,
        }),
        None => ControlFlow::Break(Err(Refusal(Reason::Full as u64, item.at))),
    }
}

// One item, and its record.
fn one_item(kinds: &[u8], how: How, s: &[u8], out: &mut [u8], p: Progress) -> Turn
    requires { Ready kinds.now s.now p out.old }
    ensures { let step = step_at kinds.now how s.now p in
        Does out.old p step out.new result }
{
    let mode = p.mode;
    let item = next_item(kinds, how, s, mode, p.read);
    let said = item.said;
    match said {
        Said::Over => ControlFlow::Break(Ok(Done {
            read: item.at,
            count: p.count,
            steps: p.steps,
        })),
        Said::Bad(refusal) => ControlFlow::Break(Err(refusal)),
        _ => take_item(kinds, out, p, item),
    }
}

// All items: the change records that they say, at the front of `out`.
pub fn read_back(kinds: &[u8], big_endian: bool, s: &[u8], out: &mut [u8]) -> Written
    ensures { Fills (read_back (with_kinds kinds.now) big_endian s.now (length out.old))
        out.old out.new result }
{
    let how = How {
        big_endian,
        reals_by_flag: false,
    };
    let mut p = Progress {
        mode: standing(Phase::Mark, 0, 0),
        read: 0,
        count: 0,
        steps: 0,
    };
    loop {
        match one_item(kinds, how, s, out, p) {
            ControlFlow::Continue(q) => {
                p = q;
            }
            ControlFlow::Break(a) => {
                return a;
            }
        }
    }
}
