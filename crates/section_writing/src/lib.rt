// Sections written from change records, one record after the other.
#![tactic(auto)]

ghost use Rattle.std.specs.Prelude.{◌≡◌, [], ◌∷◌, ◌<◌, ◌≤◌, length};
ghost use Rattle.number_writer.specs.Ended.{Fills};
ghost use Rattle.tables.specs.Lists.{nth};
ghost use Rattle.changes.specs.Changes.{next_change};
ghost use Rattle.changes.specs.Changes.Record.{of_kinds};
ghost use Rattle.sections_writer.specs.Writer.{given, timed, wrote_to, stepped, closing, goes, ends, given_time, given_write, write_sections};
ghost use Rattle.sections_writer.specs.Writer.Turn.{EndsIn, IdOf, gone_to, Does};

use changes::{Change, next_change};
use number_writer::{Done, Written, put_byte};
use refusals::{Reason, Refusal};
use section_closing::put_closing;
use sections_writer::{Pen, Progress, Turn, put_time, put_write, time_good};
use std::ops::ControlFlow;

// After the bytes of a record that ends before `next`.
fn gone(pen: Pen, next: usize, put: Option<usize>) -> Turn
    ensures { result ≡ gone_to pen next put }
{
    match put {
        Some(count) => ControlFlow::Continue(Progress {
            pen,
            read: next,
            count,
        }),
        None => ControlFlow::Break(Err(Refusal(Reason::Full as u64, next))),
    }
}

fn timed(pen: Pen, u: u64) -> Pen
    requires { pen.steps < 0xffff_ffff_ffff_ffff }
    ensures { result ≡ timed pen u }
{
    Pen {
        inside: true,
        steps: pen.steps + 1,
        time: u,
        id: 0,
    }
}

fn wrote_to(pen: Pen, id: usize) -> Pen
    ensures { result ≡ wrote_to pen id }
{
    Pen {
        inside: true,
        steps: pen.steps,
        time: pen.time,
        id,
    }
}

fn stepped(pen: Pen) -> Pen
    ensures { result ≡ stepped pen }
{
    Pen {
        inside: false,
        steps: pen.steps,
        time: pen.time,
        id: pen.id,
    }
}

// A record that opens a step: 23.
fn one_time(out: &mut [u8], p: Progress, big_endian: bool, u: u64, next: usize) -> Turn
    requires { p.pen.steps < next }
    ensures { Does out.old p (given_time big_endian p.pen p.read u next) out.new result }
{
    let pen = p.pen;
    if time_good(pen, u) {
        return gone(
            timed(pen, u),
            next,
            put_time(out, p.count, big_endian, pen, u),
        );
    }
    ControlFlow::Break(Err(Refusal(Reason::TimeFalls as u64, p.read)))
}

// A write: 22.
fn one_write(
    out: &mut [u8],
    p: Progress,
    kind: u8,
    id: usize,
    value: u64,
    s: &[u8],
    next: usize,
) -> Turn
    requires { EndsIn s.now next }
    ensures { Does out.old p (given_write s.now p.pen p.read kind id value next) out.new result }
{
    let pen = p.pen;
    if pen.id < id {
        return gone(
            wrote_to(pen, id),
            next,
            put_write(out, p.count, pen, kind, id, value, s, next),
        );
    }
    ControlFlow::Break(Err(Refusal(Reason::IdsFall as u64, p.read)))
}

fn one_step_end(out: &mut [u8], p: Progress, next: usize) -> Turn
    ensures { Does out.old p (goes (0 ∷ []) (stepped p.pen) next) out.new result }
{
    let pen = p.pen;
    gone(stepped(pen), next, put_byte(out, p.count, 0))
}

// The input's end.
fn one_end(out: &mut [u8], p: Progress, next: usize) -> Turn
    requires { p.count ≤ length out.old }
    ensures { Does out.old p (ends (closing p.pen) next) out.new result }
{
    let pen = p.pen;
    match put_closing(out, p.count, pen) {
        Some(count) => ControlFlow::Break(Ok(Done {
            read: next,
            count,
            steps: pen.steps,
        })),
        None => ControlFlow::Break(Err(Refusal(Reason::Full as u64, next))),
    }
}

fn signal_kind(kinds: &[u8], id: usize) -> u8
    requires { IdOf kinds.now id }
    ensures { result ≡ nth kinds.now id }
{
    kinds[id - 1]
}

// One record, and what it gives.
fn one_record(kinds: &[u8], big_endian: bool, s: &[u8], out: &mut [u8], p: Progress) -> Turn
    requires { (p.pen.steps ≤ p.read) × (p.count ≤ length out.old) }
    ensures { Does out.old p (given (of_kinds kinds.now) big_endian s.now p.pen p.read (next_change (of_kinds kinds.now) s.now p.pen.inside p.read)) out.new result }
{
    let pen = p.pen;
    match next_change(kinds, s, pen.inside, p.read) {
        Ok(Change::Time(u, next)) => one_time(out, p, big_endian, u, next),
        Ok(Change::Write { id, value, next }) => {
            one_write(out, p, signal_kind(kinds, id), id, value, s, next)
        }
        Ok(Change::StepEnd(next)) => one_step_end(out, p, next),
        Ok(Change::End(next)) => one_end(out, p, next),
        Err(refusal) => ControlFlow::Break(Err(refusal)),
    }
}

// All records: the bytes of the sections that they become, at the front of `out`.
pub fn write_sections(kinds: &[u8], big_endian: bool, s: &[u8], out: &mut [u8]) -> Written
    ensures { Fills (write_sections (of_kinds kinds.now) big_endian s.now (length out.old)) out.old out.new result }
{
    let pen = Pen {
        inside: false,
        steps: 0,
        time: 0,
        id: 0,
    };
    let mut p = Progress {
        pen,
        read: 0,
        count: 0,
    };
    loop {
        match one_record(kinds, big_endian, s, out, p) {
            ControlFlow::Continue(q) => {
                p = q;
            }
            ControlFlow::Break(a) => {
                return a;
            }
        }
    }
}
