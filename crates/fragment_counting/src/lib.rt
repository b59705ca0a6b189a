// Fragments counted over an event stream, step by step, and what is held at its end.
#![tactic(auto)]

ghost use Rattle.std.specs.Prelude.{◌<◌, ◌≤◌, length};
ghost use Rattle.number_writer.specs.Ended.{Fills};
ghost use Rattle.number_writer.specs.Put.{Puts};
ghost use Rattle.fragment_records.specs.Output.{bytes_of, held_at, held_of};
ghost use Rattle.fragments.specs.Counting.{count_fragments};
ghost use Rattle.fragments.specs.Counting.Turn.{Finishes, Asks, Lasts, Stepping, Goes, Turns};

use fragment_records::held_bytes;
use fragment_steps::end_step;
use fragments::{Progress, Turn};
use number_writer::{Done, Written, put_bytes};
use refusals::{Reason, Refusal};
use sessions::Bench;
use std::ops::ControlFlow;
use step_ends::{Names, Seen, Watch, see};

// The record of the session at a place, where one is live.
fn put_place(out: &mut [u8], at: usize, bench: Bench, k: usize) -> Option<usize>
    requires { (k < 32) × (at ≤ length out.old) }
    ensures { Puts out.old at (bytes_of (held_at bench k)) out.new result }
{
    if bench.counts[k] == 0 {
        return Some(at);
    }
    let bytes = held_bytes(bench.sessions[k], bench.counts[k]);
    put_bytes(out, at, &bytes)
}

// Each live session, in the order of its place.
fn put_held(out: &mut [u8], at: usize, bench: Bench) -> Option<usize>
    requires { at ≤ length out.old }
    ensures { Puts out.old at (bytes_of (held_of bench)) out.new result }
{
    let mut count = at;
    let mut k: usize = 0;
    while k < 32 {
        match put_place(out, count, bench, k) {
            Some(next) => {
                count = next;
                k += 1;
            }
            None => {
                return None;
            }
        }
    }
    Some(count)
}

// What is held at the input's end, after so many steps.
fn finish(out: &mut [u8], count: usize, bench: Bench, read: usize, steps: u64) -> Written
    requires { count ≤ length out.old }
    ensures { Finishes out.old count bench read steps out.new result }
{
    match put_held(out, count, bench) {
        Some(written) => Ok(Done {
            read,
            count: written,
            steps,
        }),
        None => Err(Refusal(Reason::Full as u64, read)),
    }
}

// The input's end: it ends the step that is open.
fn one_end(out: &mut [u8], bench: Bench, p: Progress) -> Written
    requires { Asks out.old bench p p.read }
    ensures { Lasts out.old bench p out.new result }
{
    let before = p.before;
    let watch = p.watch;
    if watch.begun {
        let last = end_step(bench, out, p.count, before, watch, p.read, p.read);
        let held = last.bench;
        let put = last.put;
        match put {
            Ok(count) => finish(out, count, held, p.read, p.steps + 1),
            Err(refusal) => Err(refusal),
        }
    } else {
        finish(out, p.count, bench, p.read, p.steps)
    }
}

// A record that ends a step and opens another, of which `opened` is shown.
fn one_step(out: &mut [u8], bench: Bench, p: Progress, opened: Watch, next: usize) -> Turn
    requires { Asks out.old bench p next }
    ensures { Stepping out.old bench p opened next out.new result }
{
    let before = p.before;
    let watch = p.watch;
    let ended = end_step(bench, out, p.count, before, watch, p.read, next);
    let then = ended.bench;
    let put = ended.put;
    match put {
        Ok(count) => Turn {
            bench: then,
            going: ControlFlow::Continue(Progress {
                watch: opened,
                before: watch,
                read: next,
                count,
                steps: p.steps + 1,
            }),
        },
        Err(refusal) => Turn {
            bench,
            going: ControlFlow::Break(Err(refusal)),
        },
    }
}

// One record, or the input's end.
fn one(names: Names, s: &[u8], values: &[u8], out: &mut [u8], bench: Bench, p: Progress) -> Turn
    requires { Goes s.now out.old bench p }
    ensures { Turns names s.now values.now out.old bench p out.new result }
{
    let before = p.before;
    let watch = p.watch;
    match see(names, s, values, watch, p.read) {
        Ok(Seen::More(shown, next)) => Turn {
            bench,
            going: ControlFlow::Continue(Progress {
                watch: shown,
                before,
                read: next,
                count: p.count,
                steps: p.steps,
            }),
        },
        Ok(Seen::Step(opened, next)) => one_step(out, bench, p, opened, next),
        Ok(Seen::End) => Turn {
            bench,
            going: ControlFlow::Break(one_end(out, bench, p)),
        },
        Err(refusal) => Turn {
            bench,
            going: ControlFlow::Break(Err(refusal)),
        },
    }
}

// All of the stream: the records of its fragments, of the sessions closed, and of those held at the end.
pub fn count_fragments(names: Names, s: &[u8], values: &[u8], out: &mut [u8]) -> Written
    ensures { Fills (count_fragments names s.now values.now (length out.old)) out.old out.new result }
{
    let mut bench = Bench {
        sessions: [0u32; 32],
        counts: [0u64; 32],
    };
    let watch = Watch {
        begun: false,
        time: 0,
        session: 0,
        strobe: 0,
        close: 0,
    };
    let mut p = Progress {
        watch,
        before: watch,
        read: 0,
        count: 0,
        steps: 0,
    };
    loop {
        let turn = one(names, s, values, out, bench, p);
        bench = turn.bench;
        let going = turn.going;
        match going {
            ControlFlow::Continue(q) => {
                p = q;
            }
            ControlFlow::Break(written) => {
                return written;
            }
        }
    }
}
