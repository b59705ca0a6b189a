// A step's end: its fragment counted, then its session dropped, each with its record.
#![tactic(auto)]

ghost use Rattle.std.specs.Prelude.{true, ◌≤◌, length};
ghost use Rattle.step_ends.specs.Steps.{rose};
ghost use Rattle.sessions.specs.Places.Code.{Few};
ghost use Rattle.fragments.specs.Counting.{counting, closing, closes, step_end};
ghost use Rattle.fragments.specs.Counting.Step.{To, Lives};

use fragment_records::{closed_bytes, fragment_bytes};
use fragments::{Stepped, rose, seat};
use number_writer::put_bytes;
use refusals::{Reason, Refusal};
use sessions::{Bench, dropped, place_of};
use step_ends::Watch;

// One fragment, counted to the session value then shown.
fn count_fragment(
    bench: Bench,
    out: &mut [u8],
    count: usize,
    watch: Watch,
    at: usize,
    next: usize,
) -> Stepped
    requires { Few bench }
    ensures { To (counting (length out.old) true count bench watch at next) out.old count out.new result }
{
    let bytes = fragment_bytes(watch.time, watch.session);
    match put_bytes(out, count, &bytes) {
        Some(written) => seat(bench, watch, at, written),
        None => Stepped {
            bench,
            put: Err(Refusal(Reason::Full as u64, next)),
        },
    }
}

fn count_rise(
    bench: Bench,
    out: &mut [u8],
    count: usize,
    before: Watch,
    watch: Watch,
    at: usize,
    next: usize,
) -> Stepped
    requires { Few bench × (count ≤ length out.old) }
    ensures { To (counting (length out.old) (rose before watch) count bench watch at next) out.old count out.new result }
{
    if rose(before, watch) {
        return count_fragment(bench, out, count, watch, at, next);
    }
    Stepped {
        bench,
        put: Ok(count),
    }
}

// A live session's count is handed out, and its place is free.
fn drop_session(
    bench: Bench,
    out: &mut [u8],
    count: usize,
    watch: Watch,
    k: usize,
    next: usize,
) -> Stepped
    requires { Lives bench watch k }
    ensures { To (closing (length out.old) true count bench watch next) out.old count out.new result }
{
    let bytes = closed_bytes(watch.time, watch.session, bench.counts[k]);
    match put_bytes(out, count, &bytes) {
        Some(written) => Stepped {
            bench: dropped(bench, k),
            put: Ok(written),
        },
        None => Stepped {
            bench,
            put: Err(Refusal(Reason::Full as u64, next)),
        },
    }
}

// "Where close stands at 1 at step end the shown session is dropped"; "closing a session that isn't live does nothing".
fn close_session(bench: Bench, out: &mut [u8], count: usize, watch: Watch, next: usize) -> Stepped
    requires { count ≤ length out.old }
    ensures { To (closing (length out.old) (closes bench watch) count bench watch next) out.old count out.new result }
{
    if watch.close != 1 {
        return Stepped {
            bench,
            put: Ok(count),
        };
    }
    let k = place_of(bench, watch.session);
    if k < 32 {
        return drop_session(bench, out, count, watch, k, next);
    }
    Stepped {
        bench,
        put: Ok(count),
    }
}

// A step's end: the fragment is counted before the session is dropped.
pub fn end_step(
    bench: Bench,
    out: &mut [u8],
    count: usize,
    before: Watch,
    watch: Watch,
    at: usize,
    next: usize,
) -> Stepped
    requires { Few bench × (count ≤ length out.old) }
    ensures { To (step_end (length out.old) count before bench watch at next) out.old count out.new result }
{
    let first = count_rise(bench, out, count, before, watch, at, next);
    let counted_bench = first.bench;
    let put = first.put;
    match put {
        Ok(written) => close_session(counted_bench, out, written, watch, next),
        Err(refusal) => Stepped {
            bench,
            put: Err(refusal),
        },
    }
}
