// The bench for fragments: its public entry.
#![tactic(auto)]

ghost use Rattle.std.specs.Prelude.{◌≡◌, length};
ghost use Rattle.answers.specs.Outcome.{LeftKept};
ghost use Rattle.bench.specs.Bench.{apart, bench};

use answers::Answer;
use answers::kept::{end_filled, refuse_kept, within_limits};
use fragment_counting::count_fragments;
use step_ends::Names;

// "34 two references equal".
fn apart(session: u32, strobe: u32, close: u32) -> bool
    ensures { result ≡ apart session strobe close }
{
    if session == strobe {
        return false;
    }
    if session == close {
        return false;
    }
    strobe != close
}

// Fragments counted to the sessions of a session vector, over an event stream and its value bytes, by the references of the vector, of the strobe and of the close line.
pub fn doorquill_bench(
    events: &[u8],
    values: &[u8],
    session: u32,
    strobe: u32,
    close: u32,
    out: &mut [u8],
) -> Answer
    ensures { ◌≡◌ {A = LeftKept} (record { answer = result; kept = out.new }) (bench events.now values.now session strobe close (length out.old)) }
{
    if within_limits(events.len(), values.len(), out.len()) {
        if apart(session, strobe, close) {
            let names = Names {
                session,
                strobe,
                close,
            };
            let w = count_fragments(names, events, values, out);
            return end_filled(out, w);
        }
        return refuse_kept(out, 34, 0);
    }
    refuse_kept(out, 1, 0)
}
