// The bench for fragments, as C calls it.
// Each export is the library's function of that name, with its clauses.
#![tactic(auto)]

ghost use Rattle.std.specs.Prelude.{◌≡◌, length};
ghost use Rattle.answers.specs.Outcome.{LeftKept};
ghost use Rattle.bench.specs.Bench.{bench};

use answers::Answer;

#[unsafe(no_mangle)]
pub extern "C" fn doorquill_bench(
    events: &[u8],
    values: &[u8],
    session: u32,
    strobe: u32,
    close: u32,
    out: &mut [u8],
) -> Answer
    ensures { ◌≡◌ {A = LeftKept} (record { answer = result; kept = out.new }) (bench events.now values.now session strobe close (length out.old)) }
{
    bench::doorquill_bench(events, values, session, strobe, close, out)
}
