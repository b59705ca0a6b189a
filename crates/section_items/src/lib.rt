// Section bytes, one item at a time: what section reading, reading back and explaining share. Nothing of memory or vectors.
#![tactic(auto)]

ghost use Rattle.std.specs.Prelude.{◌≡◌, ◌≤◌, length};
ghost use Rattle.values.specs.Value.{value};
ghost use Rattle.section_scan.specs.Sections.{next_time};
ghost use Rattle.sections.specs.Item.{in_values, after_values, write_item, value_item, next_item};
ghost use Rattle.sections.specs.Item.{time_item, head_item};
ghost use Rattle.sections.specs.Item.Code.{IdOf, Stands};

use numbers::marks::{ECY, ESN};
use section_heads::{Item, Phase, Said, Stand, bad, begins, goes, standing};
use section_marks::{end_item, entry_item, section_item};
use section_scan::NextTime;
use sections::{next_of, next_time, signal_kind};
use values::{How, Read, read_narrow, read_real, read_signed};

// Where a reading stands after the values of a step.
pub fn after_values(phase: Phase) -> Phase
    ensures { result ≡ after_values phase }
{
    match phase {
        Phase::Each => Phase::Closing,
        _ => Phase::Between,
    }
}

// The value of a kind. Not `values::read_value`: section reading calls that once, and so its loop takes it in.
fn value_at(how: How, kind: u8, s: &[u8], at: usize) -> Read
    ensures { result ≡ value how kind s.now at }
{
    if kind <= 4 {
        return read_narrow(kind, s, at);
    }
    if kind == 5 {
        return read_signed(s, at);
    }
    read_real(how, s, at)
}

// The value of an id.
fn write_item(kinds: &[u8], how: How, s: &[u8], x: Stand, id: usize, at: usize) -> Item
    requires { IdOf kinds.now id }
    ensures { result ≡ write_item kinds.now how s.now x id at }
{
    let phase = x.phase;
    match value_at(how, signal_kind(kinds, id), s, at) {
        Ok((value, end)) => goes(end, Said::Write { value, id }, standing(phase, id, x.time)),
        Err(refusal) => bad(refusal),
    }
}

// The value of the next id, or the step's end.
pub fn value_item(kinds: &[u8], how: How, s: &[u8], x: Stand, at: usize) -> Item
    requires { x.id ≤ length kinds.now }
    ensures { result ≡ value_item kinds.now how s.now x at }
{
    let phase = x.phase;
    match next_of(phase, kinds, s, x.id, at) {
        Ok((found, next)) => {
            if found == 0 {
                return goes(
                    next,
                    Said::StepEnd,
                    standing(after_values(phase), 0, x.time),
                );
            }
            write_item(kinds, how, s, x, found as usize, next)
        }
        Err(refusal) => bad(refusal),
    }
}

// The time of the next step, or the cycle's end.
fn time_item(s: &[u8], u: u64, at: usize) -> Item
    ensures { result ≡ time_item s.now (next_time s.now u at) }
{
    match next_time(s, u, at) {
        Ok(NextTime::Time(time, next)) => begins(next, time, Phase::Listed),
        Ok(NextTime::End(next)) => end_item(s, next, &ECY),
        Err(refusal) => bad(refusal),
    }
}

// What stands at a place between the values of steps: a mark, a head, an entry, a delta.
pub fn head_item(how: How, s: &[u8], x: Stand, at: usize) -> Item
    ensures { result ≡ head_item how s.now x at }
{
    let phase = x.phase;
    match phase {
        Phase::Entries => entry_item(how, s, x.id, at),
        Phase::Closing => end_item(s, at, &ESN),
        Phase::Between => time_item(s, x.time, at),
        _ => section_item(how, s, at),
    }
}

// Whether a reading stands among the values of a step.
pub fn in_values(phase: Phase) -> bool
    ensures { result ≡ in_values phase }
{
    match phase {
        Phase::Each => true,
        Phase::Listed => true,
        _ => false,
    }
}

// What stands at a place.
pub fn next_item(kinds: &[u8], how: How, s: &[u8], x: Stand, at: usize) -> Item
    requires { Stands kinds.now x }
    ensures { result ≡ next_item kinds.now how s.now x at }
{
    let phase = x.phase;
    if in_values(phase) {
        return value_item(kinds, how, s, x, at);
    }
    head_item(how, s, x, at)
}
