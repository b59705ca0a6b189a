// Change records: what stands at a place.
#![tactic(auto)]

ghost use Rattle.std.specs.Prelude.{◌≡◌, ◌+◌, ◌≤◌, ◌<◌, length};
ghost use Rattle.slices.specs.Splice.{part};
ghost use Rattle.numbers.specs.Fixed.{big};
ghost use Rattle.tables.specs.Lists.{nth};
ghost use Rattle.changes.specs.Changes.{record_length, written, write_record, in_order, change_record, next_change};
ghost use Rattle.changes.specs.Changes.Record.{of_kinds};
ghost use Rattle.changes.specs.Changes.Whole.{Whole, Writes};
ghost use Rattle.changes.specs.Changes.Items.{record_item, of_record};

use numbers::house::{get_u32, get_u64};
use refusals::{Reason, Refusal};
use section_heads::{Item, Phase, Said, goes, standing};
use values::{Read, read_narrow};

// What a change record says and the place after it, or the input's end between steps.
#[derive(Clone, Copy, PartialEq, Eq, Debug)]
pub enum Change {
    Time(u64, usize),
    Write { id: usize, value: u64, next: usize },
    StepEnd(usize),
    End(usize),
}

// The length of a record by its kind; 0 for a kind that is unknown.
fn record_length(kind: u8) -> usize
    ensures { result ≡ record_length kind }
{
    if kind == 1 {
        return 9;
    }
    if kind == 2 {
        return 6;
    }
    if kind == 3 {
        return 13;
    }
    if kind == 4 {
        return 1;
    }
    0
}

// The kind of a signal.
fn signal_kind(kinds: &[u8], id: usize) -> u8
    requires { (1 ≤ id) × (id ≤ length kinds.now) }
    ensures { result ≡ nth kinds.now id }
{
    kinds[id - 1]
}

// The id of a write.
fn id_at(s: &[u8], at: usize) -> usize
    requires { at + 4 ≤ length s.now }
    ensures { result ≡ big (part s.now at 4) }
{
    get_u32(s, at) as usize
}

// A byte write to a signal: 19, then 14.
fn byte_write(kinds: &[u8], s: &[u8], id: usize, at: usize) -> Result<Change, Refusal>
    requires { (1 ≤ id) × (id ≤ length kinds.now) × (at + 6 ≤ length s.now) }
    ensures { result ≡ written (of_kinds kinds.now) s.now 2 id at }
{
    let kind = signal_kind(kinds, id);
    let value_at = at + 5;
    if 4 < kind {
        return Err(Refusal(Reason::Unsuited as u64, at));
    }
    let (value, next) = read_narrow(kind, s, value_at)?;
    Ok(Change::Write { id, value, next })
}

// A wide write to a signal: 19.
fn wide_write(kinds: &[u8], s: &[u8], id: usize, at: usize) -> Result<Change, Refusal>
    requires { (1 ≤ id) × (id ≤ length kinds.now) × (at + 13 ≤ length s.now) }
    ensures { result ≡ written (of_kinds kinds.now) s.now 3 id at }
{
    let kind = signal_kind(kinds, id);
    if 5 <= kind {
        Ok(Change::Write {
            id,
            value: get_u64(s, at + 5),
            next: at + 13,
        })
    } else {
        Err(Refusal(Reason::Unsuited as u64, at))
    }
}

// A write: 13, then what its kind asks.
fn write_record(kinds: &[u8], s: &[u8], kind: u8, id: usize, at: usize) -> Result<Change, Refusal>
    requires { Writes s.now kind at }
    ensures { result ≡ write_record (of_kinds kinds.now) s.now kind id at }
{
    if kinds.len() < id {
        return Err(Refusal(Reason::Id as u64, at));
    }
    if 1 <= id {
        if kind == 2 {
            return byte_write(kinds, s, id, at);
        }
        return wide_write(kinds, s, id, at);
    }
    Err(Refusal(Reason::Id as u64, at))
}

// A whole record of a known kind: 18, then what its kind asks.
fn in_order(kinds: &[u8], s: &[u8], inside: bool, kind: u8, at: usize) -> Result<Change, Refusal>
    requires { Whole s.now kind at }
    ensures { result ≡ in_order (of_kinds kinds.now) s.now inside kind at }
{
    if kind == 1 {
        if inside {
            return Err(Refusal(Reason::Order as u64, at));
        }
        return Ok(Change::Time(get_u64(s, at + 1), at + 9));
    }
    if inside {
        if kind == 4 {
            return Ok(Change::StepEnd(at + 1));
        }
        return write_record(kinds, s, kind, id_at(s, at + 1), at);
    }
    Err(Refusal(Reason::Order as u64, at))
}

// The record at a place within the input: 17, then 7, then the rest.
fn change_record(kinds: &[u8], s: &[u8], inside: bool, at: usize) -> Result<Change, Refusal>
    requires { at < length s.now }
    ensures { result ≡ change_record (of_kinds kinds.now) s.now inside at }
{
    let kind = s[at];
    let n = record_length(kind);
    if n == 0 {
        return Err(Refusal(Reason::Kind as u64, at));
    }
    if n <= s.len() - at {
        return in_order(kinds, s, inside, kind, at);
    }
    Err(Refusal(Reason::InputEnds as u64, at))
}

// What stands at a place.
pub fn next_change(kinds: &[u8], s: &[u8], inside: bool, at: usize) -> Result<Change, Refusal>
    ensures { result ≡ next_change (of_kinds kinds.now) s.now inside at }
{
    if s.len() <= at {
        if inside {
            return Err(Refusal(Reason::InputEnds as u64, at));
        }
        return Ok(Change::End(at));
    }
    change_record(kinds, s, inside, at)
}

// An item of change records; an id with a write.
fn item_of(at: usize, said: Said, id: usize) -> Item
    ensures { result ≡ of_record at said id }
{
    goes(at, said, standing(Phase::Mark, id, 0))
}

// What stands at a place, as an item.
pub fn record_item(kinds: &[u8], s: &[u8], inside: bool, at: usize) -> Item
    ensures { result ≡ record_item kinds.now s.now inside at }
{
    match next_change(kinds, s, inside, at) {
        Ok(Change::Time(u, next)) => item_of(next, Said::Time(u), 0),
        Ok(Change::Write { id, value, next }) => item_of(next, Said::Write { value, id }, id),
        Ok(Change::StepEnd(next)) => item_of(next, Said::StepEnd, 0),
        Ok(Change::End(next)) => item_of(next, Said::Over, 0),
        Err(refusal) => item_of(refusal.place(), Said::Bad(refusal), 0),
    }
}
