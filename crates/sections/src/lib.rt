// The next id and the next time of section bytes, by their deltas; and what an item is, the definitions.
#![tactic(auto)]

ghost use Rattle.std.specs.Prelude.{◌≡◌, ◌≤◌, length};
ghost use Rattle.tables.specs.Lists.{nth};
ghost use Rattle.section_scan.specs.Sections.{next_time};
ghost use Rattle.sections.specs.Item.{id_in, next_of};
ghost use Rattle.sections.specs.Item.Code.{IdOf};

use refusals::{Reason, Refusal};
use section_heads::Phase;
use section_scan::NextTime;
use values::{Read, read_signed, read_unsigned};

// The next id of a change list and the place after its delta, id 0 where the list ends; or a refusal.
pub fn next_id(kinds: &[u8], s: &[u8], id: usize, at: usize) -> Read
    requires { id ≤ length kinds.now }
    ensures { result ≡ id_in kinds.now s.now id at }
{
    let (d, next) = read_unsigned(s, at)?;
    if d == 0 {
        return Ok((0, next));
    }
    if d as usize <= kinds.len() - id {
        Ok((id as u64 + d, next))
    } else {
        Err(Refusal(Reason::Id as u64, at))
    }
}

pub fn next_time(s: &[u8], u: u64, at: usize) -> Result<NextTime, Refusal>
    ensures { result ≡ next_time s.now u at }
{
    let (d, next) = read_signed(s, at)?;
    if 0x8000_0000_0000_0000 <= d {
        return Ok(NextTime::End(next));
    }
    if d <= 0xffff_ffff_ffff_ffff - u {
        Ok(NextTime::Time(u + d, next))
    } else {
        Err(Refusal(Reason::Time as u64, at))
    }
}

pub fn signal_kind(kinds: &[u8], id: usize) -> u8
    requires { IdOf kinds.now id }
    ensures { result ≡ nth kinds.now id }
{
    kinds[id - 1]
}

// The next id, of a snapshot or of a change list.
pub fn next_of(phase: Phase, kinds: &[u8], s: &[u8], id: usize, at: usize) -> Read
    requires { id ≤ length kinds.now }
    ensures { result ≡ next_of kinds.now s.now phase id at }
{
    match phase {
        Phase::Each => {
            if id < kinds.len() {
                Ok((id as u64 + 1, at))
            } else {
                Ok((0, at))
            }
        }
        _ => next_id(kinds, s, id, at),
    }
}
