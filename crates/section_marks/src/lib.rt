// What stands at a mark: an end mark, a section with its head, an entry of a directory. Nothing of memory or vectors.
#![tactic(auto)]

ghost use Rattle.std.specs.Prelude.{◌≡◌};
ghost use Rattle.section_heads.specs.Heads.{end_item, opens, section_item};
ghost use Rattle.section_heads.specs.Heads.{entry_item};

use numbers::fixed::read_u32;
use numbers::marks::{EOD, Section, is_mark, section_at};
use refusals::{Reason, Refusal};
use section_heads::{
    Item, Phase, bad, open_cycle, open_directory, open_snapshot, open_tailer, passes,
};
use slices::field_at;
use values::How;

pub fn end_item(s: &[u8], at: usize, mark: &[u8; 4]) -> Item
    ensures { result ≡ end_item mark.now s.now at }
{
    match field_at(s, at, 4) {
        Some(next) => {
            if is_mark(s, at, mark) {
                return passes(next, Phase::Mark, 0);
            }
            bad(Refusal(Reason::EndMark as u64, at))
        }
        None => bad(Refusal(Reason::InputEnds as u64, at)),
    }
}

// What a section holds that its mark at `mark` opens.
fn opened(how: How, s: &[u8], section: Section, mark: usize, at: usize) -> Item
    ensures { result ≡ opens how s.now section mark at }
{
    match section {
        Section::Snapshot => open_snapshot(how, s, at),
        Section::Cycle => open_cycle(how, s, at),
        Section::Directory => open_directory(how, s, at),
        Section::Tailer => open_tailer(s, at),
        Section::Unknown => bad(Refusal(Reason::Mark as u64, mark)),
    }
}

pub fn section_item(how: How, s: &[u8], at: usize) -> Item
    ensures { result ≡ section_item how s.now at }
{
    match field_at(s, at, 4) {
        Some(next) => opened(how, s, section_at(s, at), at, next),
        None => bad(Refusal(Reason::InputEnds as u64, at)),
    }
}

pub fn entry_item(how: How, s: &[u8], left: usize, at: usize) -> Item
    ensures { result ≡ entry_item how s.now left at }
{
    if left == 0 {
        return end_item(s, at, &EOD);
    }
    match field_at(s, at, 4) {
        Some(second) => match field_at(s, second, 4) {
            Some(next) => match read_u32(how.big_endian, s, second) {
                Some(_) => passes(next, Phase::Entries, left - 1),
                None => bad(Refusal(Reason::Negative as u64, second)),
            },
            None => bad(Refusal(Reason::InputEnds as u64, second)),
        },
        None => bad(Refusal(Reason::InputEnds as u64, at)),
    }
}
