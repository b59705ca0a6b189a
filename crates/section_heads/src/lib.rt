// Where a reading of sections stands, what it finds, and the heads of sections. Nothing of memory or vectors.
#![tactic(auto)]

ghost use Rattle.std.specs.Prelude.{◌≡◌};
ghost use Rattle.section_heads.specs.Heads.{standing, goes, passes, begins, stops, bad};
ghost use Rattle.section_heads.specs.Heads.{open_snapshot, open_cycle, open_directory, open_tailer};

use numbers::fixed::{read_i64, read_u32};
use numbers::marks::is_mark;
use refusals::{Reason, Refusal};
use slices::field_at;
use values::How;

#[derive(Clone, Copy)]
pub enum Phase {
    // At a section's mark.
    Mark,
    // In a directory, with `id` entries left.
    Entries,
    // Among the values of a snapshot, after `id`.
    Each,
    // At a snapshot's end mark.
    Closing,
    // In a change list, after `id`.
    Listed,
    // At a cycle's delta.
    Between,
}

// Where a reading stands; in a step, at which time.
#[derive(Clone, Copy)]
pub struct Stand {
    pub phase: Phase,
    pub id: usize,
    pub time: u64,
}

// What bytes say; the input's end; or a refusal.
#[derive(Clone, Copy)]
pub enum Said {
    Nothing,
    Time(u64),
    Write { value: u64, id: usize },
    StepEnd,
    Over,
    Bad(Refusal),
}

// What was found at a place: the place after it, or of a refusal, what it says, and where the reading stands then.
#[derive(Clone, Copy)]
pub struct Item {
    pub at: usize,
    pub said: Said,
    pub then: Stand,
}

const ZEROS: [u8; 4] = [0, 0, 0, 0];

pub fn standing(phase: Phase, id: usize, time: u64) -> Stand
    ensures { result ≡ standing phase id time }
{
    Stand { phase, id, time }
}

pub fn goes(at: usize, said: Said, then: Stand) -> Item
    ensures { result ≡ goes at said then }
{
    Item { at, said, then }
}

pub fn passes(at: usize, phase: Phase, id: usize) -> Item
    ensures { result ≡ passes at phase id }
{
    goes(at, Said::Nothing, standing(phase, id, 0))
}

// A step begins.
pub fn begins(at: usize, time: u64, phase: Phase) -> Item
    ensures { result ≡ begins at time phase }
{
    goes(at, Said::Time(time), standing(phase, 0, time))
}

fn stops(at: usize, said: Said) -> Item
    ensures { result ≡ stops at said }
{
    goes(at, said, standing(Phase::Mark, 0, 0))
}

pub fn bad(refusal: Refusal) -> Item
    ensures { result ≡ bad refusal.0 refusal.1 }
{
    stops(refusal.place(), Said::Bad(refusal))
}

pub fn open_snapshot(how: How, s: &[u8], at: usize) -> Item
    ensures { result ≡ open_snapshot how s.now at }
{
    match field_at(s, at, 12) {
        Some(next) => {
            if is_mark(s, at, &ZEROS) {
                return begins(next, read_i64(how.big_endian, s, at + 4), Phase::Each);
            }
            bad(Refusal(Reason::Zeros as u64, at))
        }
        None => bad(Refusal(Reason::InputEnds as u64, at)),
    }
}

pub fn open_cycle(how: How, s: &[u8], at: usize) -> Item
    ensures { result ≡ open_cycle how s.now at }
{
    match field_at(s, at, 8) {
        Some(next) => begins(next, read_i64(how.big_endian, s, at), Phase::Listed),
        None => bad(Refusal(Reason::InputEnds as u64, at)),
    }
}

pub fn open_directory(how: How, s: &[u8], at: usize) -> Item
    ensures { result ≡ open_directory how s.now at }
{
    match field_at(s, at, 8) {
        Some(next) => match read_u32(how.big_endian, s, at + 4) {
            Some(n) => passes(next, Phase::Entries, n as usize),
            None => bad(Refusal(Reason::Negative as u64, at + 4)),
        },
        None => bad(Refusal(Reason::InputEnds as u64, at)),
    }
}

// The tailer's bytes of any content.
pub fn open_tailer(s: &[u8], at: usize) -> Item
    ensures { result ≡ open_tailer s.now at }
{
    match field_at(s, at, 8) {
        Some(next) => stops(next, Said::Over),
        None => bad(Refusal(Reason::InputEnds as u64, at)),
    }
}
