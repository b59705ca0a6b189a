// Values of signals, read from section bytes: one reader for each kind.
#![tactic(auto)]

ghost use Rattle.std.specs.Prelude.{◌≡◌};
ghost use Rattle.states.specs.Letters.{mapped};
ghost use Rattle.values.specs.Value.{number, unsigned, signed, byte_up_to, big_real, real, narrow, value};

use leb128::LebError;
use numbers::fixed::read_i64;
use refusals::{Reason, Refusal};
use slices::{field_at, u64_of_byte};
use states::std_logic;

// How bytes are read: by the flag, and reals too or little-endian whatever it says.
#[derive(Clone, Copy)]
pub struct How {
    pub big_endian: bool,
    pub reals_by_flag: bool,
}

// What was read and the place after it.
pub type Read = Result<(u64, usize), Refusal>;

// A number that was looked for at `at`.
fn number(at: usize, found: Result<(u64, usize), LebError>) -> Read
    ensures { result ≡ number at found }
{
    match found {
        Ok(read) => Ok(read),
        Err(LebError::Short) => Err(Refusal(Reason::InputEnds as u64, at)),
        Err(LebError::Large) => Err(Refusal(Reason::Leb128 as u64, at)),
    }
}

pub fn read_unsigned(s: &[u8], at: usize) -> Read
    ensures { result ≡ unsigned s.now at }
{
    number(at, leb128::unsigned(s, at))
}

// A signed number, as its 64 bits.
pub fn read_signed(s: &[u8], at: usize) -> Read
    ensures { result ≡ signed s.now at }
{
    number(at, leb128::signed(s, at))
}

// A byte, at most `most`.
pub fn read_byte(s: &[u8], at: usize, most: u8) -> Read
    ensures { result ≡ byte_up_to most (λ b. b) s.now at }
{
    if s.len() <= at {
        return Err(Refusal(Reason::InputEnds as u64, at));
    }
    let b = s[at];
    if b <= most {
        Ok((u64_of_byte(b), at + 1))
    } else {
        Err(Refusal(Reason::Value as u64, at))
    }
}

// A nine-state byte, in the crate's order.
pub fn read_nine_state(s: &[u8], at: usize) -> Read
    ensures { result ≡ byte_up_to 8 mapped s.now at }
{
    if s.len() <= at {
        return Err(Refusal(Reason::InputEnds as u64, at));
    }
    let b = s[at];
    if b <= 8 {
        Ok((u64_of_byte(std_logic(b)), at + 1))
    } else {
        Err(Refusal(Reason::Value as u64, at))
    }
}

// Whether a real has its highest byte first.
fn big_real(how: How) -> bool
    ensures { result ≡ big_real how }
{
    if how.reals_by_flag {
        how.big_endian
    } else {
        false
    }
}

// The bits of a real.
pub fn read_real(how: How, s: &[u8], at: usize) -> Read
    ensures { result ≡ real how s.now at }
{
    match field_at(s, at, 8) {
        Some(next) => Ok((read_i64(big_real(how), s, at), next)),
        None => Err(Refusal(Reason::InputEnds as u64, at)),
    }
}

// The value of a kind that takes one byte.
pub fn read_narrow(kind: u8, s: &[u8], at: usize) -> Read
    ensures { result ≡ narrow kind s.now at }
{
    if kind <= 1 {
        return read_nine_state(s, at);
    }
    if kind <= 3 {
        return read_byte(s, at, 1);
    }
    read_byte(s, at, 255)
}

pub fn read_value(how: How, kind: u8, s: &[u8], at: usize) -> Read
    ensures { result ≡ value how kind s.now at }
{
    if kind <= 4 {
        return read_narrow(kind, s, at);
    }
    if kind == 5 {
        return read_signed(s, at);
    }
    read_real(how, s, at)
}
