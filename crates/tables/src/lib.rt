// The signal and vector tables, and the checks that come before any reading.
#![tactic(auto)]

ghost use Rattle.std.specs.Prelude.{◌≡◌, ◌+◌, ◌<◌, length, Ok, Err, cond};
ghost use Rattle.tables.specs.Checks.{within_limit, good_vector, suits, good_signal, check1, check2, check3, check4};
ghost use Rattle.tables.specs.Good.{Sized};

use refusals::{Reason, Refusal};
use slices::usize_of_u32;
use std::marker::Model;

pub type Check = Result<(), Refusal>;

// Passed where something is good, else refused.
pub fn unless<E: Copy>(good: bool, error: E) -> Result<(), E>
    ensures { result ≡ cond good (Ok tt) (Err error) }
{
    if good { Ok(()) } else { Err(error) }
}

// The limit of every buffer but the input.
pub fn within_limit(len: usize) -> bool
    ensures { result ≡ within_limit len }
{
    len <= 1073741823
}

// Check 1.
pub fn check_limits(input: usize, events: usize, values: usize, room: usize, list: usize) -> Check
    ensures { result ≡ check1 input events values room list }
{
    unless(
        (input <= 16777215)
            & within_limit(events)
            & within_limit(values)
            & within_limit(room)
            & within_limit(list),
        Refusal(Reason::BufferOverLimit as u64, 0),
    )
}

// The tables of signals and of vectors. Each is lent as parallel lists, for these are what C hands over.
#[derive(Drop)]
pub struct Tables<'a> {
    pub kinds: &'a [u8],
    pub refs: &'a [u32],
    pub vecs: &'a [u32],
    pub mins: &'a [u32],
    pub maxs: &'a [u32],
    pub states: &'a [u8],
    pub vec_refs: &'a [u32],
}

impl<'a> Model for Tables<'a> {
    ghost use Rattle.tables.specs.Lists.{Lists, lists};

    ghost Value = { Lists };

    ghost view = { λ t. lists t.kinds.now t.refs.now t.vecs.now t.mins.now t.maxs.now t.states.now t.vec_refs.now };
}

impl<'a> Tables<'a> {
    // Check 2.
    pub fn check_lists(&self) -> Check
        ensures { result ≡ check2 self.now }
    {
        let n = self.kinds.len();
        let v = self.mins.len();
        let equal = (self.refs.len() == n)
            & (self.vecs.len() == n)
            & (self.maxs.len() == v)
            & (self.states.len() == v)
            & (self.vec_refs.len() == v);
        unless(
            equal & (n <= 65535) & (v <= 16383),
            Refusal(Reason::Lists as u64, 0),
        )
    }

    // Whether the vector with the index `v` is good.
    fn good_vector(&self, v: usize) -> bool
        requires { Sized self.now × (v < length self.now.mins) }
        ensures { result ≡ good_vector self.now (v + 1) }
    {
        let min = usize_of_u32(self.mins[v]);
        let max = usize_of_u32(self.maxs[v]);
        (1 <= min)
            & (min <= max)
            & (max <= self.kinds.len())
            & (self.states[v] <= 1)
            & (self.vec_refs[v] != 0)
    }

    // Check 3.
    pub fn check_vectors(&self) -> Check
        requires { Sized self.now }
        ensures { result ≡ check3 self.now }
    {
        for v in 0..self.mins.len() {
            if !self.good_vector(v) {
                return Err(Refusal(Reason::Vector as u64, v + 1));
            }
        }
        Ok(())
    }

    // Whether a signal with the index `i` may name the vector `number`, of this state.
    fn suits(&self, i: usize, number: usize, state: u8) -> bool
        requires { Sized self.now × (i < length self.now.kinds) }
        ensures { result ≡ suits self.now (i + 1) number state }
    {
        if number < 1 || self.mins.len() < number {
            return false;
        }
        let v = number - 1;
        (usize_of_u32(self.mins[v]) <= i + 1)
            & (i + 1 <= usize_of_u32(self.maxs[v]))
            & (self.states[v] == state)
            & (self.vec_refs[v] == self.refs[i])
    }

    // Whether the signal with the index `i` is good.
    fn good_signal(&self, i: usize) -> bool
        requires { Sized self.now × (i < length self.now.kinds) }
        ensures { result ≡ good_signal self.now (i + 1) }
    {
        let kind = self.kinds[i];
        let good = (kind <= 6) & (self.refs[i] != 0);
        let number = usize_of_u32(self.vecs[i]);
        good & match kind {
            1 => self.suits(i, number, 0),
            3 => self.suits(i, number, 1),
            _ => number == 0,
        }
    }

    // Check 4.
    pub fn check_signals(&self) -> Check
        requires { Sized self.now }
        ensures { result ≡ check4 self.now }
    {
        for i in 0..self.kinds.len() {
            if !self.good_signal(i) {
                return Err(Refusal(Reason::Signal as u64, i + 1));
            }
        }
        Ok(())
    }
}
