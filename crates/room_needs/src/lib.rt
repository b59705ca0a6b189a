// The working room that the tables need, and check 6.
#![tactic(auto)]

ghost use Rattle.std.specs.Prelude.{◌≡◌, ◌+◌, ◌-◌, ◌≤◌};
ghost use Rattle.states.specs.Kind.{bytes_required};
ghost use Rattle.states.specs.declared.States.TheVariants.{Two};
ghost use Rattle.tables.specs.Layout.{layout_of, total_bytes};
ghost use Rattle.tables.specs.Checks.{check6};
ghost use Rattle.tables.specs.Good.{Sized, Ranged, Named};

use refusals::{Reason, Refusal};
use slices::usize_of_u32;
use states::States;
use tables::{Check, Tables, unless};

// How many ids a range has.
pub fn width(min: u32, max: u32) -> usize
    requires { min ≤ max }
    ensures { result ≡ max - min + 1 }
{
    usize_of_u32(max - min) + 1
}

// The bytes of a vector's values and marks.
pub fn chunk_bytes(states: States, width: usize) -> usize
    requires { width ≤ 65535 }
    ensures { (result ≡ bytes_required states width + bytes_required Two width) × (result ≤ 40960) }
{
    states.bytes_required(width) + States::Two.bytes_required(width)
}

// The bytes of a flag for each of `v` vectors.
fn flag_bytes(v: usize) -> usize
    requires { v ≤ 16383 }
    ensures { (result ≡ bytes_required Two v) × (result ≤ 2048) }
{
    States::Two.bytes_required(v)
}

// The bytes of working room that the tables need.
pub fn total_bytes(tables: &Tables) -> usize
    requires { Sized tables.now × Ranged tables.now × Named tables.now }
    ensures { result ≡ total_bytes (layout_of tables.now) }
{
    let mut sum: usize = 0;
    for v in 0..tables.mins.len() {
        sum += chunk_bytes(
            States::of(tables.states[v]),
            width(tables.mins[v], tables.maxs[v]),
        );
    }
    sum + 2 * flag_bytes(tables.mins.len())
}

// Check 6.
pub fn check_room(tables: &Tables, room: usize, list: usize) -> Check
    requires { Sized tables.now × Ranged tables.now × Named tables.now }
    ensures { result ≡ check6 tables.now room list }
{
    unless(
        (total_bytes(tables) <= room) & (tables.mins.len() <= list),
        Refusal(Reason::RoomShort as u64, 0),
    )
}
