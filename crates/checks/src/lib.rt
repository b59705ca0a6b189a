// All checks that come before a reading, in their order.
#![tactic(auto)]

ghost use Rattle.std.specs.Prelude.{◌≡◌};
ghost use Rattle.tables.specs.Checks.{checks};
ghost use Rattle.checks.specs.Checked.{checks_without_room};

use range_names::check_names;
use refusals::Reason;
use room_needs::check_room;
use tables::{Check, Tables, check_limits};

// Checks 1 to 6, of the tables and of the lengths of all that is lent besides.
pub fn checks(
    tables: &Tables,
    input: usize,
    events: usize,
    values: usize,
    room: usize,
    list: usize,
) -> Check
    ensures { result ≡ checks tables.now input events values room list }
{
    check_limits(input, events, values, room, list)?;
    tables.check_lists()?;
    tables.check_vectors()?;
    tables.check_signals()?;
    check_names(tables)?;
    check_room(tables, room, list)
}

// The checks of a call that is lent one output and no working room: 1 to 5, for 6 asks about working room alone.
pub fn checks_without_room(tables: &Tables, input: usize, out: usize) -> Check
    ensures { result ≡ checks_without_room tables.now input out }
{
    match checks(tables, input, out, 0, 0, 0) {
        Ok(()) => Ok(()),
        Err(refusal) => {
            if refusal.number() == Reason::RoomShort.number() {
                return Ok(());
            }
            Err(refusal)
        }
    }
}
