// What a buffer holds, told by a look at each of its numbers.
#![tactic(auto)]

pub mod parts;

ghost use Rattle.std.specs.Prelude.{◌≡◌, get_or};
ghost use Rattle.std.specs.List.{list_all};
ghost use Rattle.buffer_contents.specs.Held.{is_held, is_zero};

// The byte at a place, and 0 past the end.
pub fn byte_or_zero(s: &[u8], i: usize) -> u8
    ensures { result ≡ get_or s.now i 0 }
{
    s.get(i).copied().unwrap_or(0)
}

fn are_all<T: PartialEq>(items: &[T], x: &T) -> bool
    ensures { result ≡ list_all (λ y. T.eq y x.now) items.now }
{
    items.iter().all(|y| y == x)
}

// Whether an output holds these bytes, and zeros after them.
#[tactic(auto, using(crate::specs::Held::Code::held_laws))]
pub fn holds(out: &[u8], want: &[u8]) -> bool
    ensures { result ≡ is_held out.now want.now }
{
    out.strip_prefix(want).is_some_and(|rest| are_all(rest, &0))
}

// Whether a list holds zeros alone.
#[tactic(auto, using(crate::specs::Held::Code::zero_laws))]
pub fn all_zero(list: &[u32]) -> bool
    ensures { result ≡ is_zero list.now }
{
    are_all(list, &0)
}
