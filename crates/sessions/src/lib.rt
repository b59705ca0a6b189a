// The sessions that are live, each at a place with its count.
#![tactic(auto)]

ghost use Rattle.std.specs.Prelude.{◌≡◌, ◌<◌, ◌≤◌};
ghost use Rattle.sessions.specs.Places.{is_at, place_of, free_place, place_for, counted, dropped};
ghost use Rattle.sessions.specs.Places.Code.{Countable};

// "The bench state holds at most 32 live sessions and their counts": the session of each place, and how many fragments it has; 0 for a free place.
#[derive(Clone, Copy)]
pub struct Bench {
    pub sessions: [u32; 32],
    pub counts: [u64; 32],
}

// A session is live at a place.
fn is_at(bench: Bench, session: u32, k: usize) -> bool
    requires { k < 32 }
    ensures { result ≡ is_at bench session k }
{
    if bench.counts[k] == 0 {
        return false;
    }
    bench.sessions[k] == session
}

// The place of a session, or 32 where it isn't live.
pub fn place_of(bench: Bench, session: u32) -> usize
    ensures { (result ≡ place_of bench session) × (result ≤ 32) }
{
    for k in 0..32 {
        if is_at(bench, session, k) {
            return k;
        }
    }
    32
}

// The lowest place that is free, or 32.
fn free_place(bench: Bench) -> usize
    ensures { (result ≡ free_place bench) × (result ≤ 32) }
{
    for k in 0..32 {
        if bench.counts[k] == 0 {
            return k;
        }
    }
    32
}

// Where a fragment of a session is counted, or 32.
pub fn place_for(bench: Bench, session: u32) -> usize
    ensures { (result ≡ place_for bench session) × (result ≤ 32) }
{
    let k = place_of(bench, session);
    if k < 32 {
        return k;
    }
    free_place(bench)
}

pub fn counted(bench: Bench, k: usize, session: u32) -> Bench
    requires { Countable bench k }
    ensures { result ≡ counted bench k session }
{
    let n = bench.counts[k];
    let mut next = bench;
    next.sessions[k] = session;
    next.counts[k] = n + 1;
    next
}

pub fn dropped(bench: Bench, k: usize) -> Bench
    requires { k < 32 }
    ensures { result ≡ dropped bench k }
{
    let mut next = bench;
    next.counts[k] = 0;
    next
}
