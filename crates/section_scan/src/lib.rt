// Section reading, as definitions: `specs/Sections.antt` has its scan. What a delta leads to is named here.
#![tactic(auto)]

// The next id of a change list and the place after its delta, or the place after the list's last delta.
#[derive(Clone, Copy, PartialEq, Eq, Debug)]
pub enum NextId {
    Id(usize, usize),
    End(usize),
}

// The next time of a cycle and the place after its delta, or the place after the cycle's last delta.
#[derive(Clone, Copy, PartialEq, Eq, Debug)]
pub enum NextTime {
    Time(u64, usize),
    End(usize),
}
