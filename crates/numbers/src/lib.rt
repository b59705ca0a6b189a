// Numbers and marks in bytes: LEB128, integers of fixed size by the flag, house numbers, section marks.
#![tactic(auto)]

pub mod fixed;
pub mod house;
pub mod marks;
