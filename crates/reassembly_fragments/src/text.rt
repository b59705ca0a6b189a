// What the program prints.
use std::io;

pub(crate) fn fragment(rt: &impl Print, time: u64, session: u32) -> io::Result<()> {
    println!(rt; "fragment {time} {session:08x}")
}

pub(crate) fn refused(rt: &impl Print, number: u64, place: u64) -> io::Result<()> {
    println!(rt; "refused {number} {place}")
}
