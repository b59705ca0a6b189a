// What the program prints.
use std::io;
use tables::Check;

fn line(rt: &impl Print, label: &[u8], number: u64, place: u64) -> io::Result<()> {
    rt.write_all(label)?;
    println!(rt; ": {number} {place}")
}

// An answer: 0 0 where the checks passed.
pub(crate) fn show(rt: &impl Print, label: &[u8], answer: Check) -> io::Result<()> {
    match answer {
        Ok(()) => line(rt, label, 0, 0),
        Err(refusal) => line(rt, label, refusal.number(), refusal.place() as u64),
    }
}
