// How written sections are closed: the last delta, the end mark, the tailer.
#![tactic(auto)]

ghost use Rattle.std.specs.Prelude.{◌++◌, ◌≤◌, length, replicate};
ghost use Rattle.numbers.specs.Marks.{tai};
ghost use Rattle.number_writer.specs.Put.{Puts};
ghost use Rattle.sections_writer.specs.Writer.{cycle_end, closing};

use number_writer::{put_bytes, put_signed};
use numbers::marks::{ECY, TAI};
use sections_writer::Pen;

// "A closing delta of -1" and the end mark, where there is a cycle.
fn put_cycle_end(out: &mut [u8], at: usize, pen: Pen) -> Option<usize>
    requires { at ≤ length out.old }
    ensures { Puts out.old at (cycle_end pen) out.new result }
{
    if pen.steps == 0 {
        return Some(at);
    }
    let next = put_signed(out, at, 0xffff_ffff_ffff_ffff)?;
    put_bytes(out, next, &ECY)
}

// "A tailer with eight zero bytes".
fn put_tailer(out: &mut [u8], at: usize) -> Option<usize>
    ensures { Puts out.old at (tai ++ replicate 8 0) out.new result }
{
    let zeros: [u8; 8] = [0; 8];
    let next = put_bytes(out, at, &TAI)?;
    put_bytes(out, next, &zeros)
}

pub fn put_closing(out: &mut [u8], at: usize, pen: Pen) -> Option<usize>
    requires { at ≤ length out.old }
    ensures { Puts out.old at (closing pen) out.new result }
{
    let next = put_cycle_end(out, at, pen)?;
    put_tailer(out, next)
}
