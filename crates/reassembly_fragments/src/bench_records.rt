// The records of the bench.
ghost use Rattle.std.specs.Prelude.{◌≤◌, length, IfOk};

use crate::text::fragment;
use buffer_contents::parts::rest;
use numbers::house::{get_u32, get_u64};
use std::io;

// A fragment is printed. Answers the length of the record: 1 fragment, 2 closed, 3 held.
fn one(rt: &impl Print, bytes: &[u8]) -> io::Result<usize>
    requires { 13 ≤ length bytes.now }
    ensures { IfOk result (λ n. 13 ≤ n) }
{
    if bytes[0] == 1 {
        fragment(rt, get_u64(bytes, 1), get_u32(bytes, 9))?;
    }
    if bytes[0] == 2 { Ok(21) } else { Ok(13) }
}

pub(crate) fn fragments(rt: &impl Print, out: &[u8]) -> io::Result<()> {
    let mut at: usize = 0;
    while 13 <= out.len() - at {
        let n = one(rt, rest(out, at))?;
        if out.len() - at < n {
            return Ok(());
        }
        at += n;
    }
    Ok(())
}
