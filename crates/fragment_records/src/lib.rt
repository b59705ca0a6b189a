// The records that the bench writes.
#![tactic(auto)]

ghost use Rattle.std.specs.Prelude.{◌≡◌};
ghost use Rattle.fragment_records.specs.Output.{fragment, closed, held, out_bytes};

use numbers::house::{put_u32, put_u64};

pub fn fragment_bytes(time: u64, session: u32) -> [u8; 13]
    ensures { result ≡ out_bytes (fragment time session) }
{
    let mut bytes = [0u8; 13];
    bytes[0] = 1;
    put_u64(&mut bytes, 1, time);
    put_u32(&mut bytes, 9, session);
    bytes
}

pub fn closed_bytes(time: u64, session: u32, count: u64) -> [u8; 21]
    ensures { result ≡ out_bytes (closed time session count) }
{
    let mut bytes = [0u8; 21];
    bytes[0] = 2;
    put_u64(&mut bytes, 1, time);
    put_u32(&mut bytes, 9, session);
    put_u64(&mut bytes, 13, count);
    bytes
}

pub fn held_bytes(session: u32, count: u64) -> [u8; 13]
    ensures { result ≡ out_bytes (held session count) }
{
    let mut bytes = [0u8; 13];
    bytes[0] = 3;
    put_u32(&mut bytes, 1, session);
    put_u64(&mut bytes, 5, count);
    bytes
}
