// A case: the length of its label and the label, the three references, the room, how many value bytes, these, and the events.
use crate::text::show;
use buffer_contents::byte_or_zero;
use buffer_contents::parts::{first_bytes, rest};
use slices::{u32_of_byte, usize_of_byte};
use std::io;

pub(crate) fn two(s: &[u8]) -> usize {
    usize_of_byte(byte_or_zero(s, 0)) * 256 + usize_of_byte(byte_or_zero(s, 1))
}

fn four(s: &[u8]) -> u32 {
    ((u32_of_byte(byte_or_zero(s, 0)) * 256 + u32_of_byte(byte_or_zero(s, 1))) * 256
        + u32_of_byte(byte_or_zero(s, 2)))
        * 256
        + u32_of_byte(byte_or_zero(s, 3))
}

fn shown(
    rt: &impl Print,
    label: &[u8],
    events: &[u8],
    values: &[u8],
    session: u32,
    strobe: u32,
    close: u32,
    out: &mut [u8],
) -> io::Result<()> {
    let a = bench::doorquill_bench(events, values, session, strobe, close, out);
    show(rt, label, a, out)
}

// With so much room, full of garbage.
fn within(
    rt: &impl Print,
    label: &[u8],
    events: &[u8],
    values: &[u8],
    session: u32,
    strobe: u32,
    close: u32,
    out: &mut [u8],
    room: usize,
) -> io::Result<()> {
    if out.len() < room {
        return Ok(());
    }
    shown(
        rt,
        label,
        events,
        values,
        session,
        strobe,
        close,
        &mut out[..room],
    )
}

fn called(rt: &impl Print, label: &[u8], head: &[u8], data: &[u8]) -> io::Result<()> {
    let mut out = [0xa5u8; 2048];
    let count = two(rest(head, 14));
    within(
        rt,
        label,
        rest(data, count),
        first_bytes(data, count),
        four(head),
        four(rest(head, 4)),
        four(rest(head, 8)),
        &mut out,
        two(rest(head, 12)),
    )
}

pub(crate) fn run(rt: &impl Print, frame: &[u8]) -> io::Result<()> {
    let n = usize_of_byte(byte_or_zero(frame, 0));
    let body = rest(frame, 1 + n);
    called(rt, first_bytes(rest(frame, 1), n), body, rest(body, 16))
}
