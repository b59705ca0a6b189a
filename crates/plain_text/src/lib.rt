// Text in a lent room: as much of it as fits.
#![tactic(auto)]

ghost use Rattle.std.specs.Prelude.{◌≡◌, ◌<◌, ◌≤◌, ◌/◌, ◌%◌, [], ◌∷◌};
ghost use Rattle.plain_text.specs.Text.{digit, decimal, hex};
ghost use Rattle.plain_text.specs.Text.Laws.{Adds};

use itoa::Buffer;
use slices::copy_part;

// Writes what fits of `bytes`, and says where the text then ends.
pub fn put(text: &mut [u8], at: usize, bytes: &[u8]) -> usize
    ensures { Adds text.old at bytes.now text.new result }
{
    if text.len() <= at {
        return at;
    }
    let n = bytes.len().min(text.len() - at);
    copy_part(bytes, 0, n, text, at);
    at + n
}

fn glyph(d: u8) -> u8
    requires { d < 16 }
    ensures { result ≡ digit d }
{
    if d < 10 { 48 + d } else { 87 + d }
}

pub fn put_decimal(text: &mut [u8], at: usize, number: u64) -> usize
    ensures { Adds text.old at (decimal number) text.new result }
{
    let mut digits = Buffer::new();
    put(text, at, digits.format(number).as_bytes())
}

// The two digits of a byte.
fn put_byte(text: &mut [u8], at: usize, byte: u8) -> usize
    ensures { Adds text.old at (digit (byte / 16) ∷ digit (byte % 16) ∷ []) text.new result }
{
    let pair = [glyph(byte / 16), glyph(byte % 16)];
    put(text, at, &pair)
}

pub fn put_hex(text: &mut [u8], at: usize, bytes: &[u8]) -> usize
    ensures { Adds text.old at (hex bytes.now) text.new result }
{
    let mut end = at;
    for byte in bytes {
        end = put_byte(text, end, *byte);
    }
    end
}
