// LEB128 numbers, as DWARF defines them, of at most ten bytes.
#![tactic(auto)]

ghost use Rattle.std.specs.Prelude.{◌≡◌, ◌+◌, ◌<◌, ◌≤◌, ◌^◌, length};
ghost use Rattle.leb128.specs.Leb128.{read_unsigned, read_signed};
ghost use Rattle.leb128.specs.Leb128.Nine.{signed_end};
ghost use Rattle.leb128.specs.Leb128.Nine.{Nine};

// Why there is no number.
#[derive(Clone, Copy, PartialEq, Eq, Debug)]
pub enum LebError {
    // The input ends inside it.
    Short,
    // It does not fit 64 bits, or has more than ten bytes.
    Large,
}

// The first nine bytes of a number, or fewer where it ends before.
#[derive(Clone, Copy)]
enum Run {
    // It ends there: the sum of its groups, 128 to the number of them, its last byte, and the place after it.
    Ended {
        sum: u64,
        power: u64,
        last: u8,
        next: usize,
    },
    // It goes on after nine: the sum of their groups, and the place of the tenth byte.
    Open {
        sum: u64,
        tenth: usize,
    },
}

fn nine(s: &[u8], at: usize) -> Result<Run, LebError>
    ensures { Nine s.now at result }
{
    let mut sum: u64 = 0;
    let mut power: u64 = 1;
    let mut i = at;
    let mut k: usize = 0;
    while k < 9 {
        if s.len() <= i {
            return Err(LebError::Short);
        }
        let b = s[i];
        sum += (b % 128) as u64 * power;
        power *= 128;
        i += 1;
        if b < 128 {
            return Ok(Run::Ended {
                sum,
                power,
                last: b,
                next: i,
            });
        }
        k += 1;
    }
    Ok(Run::Open { sum, tenth: i })
}

// A number and the place after it.
pub fn unsigned(s: &[u8], at: usize) -> Result<(u64, usize), LebError>
    ensures { result ≡ read_unsigned s.now at }
{
    // Most numbers have one byte, or two.
    if at < s.len() {
        let first = s[at];
        if first < 128 {
            return Ok(((first % 128) as u64, at + 1));
        }
        if 1 < s.len() - at {
            let second = s[at + 1];
            if second < 128 {
                return Ok(((first % 128) as u64 + (second % 128) as u64 * 128, at + 2));
            }
        }
    }
    match nine(s, at)? {
        Run::Ended { sum, next, .. } => Ok((sum, next)),
        Run::Open { sum, tenth } => {
            if s.len() <= tenth {
                return Err(LebError::Short);
            }
            let b = s[tenth];
            if b <= 1 {
                Ok((sum + (b % 128) as u64 * 0x8000_0000_0000_0000, tenth + 1))
            } else {
                Err(LebError::Large)
            }
        }
    }
}

// A signed number that ends: its groups' sum, 128 to the number of them, its last byte, and the place after it.
fn ends(sum: u64, power: u64, last: u8, next: usize) -> Result<(u64, usize), LebError>
    requires { (sum < power) × (power ≤ 2 ^ 63) }
    ensures { result ≡ signed_end sum power last next }
{
    if last < 64 {
        Ok((sum, next))
    } else {
        Ok((sum + (0xffff_ffff_ffff_ffff - power) + 1, next))
    }
}

fn signed_long(s: &[u8], at: usize) -> Result<(u64, usize), LebError>
    ensures { result ≡ read_signed s.now at }
{
    match nine(s, at)? {
        Run::Ended {
            sum,
            power,
            last,
            next,
        } => ends(sum, power, last, next),
        Run::Open { sum, tenth } => {
            if s.len() <= tenth {
                return Err(LebError::Short);
            }
            let b = s[tenth];
            if b == 0 {
                return Ok((sum, tenth + 1));
            }
            if b == 127 {
                Ok((sum + 0x8000_0000_0000_0000, tenth + 1))
            } else {
                Err(LebError::Large)
            }
        }
    }
}

// Most signed numbers have at most four bytes: a delta of 100 ns, say.
fn signed_near(s: &[u8], at: usize) -> Result<(u64, usize), LebError>
    requires { at + 4 ≤ length s.now }
    ensures { result ≡ read_signed s.now at }
{
    let a = s[at];
    if a < 128 {
        return ends((a % 128) as u64, 128, a, at + 1);
    }
    let b = s[at + 1];
    let two = (a % 128) as u64 + (b % 128) as u64 * 128;
    if b < 128 {
        return ends(two, 0x4000, b, at + 2);
    }
    let c = s[at + 2];
    let three = two + (c % 128) as u64 * 0x4000;
    if c < 128 {
        return ends(three, 0x20_0000, c, at + 3);
    }
    let d = s[at + 3];
    if d < 128 {
        return ends(three + (d % 128) as u64 * 0x20_0000, 0x1000_0000, d, at + 4);
    }
    signed_long(s, at)
}

// A signed number, as its 64 bits in two's complement, and the place after it.
pub fn signed(s: &[u8], at: usize) -> Result<(u64, usize), LebError>
    ensures { result ≡ read_signed s.now at }
{
    if at < s.len() {
        if 4 <= s.len() - at {
            return signed_near(s, at);
        }
    }
    signed_long(s, at)
}
