// "Marks are three letters and a zero byte."
ghost use Rattle.std.specs.Prelude.{◌≡◌, ◌+◌, ◌≤◌, length};
ghost use Rattle.slices.specs.Splice.{part};
ghost use Rattle.numbers.specs.Marks.{same, section_of};

pub const SNP: [u8; 4] = *b"SNP\0";

pub const CYC: [u8; 4] = *b"CYC\0";

pub const DIR: [u8; 4] = *b"DIR\0";

pub const TAI: [u8; 4] = *b"TAI\0";

pub const ESN: [u8; 4] = *b"ESN\0";

pub const ECY: [u8; 4] = *b"ECY\0";

pub const EOD: [u8; 4] = *b"EOD\0";

pub fn is_mark(s: &[u8], at: usize, mark: &[u8; 4]) -> bool
    requires { at + 4 ≤ length s.now }
    ensures { result ≡ same (part s.now at 4) mark.now }
{
    let m: &[u8] = mark;
    if s[at] != m[0] {
        return false;
    }
    if s[at + 1] != m[1] {
        return false;
    }
    if s[at + 2] != m[2] {
        return false;
    }
    s[at + 3] == m[3]
}

// What a section mark opens.
#[derive(Clone, Copy)]
pub enum Section {
    Snapshot,
    Cycle,
    Directory,
    Tailer,
    Unknown,
}

pub fn section_at(s: &[u8], at: usize) -> Section
    requires { at + 4 ≤ length s.now }
    ensures { result ≡ section_of (part s.now at 4) }
{
    if is_mark(s, at, &SNP) {
        return Section::Snapshot;
    }
    if is_mark(s, at, &CYC) {
        return Section::Cycle;
    }
    if is_mark(s, at, &DIR) {
        return Section::Directory;
    }
    if is_mark(s, at, &TAI) {
        return Section::Tailer;
    }
    Section::Unknown
}
