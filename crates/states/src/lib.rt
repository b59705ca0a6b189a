// The state kinds of a vector, and the nine-state table.
#![tactic(auto)]

ghost use Rattle.std.specs.Prelude.{◌≡◌, ◌+◌, ◌*◌, ◌≤◌, ◌/◌, ◌%◌};
ghost use Rattle.states.specs.Kind.{bits, mask, per_byte, bytes_required, state_of};
ghost use Rattle.states.specs.Letters.{mapped, unmapped};

#[derive(Clone, Copy)]
pub enum States {
    Two,
    Nine,
}

impl States {
    pub const TWO_BITS: u32 = 1;

    pub const NINE_BITS: u32 = 4;

    pub const TWO_MASK: u8 = 1;

    pub const NINE_MASK: u8 = 15;

    pub const TWO_IN_A_BYTE: usize = 8;

    pub const NINE_IN_A_BYTE: usize = 2;

    // Bits per value.
    pub fn bits(self) -> u32
        ensures { result ≡ bits self }
    {
        match self {
            States::Two => States::TWO_BITS,
            States::Nine => States::NINE_BITS,
        }
    }

    pub fn mask(self) -> u8
        ensures { result ≡ mask self }
    {
        match self {
            States::Two => States::TWO_MASK,
            States::Nine => States::NINE_MASK,
        }
    }

    // Values per byte.
    pub fn bits_in_a_byte(self) -> usize
        ensures { result ≡ per_byte self }
    {
        match self {
            States::Two => States::TWO_IN_A_BYTE,
            States::Nine => States::NINE_IN_A_BYTE,
        }
    }

    // The bytes that the values of a vector of this width take.
    pub fn bytes_required(self, width: usize) -> usize
        ensures { result ≡ bytes_required self width }
    {
        match self {
            States::Two => width / States::TWO_IN_A_BYTE
                + (width % States::TWO_IN_A_BYTE + 7) / States::TWO_IN_A_BYTE,
            States::Nine => width / States::NINE_IN_A_BYTE + width % States::NINE_IN_A_BYTE,
        }
    }

    // The kind that a table's number names.
    pub fn of(number: u8) -> States
        ensures { result ≡ state_of number }
    {
        if number == 0 {
            States::Nine
        } else {
            States::Two
        }
    }
}

// From IEEE 1164's order to the order of the crate.
pub const STD_LOGIC_LUT: [u8; 9] = [5, 2, 0, 1, 3, 6, 7, 4, 8];

pub fn std_logic_entry(value: u8) -> u8
    requires { value ≤ 8 }
    ensures { result ≡ mapped value }
{
    STD_LOGIC_LUT[value as usize]
}

// The table's entries as the digits of one number, the first the lowest: a table is laid on the stack at each use, a number is not.
pub fn std_logic(value: u8) -> u8
    requires { value ≤ 8 }
    ensures { result ≡ mapped value }
{
    ((0x8_4763_1025u64 >> (value as u32 * 4)) % 16) as u8
}

// The other way round.
const IEEE1164_LUT: [u8; 9] = [2, 3, 1, 4, 7, 0, 5, 6, 8];

pub fn to_ieee1164(value: u8) -> u8
    requires { value ≤ 8 }
    ensures { result ≡ unmapped value }
{
    IEEE1164_LUT[value as usize]
}
