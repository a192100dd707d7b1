// The arguments of a code: how many it takes, what one train of them says, and how their nibbles join.
ghost use Rattle.std.specs.Prelude.{◌≡◌, ◌≤◌, Some};
ghost use Rattle.pulse_codes.specs.Arguments.{needed, in_range, nibble_of, joined, waiting_fits, highest_nibble};

use crate::codes;

// Highest values of an argument: a nibble's, and a rate's.
const HIGHEST_NIBBLE: u16 = 15;

pub const HIGHEST_RATE: u16 = 3;

// The arguments that a code waits for, as a host's record keeps them: how many are held, and their value, the first nibble lowest.
#[derive(Clone, Copy, PartialEq, Eq)]
pub struct Waiting {
    pub code: u8, // the record's byte: any until its rules are judged
    pub held: u8,
    pub value: u16,
}

// 000, table 2b: how many arguments each code takes, by code; 01 asks for a short constant table of them.
const ARGUMENT_COUNTS: [u8; 36] = [
    0, 0, 0, 0, 0, 0, 0, 0, 0, 0, 0, 0, 0, 1, 0, 0, 0, 0, 0, 0, 0, 0, 0, 0, 0, 2, 2, 1, 0, 0, 0, 0,
    0, 0, 3, 3,
];

pub fn needed_arguments(code: u8) -> u8
    ensures { result ≡ needed code }
{
    if code < 36 {
        return ARGUMENT_COUNTS[code as usize];
    }
    0
}

fn is_in_range(code: u8, value: u16) -> bool
    ensures { result ≡ in_range code value }
{
    match code as u16 {
        codes::SEEK_TRACK => true,
        codes::SELECT_RATE => value <= HIGHEST_RATE,
        _ => value <= HIGHEST_NIBBLE,
    }
}

// 01: "its value is n - 2", and 0 below 2; none where it is out of range.
#[tactic(auto, unfolding(crate::specs::Arguments::nibble_of))]
pub fn read_nibble(code: u8, n: u16) -> Option<u16>
    ensures { result ≡ nibble_of code n }
{
    let value = n.saturating_sub(2);
    if is_in_range(code, value) {
        return Some(value);
    }
    None
}

impl Waiting {
    // One nibble more above the nibbles held.
    pub fn join(self, nibble: u16) -> u16
        requires { nibble ≤ highest_nibble }
        ensures { result ≡ joined self.value self.held nibble }
    {
        match self.held {
            0 => nibble,
            1 => self.value % 16 + nibble * 16,
            _ => self.value % 256 + nibble * 256,
        }
    }

    fn fits(self, free: bool, referenced: bool) -> bool
        ensures { result ≡ waiting_fits (Some self) free referenced }
    {
        let code = self.code as u16;
        let referring = (code == codes::SEEK_TRACK) | codes::is_skip(code);
        (self.held < needed_arguments(self.code)) & free & (referenced | !referring)
    }
}

pub fn waiting_fits(w: Option<Waiting>, free: bool, referenced: bool) -> bool
    ensures { result ≡ waiting_fits w free referenced }
{
    w.is_none_or(|waiting| waiting.fits(free, referenced))
}
