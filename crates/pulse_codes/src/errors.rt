// The error numbers (000, section 3.5) that 01 admits, by name; a record may hold any byte until its rules are judged.
ghost use Rattle.std.specs.Prelude.{◌≡◌};
ghost use Rattle.numbers.specs.Member.{is_in};
ghost use Rattle.pulse_codes.specs.Errors.{admitted, error_byte};

#[derive(Clone, Copy, PartialEq, Eq)]
pub enum ErrorNumber {
    NotReady = 1,
    CartridgeMissing = 2,
    UndefinedCommand = 6,
    IllegalTrack = 7,
    IllegalInReport = 8,
    NewCartridgePending = 13,
    NotReferenced = 19,
    PowerOnReset = 26,
    SoftwareReset = 27,
}

// By From, since docs/PROMISES.md names this conversion.
impl From<ErrorNumber> for u8 {
    ghost from_gives = { λ error byte. byte ≡ error_byte error };

    fn from(error: ErrorNumber) -> u8 {
        error as u8
    }
}

// 01: "error 0, 1, 2, 6, 7, 8, 13, 19, 26 or 27"; under "Forms by place" it asks for a short constant table of them.
const ADMITTED: [u8; 10] = [0, 1, 2, 6, 7, 8, 13, 19, 26, 27];

// By a loop, of which the compiler makes one test of bits for a constant table: each pulse call judges its record, so `contains` was felt.
#[tactic(auto, using(numbers::proofs::MemberLaws::found, numbers::proofs::MemberLaws::not_yet, numbers::proofs::MemberLaws::not_found))]
fn is_among(error: u8, table: &[u8]) -> bool
    ensures { result ≡ is_in error table.now }
{
    for listed in table {
        if *listed == error {
            return true;
        }
    }
    false
}

pub fn is_admitted(error: u8) -> bool
    ensures { result ≡ admitted error }
{
    is_among(error, &ADMITTED)
}
