// 01, "House refusal numbers": why a call is refused, by name; a host is told the number.
ghost use Rattle.std.specs.Prelude.{◌≡◌};
ghost use Rattle.numbers.specs.Refusals.{number_of};

#[derive(Clone, Copy, PartialEq, Eq)]
pub enum Refusal {
    NotTwelveBytes = 1,
    BrokenImage = 2,
    UnrulyRecord = 3,
    ShortBuffer = 4,
    EmptyTrain = 5,
    OutsideRanges = 6,
    AlreadySo = 7,
    RulesBroken = 8,
    ShortIndex = 9, // 02, A4
    StaleIndex = 10, // 02, A4
    CutLengths = 11, // 02, A7
    OtherLength = 12, // 02, A7
    TooManyItems = 13, // 02, A7
}

// By From, since docs/PROMISES.md names this conversion.
impl From<Refusal> for u8 {
    ghost from_gives = { λ refusal number. number ≡ number_of refusal };

    fn from(refusal: Refusal) -> u8 {
        refusal as u8
    }
}
