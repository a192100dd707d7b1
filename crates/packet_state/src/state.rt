// 01, "The packet record and answers".
ghost use Rattle.std.specs.Prelude.{◌≡◌};
ghost use Rattle.packet_state.specs.States.{attention_of, at_place, with_loaded, with_locked, with_attention, with_speed, with_sense};
ghost use Rattle.packet_state.specs.States.{fresh_state, changed_state};

use crate::senses::no_sense;
use numbers::refusals::Refusal;

#[derive(Clone, Copy, PartialEq, Eq)]
pub enum Attention {
    Nothing = 0, // no None: the record's byte has the three, and 01 names each
    MediumChanged = 1,
    Reset = 2,
}

impl From<u8> for Attention {
    ghost from_gives = { λ byte attention. attention ≡ attention_of byte };

    #[tactic(auto, unfolding(crate::specs::States::attention_of))]
    fn from(byte: u8) -> Attention {
        match byte {
            1 => Attention::MediumChanged,
            2 => Attention::Reset,
            _ => Attention::Nothing,
        }
    }
}

#[derive(Clone, Copy)]
pub struct Sense {
    pub key: u8, // a byte: a record may hold one that is no Key, and above 15 until refusal 3 is judged
    pub asc: u8,
    pub ascq: u8,
    pub filemark: bool,
    pub eom: bool,
    pub valid: bool, // no Option: 01's record has both, and a host's record keeps a number beside a valid that is off
    pub information: u32,
}

#[derive(Clone, Copy)]
pub struct State {
    pub position: u32, // P
    pub loaded: bool,
    pub locked: bool, // 02, A8: the door
    pub attention: Attention,
    pub speed: u16,
    pub sense: Sense,
}

// What the answer tells of a packet that is not refused.
#[derive(Clone, Copy)]
pub struct Told {
    pub status: u8, // a byte of the C answer, by name in packet_parts
    pub blocks: u32,
    pub bytes: u32,
    pub marked: u32, // 02, A6: of the blocks that a READ copied
}

// What a packet that is not refused leaves of a device with the record R.
#[derive(Clone, Copy)]
pub struct Outcome<R> {
    pub answer: Told,
    pub state: R,
}

// How a packet that is answered ends: GOOD, or CHECK CONDITION with this sense.
pub type Ending = Result<(), Sense>;

// What is found before the work: three ways on, each by its name. As Result<Ending, Refusal> the last would be Ok(Ok(())), which says GOOD.
#[derive(Clone, Copy)]
pub enum Verdict {
    Refuses(Refusal),
    Ends(Sense),
    Works,
}

impl State {
    // ---- the record with one part replaced

    pub fn at_place(self, position: u32) -> State
        ensures { result ≡ at_place self position }
    {
        State { position, ..self }
    }

    pub fn with_loaded(self, loaded: bool) -> State
        ensures { result ≡ with_loaded self loaded }
    {
        State { loaded, ..self }
    }

    pub fn with_locked(self, locked: bool) -> State
        ensures { result ≡ with_locked self locked }
    {
        State { locked, ..self }
    }

    pub fn with_attention(self, attention: Attention) -> State
        ensures { result ≡ with_attention self attention }
    {
        State { attention, ..self }
    }

    pub fn with_speed(self, speed: u16) -> State
        ensures { result ≡ with_speed self speed }
    {
        State { speed, ..self }
    }

    pub fn with_sense(self, sense: Sense) -> State
        ensures { result ≡ with_sense self sense }
    {
        State { sense, ..self }
    }

    // ---- the records that 01 names

    // 01: "Fresh: P 0, loaded, attention reset, speed 0, sense zero."; 02, A2: "The fresh record's speed becomes 250 instead of 0."; A8: "a locked flag,
    // false when fresh".
    pub fn fresh() -> State
        ensures { result ≡ fresh_state }
    {
        State {
            position: 0,
            loaded: true,
            locked: false,
            attention: Attention::Reset,
            speed: 250,
            sense: no_sense(),
        }
    }

    // 01: "Changing the cartridge (never refused) sets only P 0, loaded, attention medium changed, sense zero."; 02, A8: the locked flag is "kept".
    pub fn changed(self) -> State
        ensures { result ≡ changed_state self }
    {
        self.at_place(0)
            .with_loaded(true)
            .with_attention(Attention::MediumChanged)
            .with_sense(no_sense())
    }
}
