// Runs over the tape, one loop each: a header and plain numbers in, no record and no sense.
#![tactic(auto)]

ghost use Rattle.std.specs.Prelude.{◌≡◌};
ghost use Rattle.transfer.specs.Moving.{halts};

pub mod marked; // marked.rt: how many of the blocks copied were marked
pub mod reading; // reading.rt: READ
pub mod spacing; // spacing.rt: SPACE over blocks and filemarks, both ways
pub mod writing; // writing.rt: WRITE and WRITE FILEMARK

// The runs take any header and any end within it, the stream device's and the floppy tape device's: what they ask stands in each contract.

// Why a run ended.
#[derive(Clone, Copy)]
pub enum Stop {
    Full, // all that was asked for is done
    AtFilemark,
    AtBadBlock,
    AtEnd,
    AtBeginning,
}

#[derive(Clone, Copy)]
pub struct Moved {
    pub place: u32, // where the tape stands
    pub left: u32, // how many of those asked for are not done
    pub stop: Stop,
}

// A word, since the literal with its fields' names takes five lines at each end of a run.
pub fn halt(place: u32, left: u32, stop: Stop) -> Moved
    ensures { result ≡ halts place left stop }
{
    Moved { place, left, stop }
}
