// 02, A1: the tape parameters, and the record of the floppy tape device.
ghost use Rattle.std.specs.Prelude.{◌≡◌, ◌≤◌, length};
ghost use Rattle.floppy_parts.specs.Tape.{product, flags_byte, reported_of, reset_tape, listed_tape, joined};

use numbers::counts::count2;
use numbers::flags::{is_set, weight_of};
use packet_parts::answers::beside;
use packet_parts::replies::SHORT_LIST;
use packet_state::state::{Outcome, State};

// "the rest is only stored and reported"
#[derive(Clone, Copy)]
pub struct Reported {
    pub density: u8,
    pub fill: u8,
    pub sector: u8, // MAXSECT
    pub cylinder: u8, // MAXCYL
    pub head: u8, // MAXHD
    pub deleted: bool, // WDAM
    pub reduced: bool, // RM
    pub formatting: bool, // FW
}

#[derive(Clone, Copy)]
pub struct Tape {
    pub bseg: u8, // blocks of a segment
    pub segtrk: u16, // segments of a track
    pub trks: u16, // tracks
    pub reported: Reported,
}

#[derive(Clone, Copy)]
pub struct Floppy {
    pub shared: State, // what every packet device keeps
    pub tape: Tape,
}

impl Reported {
    // The flags that a byte spells, and the rest 0: no From, since the byte says nothing of the rest.
    pub fn flagged(flags: u8) -> Reported
        ensures { result ≡ reported_of 0 0 0 0 0 flags }
    {
        Reported {
            density: 0,
            fill: 0,
            sector: 0,
            cylinder: 0,
            head: 0,
            deleted: is_set(flags, 0x80),
            reduced: is_set(flags, 0x40),
            formatting: is_set(flags, 0x20),
        }
    }

    // No From: the byte has the three flags alone, and not the rest.
    pub fn flags_byte(self) -> u8
        ensures { result ≡ flags_byte self }
    {
        weight_of(self.deleted, 0x80)
            + weight_of(self.reduced, 0x40)
            + weight_of(self.formatting, 0x20)
    }
}

impl Tape {
    #[tactic(auto, unfolding(crate::specs::Tape::reset_tape))]
    pub fn reset(capacity: u32) -> Tape
        requires { capacity ≤ 65535 }
        ensures { result ≡ reset_tape capacity }
    {
        Tape {
            bseg: 1,
            segtrk: capacity as u16,
            trks: 1,
            reported: Reported::flagged(0),
        }
    }

    // The page of a list stands after its header.
    // No From: 28 bytes are asked for, and the record has the same tape at other places.
    #[tactic(auto, unfolding(crate::specs::Tape::listed_tape))]
    pub fn listed(list: &[u8]) -> Tape
        requires { 28 ≤ length list.now }
        ensures { result ≡ listed_tape list.now }
    {
        let page = &list[SHORT_LIST..];
        let reported = Reported {
            density: page[2],
            fill: page[4],
            sector: page[10],
            cylinder: page[11],
            head: page[12],
            ..Reported::flagged(page[15])
        };
        Tape {
            bseg: page[5],
            segtrk: count2(page, 6),
            trks: count2(page, 8),
            reported,
        }
    }

    // BSEG*SEGTRK*TRKS reaches 1,095,183,237,375 and passes 32 bits, so it is a product of 64.
    #[tactic(auto, unfolding(crate::specs::Tape::product))]
    pub fn product(self) -> u64
        ensures { result ≡ product self }
    {
        self.bseg as u64 * self.segtrk as u64 * self.trks as u64
    }

    // Where the product is the end of a tape: within the elements of an image, so within 32 bits.
    pub fn end(self) -> u32
        requires { product self ≤ 65535 }
        ensures { result ≡ product self }
    {
        self.product() as u32
    }
}

// What was done with the shared record, beside these tape parameters.
pub fn joined(outcome: Outcome<State>, tape: Tape) -> Outcome<Floppy>
    ensures { result ≡ joined outcome tape }
{
    let shared = outcome.state;
    beside(outcome, Floppy { shared, tape })
}
