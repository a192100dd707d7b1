// 01: "Packet order: 1, 2, 3, attention, opcode, fields, not ready, protection, 4, list contents, the work.", once for every packet device.
ghost use Rattle.std.specs.Prelude.{◌≡◌, ◌≤◌, ℕ, List, length, IfSome, IfOk, Some, true};
ghost use Rattle.image.specs.Header.{header_of};
ghost use Rattle.packet_state.specs.declared.state.Verdict.TheVariants.{Works};
ghost use Rattle.packet_parts.specs.declared.requests.Request.{Request};
ghost use Rattle.packet_parts.specs.Answers.{done, left};
ghost use Rattle.packet_parts.specs.Shell.{Device, Begun, accepted_header, begun, found_by, ended_early, decided, answers_to};

use crate::requests::Request;
use image::header::Header;
use numbers::refusals::Refusal;
use packet_state::state::{Outcome, Sense, Verdict};

const PACKET_LENGTH: usize = 12;

// The parts of a device that are its own, each held to the device that specs/ says it is.
// Image, record and buffer come one by one, as a host has them: a struct of the three would be made only to be taken apart.
pub trait PacketDevice {
    type Record: Copy;

    ghost device: { Device Self.Record };

    // what a request of the device keeps
    ghost fits: { Request → Type 0 };

    fn header_of(image: &[u8]) -> Option<Header>
        ensures value { result ≡ accepted_header device image.now }
        ensures sound { IfSome result (λ h. header_of image.now ≡ Some h) };

    fn keeps_rules(h: Header, state: Self::Record) -> bool
        ensures { result ≡ device.keeps_rules h state };

    fn request(packet: &[u8]) -> Request
        requires { length packet.now ≡ 12 }
        ensures value { result ≡ device.request packet.now }
        ensures fitting { fits result };

    fn verdict(h: Header, state: Self::Record, q: Request, room: usize) -> Verdict
        requires capacity_bound { h.capacity ≤ 65535 }
        requires ruled { device.keeps_rules h state ≡ true }
        ensures { result ≡ found_by device h state q room };

    fn end_before(state: Self::Record, sense: Sense) -> Outcome<Self::Record>
        ensures { result ≡ ended_early device state sense };

    fn work(
        image: &mut [u8],
        h: Header,
        state: Self::Record,
        q: Request,
        buf: &mut [u8],
    ) -> Outcome<Self::Record>
        requires begun { Begun device image.old h state }
        requires fitting { fits q }
        requires works { found_by device h state q (length buf.old) ≡ Works }
        ensures { done result image.new buf.new ≡ device.work image.old h state q buf.old };
}

// Refusals 1 to 3; the header of an image that is taken.
#[tactic(auto, using(crate::proofs::ShellLaws::begun_ways))]
pub fn begin<D: PacketDevice>(
    image: &[u8],
    state: D::Record,
    packet: &[u8],
) -> Result<Header, Refusal>
    ensures value { result ≡ begun D.device image.now state packet.now }
    ensures passed { IfOk result (λ h. Begun D.device image.now h state) }
{
    if packet.len() != PACKET_LENGTH {
        return Err(Refusal::NotTwelveBytes);
    }
    let h = D::header_of(image).ok_or(Refusal::BrokenImage)?;
    if D::keeps_rules(h, state) {
        return Ok(h);
    }
    Err(Refusal::UnrulyRecord)
}

#[tactic(auto, using(crate::proofs::ShellLaws::decided_ways))]
fn decide<D: PacketDevice>(
    image: &mut [u8],
    h: Header,
    state: D::Record,
    q: Request,
    buf: &mut [u8],
) -> Result<Outcome<D::Record>, Refusal>
    requires begun { Begun D.device image.old h state }
    requires fitting { D.fits q }
    ensures { left state result image.new buf.new ≡ decided D.device image.old h state q buf.old }
{
    match D::verdict(h, state, q, buf.len()) {
        Verdict::Refuses(refusal) => Err(refusal),
        Verdict::Ends(sense) => Ok(D::end_before(state, sense)),
        Verdict::Works => Ok(D::work(image, h, state, q, buf)),
    }
}

#[tactic(auto, using(crate::proofs::ShellLaws::answer_ways))]
pub fn answer<D: PacketDevice>(
    image: &mut [u8],
    state: D::Record,
    packet: &[u8],
    buf: &mut [u8],
) -> Result<Outcome<D::Record>, Refusal>
    ensures { left state result image.new buf.new ≡ answers_to D.device image.old state packet.now buf.old }
{
    let h = begin::<D>(image, state, packet)?;
    decide::<D>(image, h, state, D::request(packet), buf)
}
