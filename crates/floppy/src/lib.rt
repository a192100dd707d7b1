// The floppy tape device (QIC-172): every packet answered over a lent image with U = C and a lent buffer.
#![tactic(auto)]

pub mod work; // work.rt: one function a command

ghost use Rattle.std.specs.Prelude.{◌≡◌, []};
ghost use Rattle.packet_parts.specs.Answers.{left};
ghost use Rattle.floppy.specs.Packet.{floppy_device, mounted, FreshPromise, ChangedPromise, PacketPromise};

use floppy_parts::headers::full_header_of;
use floppy_parts::requests::floppy_request;
use floppy_parts::rules::keeps_floppy_rules;
use floppy_parts::settings::tape_after;
use floppy_parts::tape::{Floppy, Tape, joined};
use image::header::Header;
use numbers::refusals::Refusal;
use packet_parts::answers::{end, end_before};
use packet_parts::requests::Request;
use packet_parts::shell::{PacketDevice, answer};
use packet_state::state::{Outcome, Sense, State, Verdict};

// What the floppy tape device has of its own, for the one order in which every packet device answers.
pub struct FloppyDevice;

impl PacketDevice for FloppyDevice {
    type Record = Floppy;

    ghost device = { floppy_device };

    ghost fits = { λ q. Unit };

    #[tactic(auto, using(floppy_parts::proofs::FullLaws::full_header), unfolding(floppy_parts::specs::Headers::full_header_of))]
    fn header_of(image: &[u8]) -> Option<Header> {
        full_header_of(image)
    }

    fn keeps_rules(h: Header, floppy: Floppy) -> bool {
        keeps_floppy_rules(h, floppy)
    }

    fn request(packet: &[u8]) -> Request {
        floppy_request(packet)
    }

    #[tactic(auto, using(crate::proofs::PacketLaws::end_bound))]
    fn verdict(h: Header, floppy: Floppy, q: Request, room: usize) -> Verdict {
        floppy_parts::checks::verdict(h, floppy.shared, floppy.tape.end(), q, room)
    }

    fn end_before(floppy: Floppy, sense: Sense) -> Outcome<Floppy> {
        joined(end_before(floppy.shared, sense), floppy.tape)
    }

    #[tactic(auto, using(crate::proofs::PacketLaws::work_ways))]
    fn work(
        image: &mut [u8],
        h: Header,
        floppy: Floppy,
        q: Request,
        buf: &mut [u8],
    ) -> Outcome<Floppy> {
        let after = tape_after(h, floppy.tape, q, buf);
        joined(work::work(image, h, floppy, q, buf), after)
    }
}

// The next record over this image, or 2, and the record `before` stays with whoever asked.
#[tactic(auto, using(crate::proofs::PacketLaws::mount_ways))]
fn mount(image: &[u8], before: Floppy, next: State) -> Result<Outcome<Floppy>, Refusal>
    ensures { left before result image.now [] ≡ mounted image.now before next }
{
    let h = full_header_of(image).ok_or(Refusal::BrokenImage)?;
    Ok(joined(end(next, Ok(()), 0, 0), Tape::reset(h.capacity)))
}

// 02, A1: "the fresh record .. read[s] C from the image".
pub fn fresh(image: &[u8], before: Floppy) -> Result<Outcome<Floppy>, Refusal>
    ensures { FreshPromise image.now before result }
{
    mount(image, before, State::fresh())
}

// Over an image too, so it may be refused 2; the stream device's is never refused.
pub fn changed(image: &[u8], before: Floppy) -> Result<Outcome<Floppy>, Refusal>
    ensures { ChangedPromise image.now before result }
{
    mount(image, before, before.shared.changed())
}

pub fn packet(
    image: &mut [u8],
    before: Floppy,
    packet: &[u8],
    buf: &mut [u8],
) -> Result<Outcome<Floppy>, Refusal>
    ensures { PacketPromise image.old before packet.now buf.old result image.new buf.new }
{
    answer::<FloppyDevice>(image, before, packet, buf)
}
