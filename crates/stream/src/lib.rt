// The packet drive (stream device): every packet answered over a lent image and a lent buffer.
#![tactic(auto)]

pub mod work; // work.rt: one function a command

ghost use Rattle.std.specs.Prelude.{◌^◌, ◌<◌};
ghost use Rattle.stream.specs.Packet.{stream_device, FreshPromise, ChangedPromise, PacketPromise};

use image::header::{Header, header_of};
use numbers::refusals::Refusal;
use packet_parts::answers::end_before;
use packet_parts::requests::Request;
use packet_parts::shell::{PacketDevice, answer};
use packet_state::rules::keeps_record_rules;
use packet_state::state::{Outcome, Sense, State, Verdict};
use stream_parts::checks::verdict;
use stream_parts::requests::request_of;

// What the stream device has of its own, for the one order in which every packet device answers.
pub struct StreamDevice;

impl PacketDevice for StreamDevice {
    type Record = State;

    ghost device = { stream_device };

    ghost fits = { λ q. q.count < 2 ^ 24 };

    #[tactic(auto, unfolding(image::specs::Header::header_of))]
    fn header_of(image: &[u8]) -> Option<Header> {
        header_of(image)
    }

    fn keeps_rules(h: Header, state: State) -> bool {
        keeps_record_rules(h.recorded, state)
    }

    fn request(packet: &[u8]) -> Request {
        request_of(packet)
    }

    fn verdict(h: Header, state: State, q: Request, room: usize) -> Verdict {
        verdict(h, state, q, room)
    }

    fn end_before(state: State, sense: Sense) -> Outcome<State> {
        end_before(state, sense)
    }

    fn work(
        image: &mut [u8],
        h: Header,
        state: State,
        q: Request,
        buf: &mut [u8],
    ) -> Outcome<State> {
        work::work(image, h, state, q, buf)
    }
}

pub fn fresh() -> State
    ensures { FreshPromise result }
{
    State::fresh()
}

pub fn changed(state: State) -> State
    ensures { ChangedPromise state result }
{
    state.changed()
}

pub fn packet(
    image: &mut [u8],
    state: State,
    packet: &[u8],
    buf: &mut [u8],
) -> Result<Outcome<State>, Refusal>
    ensures { PacketPromise image.old state packet.now buf.old result image.new buf.new }
{
    answer::<StreamDevice>(image, state, packet, buf)
}
