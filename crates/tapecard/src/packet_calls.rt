// The calls of the packet drive.
ghost use Rattle.tapecard.specs.PacketCalls.{packet_card, PacketFreshPromise, PacketChangePromise, PacketCallPromise};

use crate::leaving::leave;
use packet_record::{decode_state, encode_state};

#[tactic(auto, using(crate::proofs::CallLaws::fresh_left))]
pub fn tapecard_fresh(state: &mut [u8; 16])
    ensures { PacketFreshPromise state.new }
{
    *state = encode_state(stream::fresh());
}

#[tactic(auto, using(crate::proofs::CallLaws::change_left))]
pub fn tapecard_change(state: &mut [u8; 16])
    ensures { PacketChangePromise state.old state.new }
{
    let before = decode_state(state);
    *state = encode_state(stream::changed(before));
}

pub fn tapecard_packet(
    state: &mut [u8; 16],
    image: &mut [u8],
    packet: &[u8],
    buf: &mut [u8],
    answer: &mut [u8; 16],
)
    ensures { PacketCallPromise state.old image.old packet.now buf.old
        (packet_card state.new image.new buf.new answer.new) }
{
    let left = stream::packet(image, decode_state(state), packet, buf);
    leave(state, answer, left);
}
