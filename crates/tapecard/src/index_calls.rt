// 02, A4: the calls with an index of filemark places.
ghost use Rattle.tapecard.specs.PacketCalls.{packet_card};
ghost use Rattle.tapecard.specs.IndexCalls.{index_told, index_card, IndexMakePromise, IndexCallPromise};

use crate::leaving::leave;
use packet_record::{decode_state, encode_answer};

pub fn tapecard_index_make(image: &[u8], index: &mut [u8], answer: &mut [u8; 16])
    ensures { IndexMakePromise image.now index.old (index_told index.new answer.new) }
{
    *answer = encode_answer(index::make(image, index));
}

pub fn tapecard_index_packet(
    state: &mut [u8; 16],
    image: &mut [u8],
    index: &mut [u8],
    packet: &[u8],
    buf: &mut [u8],
    answer: &mut [u8; 16],
)
    ensures { IndexCallPromise state.old image.old index.old packet.now buf.old
        (index_card (packet_card state.new image.new buf.new answer.new) index.new) }
{
    let left = index::packet(image, index, decode_state(state), packet, buf);
    leave(state, answer, left);
}
