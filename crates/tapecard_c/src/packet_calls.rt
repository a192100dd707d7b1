// The calls of the packet drive.
ghost use Rattle.tapecard.specs.PacketCalls.{packet_card, PacketFreshPromise, PacketChangePromise, PacketCallPromise};

#[unsafe(no_mangle)]
pub extern "C" fn tapecard_fresh(state: &mut [u8; 16])
    ensures { PacketFreshPromise state.new }
{
    tapecard::packet_calls::tapecard_fresh(state);
}

#[unsafe(no_mangle)]
pub extern "C" fn tapecard_change(state: &mut [u8; 16])
    ensures { PacketChangePromise state.old state.new }
{
    tapecard::packet_calls::tapecard_change(state);
}

#[unsafe(no_mangle)]
pub extern "C" fn tapecard_packet(
    state: &mut [u8; 16],
    image: &mut [u8],
    packet: &[u8],
    buf: &mut [u8],
    answer: &mut [u8; 16],
)
    ensures { PacketCallPromise state.old image.old packet.now buf.old
        (packet_card state.new image.new buf.new answer.new) }
{
    tapecard::packet_calls::tapecard_packet(state, image, packet, buf, answer);
}
