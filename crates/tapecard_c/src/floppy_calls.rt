// 02, A1: the calls of the floppy tape device.
ghost use Rattle.tapecard.specs.FloppyCalls.{floppy_card, floppy_told};
ghost use Rattle.tapecard.specs.FloppyCalls.{FloppyFreshPromise, FloppyChangePromise, FloppyCallPromise};

#[unsafe(no_mangle)]
pub extern "C" fn tapecard_floppy_fresh(state: &mut [u8; 32], image: &[u8], answer: &mut [u8; 16])
    ensures { FloppyFreshPromise state.old image.now (floppy_told state.new answer.new) }
{
    tapecard::floppy_calls::tapecard_floppy_fresh(state, image, answer);
}

#[unsafe(no_mangle)]
pub extern "C" fn tapecard_floppy_change(state: &mut [u8; 32], image: &[u8], answer: &mut [u8; 16])
    ensures { FloppyChangePromise state.old image.now (floppy_told state.new answer.new) }
{
    tapecard::floppy_calls::tapecard_floppy_change(state, image, answer);
}

#[unsafe(no_mangle)]
pub extern "C" fn tapecard_floppy_packet(
    state: &mut [u8; 32],
    image: &mut [u8],
    packet: &[u8],
    buf: &mut [u8],
    answer: &mut [u8; 16],
)
    ensures { FloppyCallPromise state.old image.old packet.now buf.old
        (floppy_card state.new image.new buf.new answer.new) }
{
    tapecard::floppy_calls::tapecard_floppy_packet(state, image, packet, buf, answer);
}
