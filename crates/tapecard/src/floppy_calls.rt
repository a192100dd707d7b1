// 02, A1: the calls of the floppy tape device.
ghost use Rattle.tapecard.specs.FloppyCalls.{floppy_card, floppy_told};
ghost use Rattle.tapecard.specs.FloppyCalls.{FloppyFreshPromise, FloppyChangePromise, FloppyCallPromise};

use crate::leaving::leave;
use floppy_record::decode_floppy;

pub fn tapecard_floppy_fresh(state: &mut [u8; 32], image: &[u8], answer: &mut [u8; 16])
    ensures { FloppyFreshPromise state.old image.now (floppy_told state.new answer.new) }
{
    let left = floppy::fresh(image, decode_floppy(state));
    leave(state, answer, left);
}

pub fn tapecard_floppy_change(state: &mut [u8; 32], image: &[u8], answer: &mut [u8; 16])
    ensures { FloppyChangePromise state.old image.now (floppy_told state.new answer.new) }
{
    let left = floppy::changed(image, decode_floppy(state));
    leave(state, answer, left);
}

pub fn tapecard_floppy_packet(
    state: &mut [u8; 32],
    image: &mut [u8],
    packet: &[u8],
    buf: &mut [u8],
    answer: &mut [u8; 16],
)
    ensures { FloppyCallPromise state.old image.old packet.now buf.old
        (floppy_card state.new image.new buf.new answer.new) }
{
    let left = floppy::packet(image, decode_floppy(state), packet, buf);
    leave(state, answer, left);
}
