// 02, A7: the calls that write a cartridge out as a SIMH tape file and read such a file in.
ghost use Rattle.tapecard.specs.PacketCalls.{packet_card};
ghost use Rattle.tapecard.specs.ExchangeCalls.{export_told, ExportCallPromise, ImportCallPromise};

use crate::leaving::leave;
use exchange::exporting::export;
use exchange::importing::import;
use packet_record::{decode_state, encode_answer};

pub fn tapecard_export(image: &[u8], file: &mut [u8], answer: &mut [u8; 16])
    ensures { ExportCallPromise image.now file.old (export_told file.new answer.new) }
{
    *answer = encode_answer(export(image, file));
}

pub fn tapecard_import(state: &mut [u8; 16], image: &mut [u8], file: &[u8], answer: &mut [u8; 16])
    ensures { ImportCallPromise state.old image.old file.now
        (packet_card state.new image.new file.now answer.new) }
{
    let left = import(image, decode_state(state), file);
    leave(state, answer, left);
}
