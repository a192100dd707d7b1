// 02, A7: the calls that write a cartridge out as a SIMH tape file and read such a file in.
ghost use Rattle.tapecard.specs.PacketCalls.{packet_card};
ghost use Rattle.tapecard.specs.ExchangeCalls.{export_told, ExportCallPromise, ImportCallPromise};

#[unsafe(no_mangle)]
pub extern "C" fn tapecard_export(image: &[u8], file: &mut [u8], answer: &mut [u8; 16])
    ensures { ExportCallPromise image.now file.old (export_told file.new answer.new) }
{
    tapecard::exchange_calls::tapecard_export(image, file, answer);
}

#[unsafe(no_mangle)]
pub extern "C" fn tapecard_import(
    state: &mut [u8; 16],
    image: &mut [u8],
    file: &[u8],
    answer: &mut [u8; 16],
)
    ensures { ImportCallPromise state.old image.old file.now
        (packet_card state.new image.new file.now answer.new) }
{
    tapecard::exchange_calls::tapecard_import(state, image, file, answer);
}
