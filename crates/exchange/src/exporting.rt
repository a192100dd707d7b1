// 02, A7: "Write ours out".
ghost use Rattle.std.specs.Prelude.{◌≡◌, ◌+◌, ◌<◌, ◌≤◌, length};
ghost use Rattle.numbers.specs.Over.{over};
ghost use Rattle.image.specs.Header.{header_of};
ghost use Rattle.tap.specs.Files.{bytes_of, file_of};
ghost use Rattle.exchange.specs.Exporting.{element_at, elements_from, length_of, ExportPromise};

use image::elements::Kind;
use image::header::{Header, header_of};
use numbers::refusals::Refusal;
use numbers::words::put_word;
use packet_parts::answers::{GOOD, told};
use packet_state::state::Told;
use tap::items::{END_MARK, TAPE_MARK};
use tap::writing::put_record;

// Bytes of an element in a file: a word alone, or a block between two words; of any size that a header may have, so the clause says the bound.
fn element_length(kind: Kind, size: u16) -> usize
    requires { size ≤ 1024 }
    ensures { (result ≡ length_of kind size) × (result ≤ 1032) }
{
    if kind.is_filemark() {
        return 4;
    }
    size as usize + 8
}

// Image and header are two parameters: a type that ties them could not serve an import too, which changes its image.
#[tactic(auto, using(crate::proofs::ExportLaws::measure_start))]
fn export_length(image: &[u8], h: Header) -> usize
    requires { header_of image.now ≡ Some h }
    ensures { (result ≡ length (file_of (elements_from image.now h h.recorded 0))) × (result ≤ 67632124) }
{
    let mut n: usize = 4; // the end mark
    for i in 0..h.recorded {
        n += element_length(h.kind_at(image, i), h.size);
    }
    n
}

// Element i from place `at` of the file on; the answer is the place after it, since elements differ in length.
#[tactic(auto, using(crate::proofs::ExportLaws::put_ways))]
fn put_element(image: &[u8], h: Header, i: u32, file: &mut [u8], at: usize) -> usize
    requires image_value { header_of image.now ≡ Some h }
    requires i_lt_capacity { i < h.capacity }
    requires i_in_bounds { at + length (bytes_of (element_at image.now h i)) ≤ length file.old }
    ensures value { result ≡ at + length (bytes_of (element_at image.now h i)) }
    ensures file_after { file.new ≡ over file.old at (bytes_of (element_at image.now h i)) }
{
    let kind = h.kind_at(image, i);
    if kind.is_filemark() {
        put_word(file, at, TAPE_MARK);
        return at + 4;
    }
    put_record(file, at, h.block(image, i), !kind.holds_data())
}

#[tactic(auto, using(crate::proofs::ExportLaws::write_ways))]
fn write_elements(image: &[u8], h: Header, file: &mut [u8])
    requires image_value { header_of image.now ≡ Some h }
    requires recorded_in_bounds { length (file_of (elements_from image.now h h.recorded 0)) ≤ length file.old }
    ensures { file.new ≡ over file.old 0 (file_of (elements_from image.now h h.recorded 0)) }
{
    let mut at: usize = 0; // a place in the file
    for i in 0..h.recorded {
        at = put_element(image, h, i, file, at);
    }
    put_word(file, at, END_MARK);
}

// "export gives 2, then 4 where its output buffer is too short": it is measured before the first byte is written.
#[tactic(auto, using(crate::proofs::ExportLaws::export_broken))]
pub fn export(image: &[u8], file: &mut [u8]) -> Result<Told, Refusal>
    ensures { ExportPromise image.now file.old result file.new }
{
    let h = header_of(image).ok_or(Refusal::BrokenImage)?;
    let needed = export_length(image, h);
    if file.len() < needed {
        return Err(Refusal::ShortBuffer);
    }
    write_elements(image, h, file);
    Ok(told(GOOD, h.recorded, needed as u32))
}
