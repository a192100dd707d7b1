// 02, A1: "over the same image with U = C"; refusal 2 "also when U is below C here".
ghost use Rattle.std.specs.Prelude.{◌≡◌};
ghost use Rattle.floppy_parts.specs.Headers.{full_header_of};

use image::header::{Header, header_of};

#[tactic(auto, unfolding(crate::specs::Headers::full_header_of, crate::specs::Headers::is_full, image::specs::Header::header_of))]
pub fn full_header_of(image: &[u8]) -> Option<Header>
    ensures { result ≡ full_header_of image.now }
{
    header_of(image).filter(|h| h.recorded >= h.capacity)
}
