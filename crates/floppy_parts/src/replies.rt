// 1Ah: the tape parameters page, and which bytes a page code asks for.
ghost use Rattle.std.specs.Prelude.{◌≡◌, ◌%◌};
ghost use Rattle.floppy_parts.specs.Replies.{length_for, tape_page_bytes, tape_mode};

use crate::tape::Tape;
use image::header::Header;
use numbers::copying::copy_block;
use numbers::counts::put_count2;
use packet_parts::replies::{DEVICE_PAGE, FULL_LIST, SHORT_LIST, mode_header};

pub const TAPE_PAGE: u8 = 0x2B;

pub const TAPE_PAGE_LENGTH: u8 = 0x0E;

// The header and the tape parameters page.
pub const TAPE_LIST: usize = 28;

const AFTER_TAPE: u8 = 27;

pub fn mode_length(page: u8) -> usize
    ensures { result ≡ length_for (page % 64) }
{
    match page % 64 {
        DEVICE_PAGE => FULL_LIST,
        TAPE_PAGE => TAPE_LIST,
        _ => SHORT_LIST,
    }
}

// No From: the record has the same tape in sixteen bytes too, at other places.
pub fn tape_page(tape: Tape) -> [u8; 16]
    ensures { result ≡ tape_page_bytes tape }
{
    let x = tape.reported;
    let mut bytes = [0; 16];
    bytes[0] = TAPE_PAGE;
    bytes[1] = TAPE_PAGE_LENGTH;
    bytes[2] = x.density;
    bytes[4] = x.fill;
    bytes[5] = tape.bseg;
    put_count2(&mut bytes, 6, tape.segtrk);
    put_count2(&mut bytes, 8, tape.trks);
    bytes[10] = x.sector;
    bytes[11] = x.cylinder;
    bytes[12] = x.head;
    bytes[15] = x.flags_byte();
    bytes
}

// Laid as device_mode lays its own: a function for both would need a clause that two lengths make a third, and be no shorter.
pub fn tape_mode(h: Header, tape: Tape) -> [u8; 28]
    ensures { result ≡ tape_mode h tape }
{
    let header = mode_header(h, AFTER_TAPE);
    let page = tape_page(tape);
    let mut bytes = [0; 28];
    copy_block(&mut bytes, &header);
    copy_block(&mut bytes[12..], &page);
    bytes
}
