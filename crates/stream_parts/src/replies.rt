// The bytes that 1Ah and 34h give, where the stream device has its own.
ghost use Rattle.std.specs.Prelude.{◌≡◌, ◌%◌, ◌≤◌, if◌then◌else◌};
ghost use Rattle.numbers.specs.Choice.{◌≡ᵇ◌};
ghost use Rattle.packet_parts.specs.Replies.{device_page, short_list, full_list};
ghost use Rattle.stream_parts.specs.Replies.{position_bytes};

use crate::warning::is_past_warning;
use image::header::Header;
use numbers::counts::put_count4;
use numbers::flags::weight_of;
use packet_parts::replies::{DEVICE_PAGE, FULL_LIST, SHORT_LIST};
use packet_state::state::State;

pub const POSITION_LENGTH: u8 = 20;

// 1Ah: bytes 12-13 of the device page.
pub const UNIT_BLOCKS: u16 = 64;

// A match of two arms here and of three for the floppy tape device is plainer than a table for both.
pub fn mode_length(page: u8) -> usize
    ensures { result ≡ (if page % 64 ≡ᵇ device_page then full_list else short_list) }
{
    match page % 64 {
        DEVICE_PAGE => FULL_LIST,
        _ => SHORT_LIST,
    }
}

pub fn position_bytes(h: Header, state: State) -> [u8; 20]
    requires { h.warning ≤ h.capacity }
    ensures { result ≡ position_bytes h state }
{
    let p = state.position;
    let first = weight_of(p == 0, 0x80) + weight_of(is_past_warning(h, p), 0x40);
    let mut bytes = [0; 20];
    bytes[0] = first;
    put_count4(&mut bytes, 4, p);
    put_count4(&mut bytes, 8, p);
    bytes
}
