// The replies of 03h, 12h and 1Ah.
ghost use Rattle.std.specs.Prelude.{◌≡◌, ◌≤◌, min, length};
ghost use Rattle.packet_parts.specs.Replies.{sense_bytes, inquiry_bytes, reply_ends, replied_into};
ghost use Rattle.packet_work.specs.Replies.{device_mode};

use image::header::Header;
use numbers::copying::copy_block;
use packet_parts::replies::{device_page, inquiry_bytes, mode_header, reply, sense_bytes};
use packet_state::state::{Outcome, State};

// The length after itself, in the first byte of a mode header with the device page.
const AFTER_FULL: u8 = 31;

// Over reply, which is what they share: only the bytes differ. Each asks for its own room, as reply does.

pub fn request_sense(state: State, asked: u8, buf: &mut [u8]) -> Outcome<State>
    requires { (state.sense.key ≤ 15) × (min asked 20 ≤ length buf.old) }
    ensures value { result ≡ reply_ends (sense_bytes state.sense) asked state }
    ensures buf_after { buf.new ≡ replied_into (sense_bytes state.sense) asked buf.old }
{
    let sense = state.sense;
    let bytes = sense_bytes(sense);
    reply(&bytes, asked, state, buf)
}

pub fn inquiry(device: u8, state: State, asked: u8, buf: &mut [u8]) -> Outcome<State>
    requires { min asked 36 ≤ length buf.old }
    ensures value { result ≡ reply_ends (inquiry_bytes device) asked state }
    ensures buf_after { buf.new ≡ replied_into (inquiry_bytes device) asked buf.old }
{
    let bytes = inquiry_bytes(device);
    reply(&bytes, asked, state, buf)
}

// Header and device page: byte 4 and bytes 12-13 of the page are the device's own.
pub fn device_mode(h: Header, state: State, byte4: u8, unit: u16) -> [u8; 32]
    ensures { result ≡ device_mode h state byte4 unit }
{
    let header = mode_header(h, AFTER_FULL);
    let page = device_page(h, state, byte4, unit);
    let mut bytes = [0; 32];
    copy_block(&mut bytes, &header);
    copy_block(&mut bytes[12..], &page);
    bytes
}
