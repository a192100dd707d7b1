// The bytes that 03h, 12h and 1Ah give, and the copying of a reply.
ghost use Rattle.std.specs.Prelude.{◌≡◌, ◌≤◌, min, length};
ghost use Rattle.packet_parts.specs.Replies.{sense_bytes, inquiry_bytes, mode_header, door_byte, device_page_bytes, reply_ends, replied_into};

use crate::answers::end;
use image::header::Header;
use numbers::copying::copy_block;
use numbers::counts::{put_count2, put_count4};
use numbers::flags::weight_of;
use packet_state::state::{Outcome, Sense, State};

pub const SENSE_LENGTH: usize = 20;

pub const INQUIRY_LENGTH: usize = 36;

// Codes and lengths are bytes of packets and lists. 1Ah: the pages that both devices have.
pub const HEADER_ALONE: u8 = 0x00;

pub const DEVICE_PAGE: u8 = 0x2A;

pub const DEVICE_PAGE_LENGTH: u8 = 0x12;

// The header alone, and with the device page.
pub const SHORT_LIST: usize = 12;

pub const FULL_LIST: usize = 32;

// The length after itself, in the first byte of a mode header alone.
pub const AFTER_SHORT: u8 = 11;

// 01: "03h: 20 bytes"
pub fn sense_bytes(x: Sense) -> [u8; 20]
    requires { x.key ≤ 15 }
    ensures { result ≡ sense_bytes x }
{
    let valid = 0x70 + weight_of(x.valid, 0x80);
    let key = weight_of(x.filemark, 0x80) + weight_of(x.eom, 0x40) + x.key;
    let mut bytes = [0; 20];
    bytes[0] = valid;
    bytes[2] = key;
    put_count4(&mut bytes, 3, x.information);
    bytes[7] = 0x0C;
    bytes[12] = x.asc;
    bytes[13] = x.ascq;
    bytes
}

// 01: "12h: 36 bytes", the first the device's own
pub fn inquiry_bytes(device: u8) -> [u8; 36]
    ensures { result ≡ inquiry_bytes device }
{
    [
        device, 0x80, 0x02, 0x02, 0x1F, 0x00, 0x00, 0x00, 0x54, 0x59, 0x50, 0x45, 0x48, 0x41, 0x55,
        0x53, 0x54, 0x41, 0x50, 0x45, 0x20, 0x43, 0x41, 0x52, 0x44, 0x20, 0x20, 0x20, 0x20, 0x20,
        0x20, 0x20, 0x30, 0x31, 0x30, 0x30,
    ]
}

pub fn mode_header(h: Header, after: u8) -> [u8; 12]
    ensures { result ≡ mode_header h after }
{
    let protection = weight_of(h.protect == 1, 0x80);
    let mut bytes = [0; 12];
    bytes[0] = after;
    bytes[1] = h.medium;
    bytes[2] = protection;
    bytes
}

// Byte 6 of the device page: it can eject, it has a lock, and it is locked.
const EJECT: u8 = 0x08;

const LOCK: u8 = 0x01;

const LOCKED: u8 = 0x02;

fn door_byte(locked: bool) -> u8
    ensures { result ≡ door_byte locked }
{
    EJECT + LOCK + weight_of(locked, LOCKED)
}

// Byte 4 and bytes 12-13 are the device's own.
pub fn device_page(h: Header, state: State, byte4: u8, unit: u16) -> [u8; 20]
    ensures { result ≡ device_page_bytes h state byte4 unit }
{
    let door = door_byte(state.locked);
    let long_blocks = weight_of(h.size == 1024, 0x04);
    let mut bytes = [0; 20];
    bytes[0] = DEVICE_PAGE;
    bytes[1] = DEVICE_PAGE_LENGTH;
    bytes[4] = byte4;
    bytes[6] = door;
    bytes[7] = long_blocks;
    put_count2(&mut bytes, 8, 500);
    put_count2(&mut bytes, 12, unit);
    put_count2(&mut bytes, 14, state.speed);
    put_count2(&mut bytes, 16, 128);
    bytes
}

// The first of some bytes go to the start of the host's buffer.
// Refusal 4 has judged the room, so each reply asks for its own; how many bytes the host asked for is a number of its packet.
pub fn reply(bytes: &[u8], asked: u8, state: State, buf: &mut [u8]) -> Outcome<State>
    requires { min asked (length bytes.now) ≤ length buf.old }
    ensures { (result ≡ reply_ends bytes.now asked state) × (buf.new ≡ replied_into bytes.now asked buf.old) }
{
    let n = (asked as usize).min(bytes.len());
    copy_block(buf, &bytes[..n]);
    end(state, Ok(()), 0, n as u32)
}
