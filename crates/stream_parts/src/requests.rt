// What the stream device's commands take from the twelve bytes of one packet.
ghost use Rattle.std.specs.Prelude.{◌≡◌, ◌^◌, ◌<◌, length};
ghost use Rattle.stream_parts.specs.Requests.{request_of, is_back, magnitude};

use opcodes::stream_command;
use packet_parts::requests::{Request, request_under};

// 11h: the codes of SPACE, numbers of the packet's byte 1, of which five more are a bad field.
pub const OVER_BLOCKS: u8 = 0;

pub const OVER_FILEMARKS: u8 = 1;

pub const TO_END_OF_DATA: u8 = 3;

// A line over the shared fields, here and for the floppy tape device: only the table of the commands differs.
#[tactic(auto, unfolding(crate::specs::Requests::request_of))]
pub fn request_of(packet: &[u8]) -> Request
    requires { length packet.now ≡ 12 }
    ensures { (result ≡ request_of packet.now) × (result.count < 2 ^ 24) }
{
    request_under(stream_command(packet[0]), packet)
}

// A count of three bytes is negative from here on.
const HALF: u32 = 0x800000;

const WHOLE: u32 = 0x1000000;

#[tactic(auto, unfolding(crate::specs::Requests::is_back))]
pub fn is_back(count: u32) -> bool
    ensures { result ≡ is_back count }
{
    HALF <= count
}

// A count of three bytes: no type of 24 bits says so, so the clause does.
#[tactic(auto, unfolding(crate::specs::Requests::magnitude))]
pub fn magnitude_of(count: u32) -> u32
    requires { count < 2 ^ 24 }
    ensures { result ≡ magnitude count }
{
    if is_back(count) { WHOLE - count } else { count }
}
