// What the commands take from the twelve bytes of one packet: nothing is kept from the packet before.
ghost use Rattle.std.specs.Prelude.{◌≡◌, ◌*◌, ◌^◌, ◌<◌, length};
ghost use Rattle.packet_parts.specs.Requests.{request_under};

use numbers::counts::{count3, count4};
use opcodes::Command;

#[derive(Clone, Copy)]
pub struct Request {
    pub command: Command,
    pub flags: u8, // byte 1
    pub page: u8, // byte 2
    pub count: u32, // bytes 2-4
    pub target: u32, // bytes 3-6
    pub length: u8, // byte 4
}

// A slice and its clause: refusal 1 has judged the length, and an array made here would only be read.
#[tactic(auto, unfolding(crate::specs::Requests::request_under))]
pub fn request_under(command: Command, packet: &[u8]) -> Request
    requires { length packet.now ≡ 12 }
    ensures { (result ≡ request_under command packet.now) × (result.count < 2 ^ 24) }
{
    Request {
        command,
        flags: packet[1],
        page: packet[2],
        count: count3(packet, 2),
        target: count4(packet, 3),
        length: packet[4],
    }
}

// N*B reaches 17,179,868,160 and passes 32 bits, so it is a product of 64.
pub fn transfer_bytes(count: u32, size: u16) -> usize
    ensures { result ≡ count * size }
{
    count as usize * size as usize
}
