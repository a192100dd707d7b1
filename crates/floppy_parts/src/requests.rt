// What the floppy tape device's commands take from the twelve bytes of one packet.
ghost use Rattle.std.specs.Prelude.{◌≡◌, length};
ghost use Rattle.floppy_parts.specs.Requests.{floppy_request};

use opcodes::floppy_command;
use packet_parts::requests::{Request, request_under};

#[tactic(auto, unfolding(crate::specs::Requests::floppy_request))]
pub fn floppy_request(packet: &[u8]) -> Request
    requires { length packet.now ≡ 12 }
    ensures { result ≡ floppy_request packet.now }
{
    request_under(floppy_command(packet[0]), packet)
}
