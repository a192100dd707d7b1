// What each command of the stream device asks before its work.
ghost use Rattle.std.specs.Prelude.{◌≡◌};
ghost use Rattle.packet_parts.specs.Verdicts.{is_protected, verdict_by};
ghost use Rattle.stream_parts.specs.Checks.{bad_code, bad_length, bad_page, asked_by};

use crate::replies::{POSITION_LENGTH, mode_length};
use crate::requests::{OVER_BLOCKS, OVER_FILEMARKS, TO_END_OF_DATA};
use image::header::Header;
use numbers::flags::is_set;
use opcodes::Command;
use packet_parts::replies::{
    DEVICE_PAGE, FULL_LIST, HEADER_ALONE, INQUIRY_LENGTH, SENSE_LENGTH, SHORT_LIST,
};
use packet_parts::requests::{Request, transfer_bytes};
use packet_parts::verdicts::{
    Asked, always, loading, no_command, on_tape, settings, storing, verdict_by,
};
use packet_state::state::{State, Verdict};

fn bad_code(code: u8) -> bool
    ensures { result ≡ bad_code code }
{
    !matches!(code, OVER_BLOCKS | OVER_FILEMARKS | TO_END_OF_DATA)
}

fn bad_length(length: usize) -> bool
    ensures { result ≡ bad_length length }
{
    !matches!(length, 0 | SHORT_LIST | FULL_LIST)
}

fn bad_page(page: u8) -> bool
    ensures { result ≡ bad_page page }
{
    !matches!(page, HEADER_ALONE | DEVICE_PAGE)
}

#[tactic(auto, unfolding(crate::specs::Checks::asked_by))]
fn asked_by(h: Header, q: Request) -> Asked
    ensures { result ≡ asked_by q.command h q }
{
    let room = q.length as usize;
    match q.command {
        Command::Unknown => no_command(),
        Command::TestUnitReady | Command::Rewind => on_tape(false, 0),
        Command::RequestSense => always(room.min(SENSE_LENGTH)),
        Command::Read => on_tape(!is_set(q.flags, 1), transfer_bytes(q.count, h.size)),
        Command::Write => storing(!is_set(q.flags, 1), transfer_bytes(q.count, h.size)),
        Command::WriteFilemarks => storing(false, 0),
        Command::Space => on_tape(bad_code(q.flags % 8), 0),
        Command::Inquiry => always(room.min(INQUIRY_LENGTH)),
        Command::ModeSelect => settings(false, bad_length(room), room),
        Command::ModeSense => settings(bad_page(q.page % 64), false, room.min(mode_length(q.page))),
        Command::LoadUnload => {
            let load = is_set(q.length, 1);
            loading(load & is_set(q.length, 4), !load)
        }
        Command::Locate => on_tape(is_set(q.flags, 2), 0),
        Command::ReadPosition => on_tape(false, POSITION_LENGTH as usize),
        Command::PreventAllow => settings(false, false, 0),
    }
}

// Header, record and request apart, as PacketDevice hands them over (packet_parts, shell.rt, says why).
pub fn verdict(h: Header, state: State, q: Request, room: usize) -> Verdict
    ensures { result ≡ verdict_by (asked_by q.command h q) (is_protected h) state room }
{
    verdict_by(asked_by(h, q), h.protect == 1, state, room)
}
