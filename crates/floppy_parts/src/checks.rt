// What each command of the floppy tape device asks before its work.
ghost use Rattle.std.specs.Prelude.{◌≡◌};
ghost use Rattle.packet_parts.specs.Verdicts.{is_protected, verdict_by};
ghost use Rattle.floppy_parts.specs.Checks.{bad_length, bad_page, asked_by};

use crate::replies::{TAPE_LIST, TAPE_PAGE, mode_length};
use image::header::Header;
use numbers::flags::is_set;
use opcodes::Command;
use packet_parts::replies::{
    DEVICE_PAGE, FULL_LIST, HEADER_ALONE, INQUIRY_LENGTH, SENSE_LENGTH, SHORT_LIST,
};
use packet_parts::requests::{Request, transfer_bytes};
use packet_parts::verdicts::{
    Asked, always, loading, no_command, on_tape, settings, storing, verdict_by,
};
use packet_state::state::{State, Verdict};

// Lengths and pages of its own: a pattern here is plainer than a table handed to one check for both devices.
fn bad_length(length: usize) -> bool
    ensures { result ≡ bad_length length }
{
    !matches!(length, 0 | SHORT_LIST | TAPE_LIST | FULL_LIST)
}

fn bad_page(page: u8) -> bool
    ensures { result ≡ bad_page page }
{
    !matches!(page, HEADER_ALONE | DEVICE_PAGE | TAPE_PAGE)
}

// A clause for each command of this device; the ways to ask and the verdict on them are shared (verdicts.rt).
#[tactic(auto, unfolding(crate::specs::Checks::asked_by))]
fn asked_by(h: Header, end: u32, q: Request) -> Asked
    ensures { result ≡ asked_by q.command h end q }
{
    let room = q.length as usize;
    match q.command {
        Command::TestUnitReady => on_tape(false, 0),
        Command::RequestSense => always(room.min(SENSE_LENGTH)),
        Command::Read => on_tape(!is_set(q.flags, 1), transfer_bytes(q.length as u32, h.size)),
        Command::Write => storing(!is_set(q.flags, 1), transfer_bytes(q.length as u32, h.size)),
        Command::WriteFilemarks => storing(false, 0),
        Command::Inquiry => always(room.min(INQUIRY_LENGTH)),
        Command::ModeSelect => settings(false, bad_length(room), room),
        Command::ModeSense => settings(bad_page(q.page % 64), false, room.min(mode_length(q.page))),
        Command::LoadUnload => loading(false, !is_set(q.length, 1)),
        Command::Locate => on_tape(end <= q.target, 0),
        Command::PreventAllow => settings(false, false, 0),
        _ => no_command(),
    }
}

// Header, record and request apart, as PacketDevice hands them over (packet_parts, shell.rt, says why).
pub fn verdict(h: Header, state: State, end: u32, q: Request, room: usize) -> Verdict
    ensures { result ≡ verdict_by (asked_by q.command h end q) (is_protected h) state room }
{
    verdict_by(asked_by(h, end, q), h.protect == 1, state, room)
}
