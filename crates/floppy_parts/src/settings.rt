// 02, A1: what sets the tape parameters.
ghost use Rattle.std.specs.Prelude.{◌≡◌, ◌≤◌, length};
ghost use Rattle.floppy_parts.specs.Checks.{asked_by};
ghost use Rattle.floppy_parts.specs.Settings.{good_tape_list, selected_tape, loaded_tape, tape_after};
ghost use Rattle.floppy_parts.specs.Tape.{product};

use crate::replies::{TAPE_LIST, TAPE_PAGE, TAPE_PAGE_LENGTH};
use crate::tape::Tape;
use image::header::Header;
use numbers::flags::is_set;
use opcodes::Command;
use packet_parts::replies::SHORT_LIST;
use packet_parts::requests::Request;

// A page of its own and a test of its own: no more than the form is alike in is_good_list.
// Of any header and list, as docs/PROMISES.md has it: refusals 2 and 4 have judged both; the header is the image's, the tape the record's.
#[tactic(auto, unfolding(crate::specs::Settings::good_tape_list))]
pub fn is_good_tape_list(h: Header, list: &[u8]) -> bool
    requires { 28 ≤ length list.now }
    ensures { result ≡ good_tape_list h list.now }
{
    list[SHORT_LIST..].starts_with(&[TAPE_PAGE, TAPE_PAGE_LENGTH])
        & (Tape::listed(list).product() <= h.capacity as u64)
}

// The buffer may be longer than the list: how long the list is the packet says (asked), and the definition has both.
#[tactic(auto, unfolding(crate::specs::Settings::selected_tape))]
fn selected_tape(h: Header, tape: Tape, asked: u8, list: &[u8]) -> Tape
    requires { asked ≤ length list.now }
    ensures { result ≡ selected_tape h tape asked list.now }
{
    if asked as usize == TAPE_LIST && is_good_tape_list(h, list) {
        return Tape::listed(list);
    }
    tape
}

// 02, A1: "After a load .. BSEG is 1, SEGTRK C, TRKS 1 and the rest 0".
#[tactic(auto, unfolding(crate::specs::Settings::loaded_tape))]
fn loaded_tape(h: Header, tape: Tape, load: bool) -> Tape
    requires { h.capacity ≤ 65535 }
    ensures { result ≡ loaded_tape h tape load }
{
    if load { Tape::reset(h.capacity) } else { tape }
}

#[tactic(auto, unfolding(crate::specs::Checks::asked_by, crate::specs::Settings::tape_after))]
pub fn tape_after(h: Header, tape: Tape, q: Request, list: &[u8]) -> Tape
    requires capacity_bound { h.capacity ≤ 65535 }
    requires q_in_bounds { (asked_by q.command h (product tape) q).needed ≤ length list.now }
    ensures { result ≡ tape_after q.command h tape q list.now }
{
    match q.command {
        Command::ModeSelect => selected_tape(h, tape, q.length, list),
        Command::LoadUnload => loaded_tape(h, tape, is_set(q.length, 1)),
        _ => tape,
    }
}
