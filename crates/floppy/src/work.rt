// The work of each command, once nothing before it ended the packet.
ghost use Rattle.std.specs.Prelude.{◌≡◌, ◌*◌, ◌≤◌, min, length};
ghost use Rattle.packet_parts.specs.Answers.{done};
ghost use Rattle.packet_parts.specs.Replies.{reply_ends, replied_into};
ghost use Rattle.floppy_parts.specs.Checks.{asked_by};
ghost use Rattle.floppy_parts.specs.Replies.{mode_length, mode_bytes};
ghost use Rattle.floppy_parts.specs.Tape.{product};
ghost use Rattle.floppy.specs.Work.{Passed, read_ending, read_work, write_ending, write_work, place_under, tape_work, select_work, work_of};

use floppy_parts::replies::{TAPE_LIST, TAPE_PAGE, tape_mode};
use floppy_parts::settings::is_good_tape_list;
use floppy_parts::tape::{Floppy, Tape};
use image::header::Header;
use numbers::flags::is_set;
use opcodes::Command;
use packet_parts::answers::end;
use packet_parts::replies::{AFTER_SHORT, DEVICE_PAGE, FULL_LIST, mode_header, reply};
use packet_parts::requests::Request;
use packet_state::senses::{end_of_data, unreadable_block, volume_overflow, wrong_list};
use packet_state::state::{Ending, Outcome, State};
use packet_work::moving::{end_moved, end_read};
use packet_work::replies::{device_mode, inquiry, request_sense};
use packet_work::settings::{load_unload, prevent_allow, select_speed};
use transfer::reading::read_blocks;
use transfer::writing::write_blocks;
use transfer::{Moved, Stop};

// ---- 08h, 0Ah: end, endings and the width of the count are this device's; the runs and what ends a packet are the stream device's too

// 02, A1: "Its residue on an unreadable block leaves out the block in error", and a filemark "counts as unreadable". "W plays no part": no EOM.
#[tactic(auto, unfolding(crate::specs::Work::read_ending))]
fn read_ending(moved: Moved) -> Ending
    ensures { result ≡ read_ending moved.stop moved.left }
{
    let left = moved.left;
    match moved.stop {
        Stop::Full | Stop::AtBeginning => Ok(()),
        Stop::AtFilemark | Stop::AtBadBlock => Err(unreadable_block(left.saturating_sub(1))),
        Stop::AtEnd => Err(end_of_data(false, left)),
    }
}

// Image and buffer are lent, and the header is one that was read from the image: so each contract says what it asks of header, place and room.
#[tactic(auto, using(crate::proofs::WorkLaws::end_bound), unfolding(crate::specs::Work::read_work, crate::specs::Work::read_ends))]
fn read(image: &[u8], h: Header, floppy: Floppy, asked: u8, buf: &mut [u8]) -> Outcome<State>
    requires passed { Passed image.now h floppy.shared floppy.tape }
    requires size_in_bounds { asked * h.size ≤ length buf.old }
    ensures { done result image.now buf.new
        ≡ read_work image.now h (product floppy.tape) floppy.shared asked buf.old }
{
    let Floppy { shared, tape } = floppy;
    let n = asked as u32;
    let moved = read_blocks(image, h, tape.end(), buf, n, shared.position);
    let ending = read_ending(moved);
    end_read(image, h, shared, n, moved, ending)
}

#[tactic(auto, unfolding(crate::specs::Work::write_ending))]
fn write_ending(left: u32) -> Ending
    ensures { result ≡ write_ending left }
{
    if left >= 1 {
        return Err(volume_overflow(left));
    }
    Ok(())
}

// 02, A1: "a write leaves U".
#[tactic(auto, using(crate::proofs::WorkLaws::end_bound), unfolding(crate::specs::Work::write_work, crate::specs::Work::write_ends))]
fn write(image: &mut [u8], h: Header, floppy: Floppy, asked: u8, buf: &[u8]) -> Outcome<State>
    requires passed { Passed image.old h floppy.shared floppy.tape }
    requires size_in_bounds { asked * h.size ≤ length buf.now }
    ensures { done result image.new buf.now
        ≡ write_work image.old h (product floppy.tape) floppy.shared asked buf.now }
{
    let Floppy { shared, tape } = floppy;
    let n = asked as u32;
    let moved = write_blocks(image, h, tape.end(), buf, n, shared.position);
    end_moved(shared, n, h.size, moved, write_ending(moved.left))
}

// ---- 1Ah: a page more than the stream device has; header, device page and reply are shared

// 12h: "device type 1Fh".
const UNASSIGNED: u8 = 0x1F;

// 004, byte 4 of the device page: FTM, in floppy tape mode.
const FLOPPY_MODE: u8 = 0x02;

// Three ways by a byte of the packet: a pattern; a table of closures would have to be searched for the byte.
fn mode_sense(h: Header, floppy: Floppy, q: Request, buf: &mut [u8]) -> Outcome<State>
    requires { min q.length (mode_length q) ≤ length buf.old }
    ensures value { result ≡ reply_ends (mode_bytes h floppy.shared floppy.tape q) q.length floppy.shared }
    ensures buf_after { buf.new ≡ replied_into (mode_bytes h floppy.shared floppy.tape q) q.length buf.old }
{
    let Floppy { shared, tape } = floppy;
    match q.page % 64 {
        DEVICE_PAGE => {
            let bytes = device_mode(h, shared, FLOPPY_MODE, tape.bseg as u16);
            reply(&bytes, q.length, shared, buf)
        }
        TAPE_PAGE => reply(&tape_mode(h, tape), q.length, shared, buf),
        _ => reply(&mode_header(h, AFTER_SHORT), q.length, shared, buf),
    }
}

// ---- 15h: a list more than the stream device has, with a test and a setting of its own; the speed's list is shared

// 02, A1: "one that puts it below P sets P 0".
#[tactic(auto, unfolding(crate::specs::Work::place_under))]
fn place_under(end: u32, p: u32) -> u32
    ensures { result ≡ place_under end p }
{
    if end < p { 0 } else { p }
}

#[tactic(auto, using(crate::proofs::WorkLaws::listed_bound), unfolding(crate::specs::Work::tape_work))]
fn select_tape(h: Header, state: State, list: &[u8]) -> Outcome<State>
    requires capacity_bound { h.capacity ≤ 65535 }
    requires list_in_bounds { 28 ≤ length list.now }
    ensures { result ≡ tape_work h state list.now }
{
    if !is_good_tape_list(h, list) {
        return end(state, Err(wrong_list()), 0, 0);
    }
    let place = place_under(Tape::listed(list).end(), state.position);
    end(state.at_place(place), Ok(()), 0, TAPE_LIST as u32)
}

// The buffer may be longer than the list: how long the list is the packet says (asked), and the definition has both.
// Three ways by that number: a pattern; a table of closures would have to be searched for it.
#[tactic(auto, unfolding(crate::specs::Work::select_work))]
fn mode_select(h: Header, state: State, asked: u8, list: &[u8]) -> Outcome<State>
    requires capacity_bound { h.capacity ≤ 65535 }
    requires asked_in_bounds { asked ≤ length list.now }
    ensures { result ≡ select_work h state asked list.now }
{
    match asked as usize {
        FULL_LIST => select_speed(state, list),
        TAPE_LIST => select_tape(h, state, list),
        _ => end(state, Ok(()), 0, asked as u32),
    }
}

// ---- by command: a match for each device, since each has its own commands; what both do is in packet_work

#[tactic(auto, using(crate::proofs::WorkLaws::work_ways), unfolding(floppy_parts::specs::Checks::asked_by, crate::specs::Work::work_of))]
pub fn work(
    image: &mut [u8],
    h: Header,
    floppy: Floppy,
    q: Request,
    buf: &mut [u8],
) -> Outcome<State>
    requires passed { Passed image.old h floppy.shared floppy.tape }
    requires q_in_bounds { (asked_by q.command h (product floppy.tape) q).needed ≤ length buf.old }
    ensures { done result image.new buf.new
        ≡ work_of q.command image.old h floppy.shared floppy.tape q buf.old }
{
    let state = floppy.shared;
    match q.command {
        Command::RequestSense => request_sense(state, q.length, buf),
        Command::Read => read(image, h, floppy, q.length, buf),
        Command::Write => write(image, h, floppy, q.length, buf),
        Command::Inquiry => inquiry(UNASSIGNED, state, q.length, buf),
        Command::ModeSelect => mode_select(h, state, q.length, buf),
        Command::ModeSense => mode_sense(h, floppy, q, buf),
        Command::LoadUnload => load_unload(state, is_set(q.length, 1)),
        Command::Locate => end(state.at_place(q.target), Ok(()), 0, 0),
        Command::PreventAllow => prevent_allow(state, is_set(q.length, 1)),
        _ => end(state, Ok(()), 0, 0), // 00h, and 10h, which only flushes
    }
}
