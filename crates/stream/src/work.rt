// The work of each command, once nothing before it ended the packet.
ghost use Rattle.std.specs.Prelude.{◌≡◌, ◌*◌, ◌^◌, ◌<◌, ◌≤◌, min, length, Some};
ghost use Rattle.image.specs.Header.{header_of};
ghost use Rattle.packet_parts.specs.Answers.{done};
ghost use Rattle.stream_parts.specs.Checks.{asked_by};
ghost use Rattle.packet_parts.specs.Replies.{reply_ends, replied_into};
ghost use Rattle.stream_parts.specs.Replies.{mode_length, mode_bytes, position_bytes};
ghost use Rattle.stream.specs.Work.{Passed, ending_of, read_work, write_ending, write_work, mark_work, space_run, space_ends, space_work, select_work};
ghost use Rattle.stream.specs.Work.{locate_work, work_of};

use image::elements::record_to;
use image::header::Header;
use numbers::flags::is_set;
use opcodes::Command;
use packet_parts::answers::end;
use packet_parts::replies::{AFTER_SHORT, DEVICE_PAGE, FULL_LIST, mode_header, reply};
use packet_parts::requests::Request;
use packet_state::senses::{
    beginning_of_tape, beyond_data, early_warning, end_of_data, filemark_detected,
    unreadable_block, volume_overflow,
};
use packet_state::state::{Ending, Outcome, State};
use packet_work::moving::{end_moved, end_read};
use packet_work::replies::{device_mode, inquiry, request_sense};
use packet_work::settings::{load_unload, prevent_allow, select_speed};
use stream_parts::replies::{POSITION_LENGTH, UNIT_BLOCKS, position_bytes};
use stream_parts::requests::{OVER_BLOCKS, TO_END_OF_DATA, is_back, magnitude_of};
use stream_parts::warning::is_past_warning;
use transfer::reading::read_blocks;
use transfer::spacing::{blocks_back, blocks_on, marks_back, marks_on};
use transfer::writing::{write_blocks, write_filemarks};
use transfer::{Moved, Stop};

#[tactic(auto, unfolding(crate::specs::Work::ending_of))]
fn ending_of(h: Header, moved: Moved) -> Ending
    requires { h.warning ≤ h.capacity }
    ensures { result ≡ ending_of h moved.stop moved.left }
{
    let left = moved.left;
    match moved.stop {
        Stop::Full => Ok(()),
        Stop::AtFilemark => Err(filemark_detected(left)),
        Stop::AtBadBlock => Err(unreadable_block(left)),
        Stop::AtEnd => Err(end_of_data(is_past_warning(h, h.recorded), left)),
        Stop::AtBeginning => Err(beginning_of_tape(left)),
    }
}

// Image and buffer are lent, and the header is one that was read from the image: so each contract says what it asks of header, place, count and room.
#[tactic(auto, using(crate::proofs::WorkLaws::warning_within), unfolding(crate::specs::Work::read_work, crate::specs::Work::read_ends))]
fn read(image: &[u8], h: Header, state: State, asked: u32, buf: &mut [u8]) -> Outcome<State>
    requires image_value { header_of image.now ≡ Some h }
    requires position_le_recorded { state.position ≤ h.recorded }
    requires size_in_bounds { asked * h.size ≤ length buf.old }
    ensures { done result image.now buf.new ≡ read_work image.now h state asked buf.old }
{
    let moved = read_blocks(image, h, h.recorded, buf, asked, state.position);
    let ending = ending_of(h, moved);
    end_read(image, h, state, asked, moved, ending)
}

#[tactic(auto, unfolding(crate::specs::Work::write_ending))]
fn write_ending(h: Header, asked: u32, moved: Moved) -> Ending
    requires { h.warning ≤ h.capacity }
    ensures { result ≡ write_ending h asked moved }
{
    if moved.left >= 1 {
        return Err(volume_overflow(moved.left));
    }
    if asked >= 1 && is_past_warning(h, moved.place) {
        return Err(early_warning());
    }
    Ok(())
}

#[tactic(auto, using(crate::proofs::WorkLaws::warning_within), unfolding(crate::specs::Work::write_work, crate::specs::Work::write_ends))]
fn write(image: &mut [u8], h: Header, state: State, asked: u32, buf: &[u8]) -> Outcome<State>
    requires image_value { header_of image.old ≡ Some h }
    requires position_le_recorded { state.position ≤ h.recorded }
    requires size_in_bounds { asked * h.size ≤ length buf.now }
    ensures { done result image.new buf.now ≡ write_work image.old h state asked buf.now }
{
    let p = state.position;
    let moved = write_blocks(image, h, h.capacity, buf, asked, p);
    record_to(image, p, moved.place);
    let ending = write_ending(h, asked, moved);
    end_moved(state, asked, h.size, moved, ending)
}

// 10h takes no bytes of the buffer; it is lent so that the promise can say that it stays.
#[tactic(auto, using(crate::proofs::WorkLaws::warning_within), unfolding(crate::specs::Work::mark_work, crate::specs::Work::write_ends))]
fn write_marks(image: &mut [u8], h: Header, state: State, asked: u32, buf: &[u8]) -> Outcome<State>
    requires image_value { header_of image.old ≡ Some h }
    requires position_le_recorded { state.position ≤ h.recorded }
    ensures { done result image.new buf.now ≡ mark_work image.old h state asked buf.now }
{
    let p = state.position;
    let moved = write_filemarks(image, h, h.capacity, asked, p);
    record_to(image, p, moved.place);
    let ending = write_ending(h, asked, moved);
    end_moved(state, asked, 0, moved, ending)
}

// Four runs by two tests, each named once: the runs back take no end, so closures for the four would be no shorter.
#[tactic(auto, unfolding(crate::specs::Work::space_run))]
fn space_run(image: &[u8], h: Header, p: u32, code: u8, count: u32) -> Moved
    requires image_value { header_of image.now ≡ Some h }
    requires p_le_recorded { p ≤ h.recorded }
    requires count_bound { count < 2 ^ 24 }
    ensures { result ≡ space_run image.now h p code count }
{
    let n = magnitude_of(count);
    match (code == OVER_BLOCKS, is_back(count)) {
        (true, true) => blocks_back(image, h, n, p),
        (true, false) => blocks_on(image, h, h.recorded, n, p),
        (false, true) => marks_back(image, h, n, p),
        (false, false) => marks_on(image, h, h.recorded, n, p),
    }
}

// How SPACE ends after its run, which an index may have given (02, A4).
pub fn end_space(h: Header, state: State, moved: Moved) -> Outcome<State>
    requires { h.warning ≤ h.capacity }
    ensures { result ≡ space_ends h state moved }
{
    let ending = ending_of(h, moved);
    end(state.at_place(moved.place), ending, 0, 0)
}

#[tactic(auto, using(crate::proofs::WorkLaws::warning_within), unfolding(crate::specs::Work::space_work))]
fn space(image: &[u8], h: Header, state: State, code: u8, count: u32) -> Outcome<State>
    requires image_value { header_of image.now ≡ Some h }
    requires position_le_recorded { state.position ≤ h.recorded }
    requires count_bound { count < 2 ^ 24 }
    ensures { result ≡ space_work image.now h state code count }
{
    if code == TO_END_OF_DATA {
        return end(state.at_place(h.recorded), Ok(()), 0, 0);
    }
    let moved = space_run(image, h, state.position, code, count);
    end_space(h, state, moved)
}

// 12h: the device type of a tape, a byte of the reply.
const SEQUENTIAL: u8 = 0x01;

fn mode_sense(h: Header, state: State, q: Request, buf: &mut [u8]) -> Outcome<State>
    requires { min q.length (mode_length q) ≤ length buf.old }
    ensures value { result ≡ reply_ends (mode_bytes h state q) q.length state }
    ensures buf_after { buf.new ≡ replied_into (mode_bytes h state q) q.length buf.old }
{
    if q.page % 64 == DEVICE_PAGE {
        return reply(&device_mode(h, state, 0, UNIT_BLOCKS), q.length, state, buf);
    }
    reply(&mode_header(h, AFTER_SHORT), q.length, state, buf)
}

fn read_position(h: Header, state: State, buf: &mut [u8]) -> Outcome<State>
    requires { (h.warning ≤ h.capacity) × (20 ≤ length buf.old) }
    ensures value { result ≡ reply_ends (position_bytes h state) 20 state }
    ensures buf_after { buf.new ≡ replied_into (position_bytes h state) 20 buf.old }
{
    reply(&position_bytes(h, state), POSITION_LENGTH, state, buf)
}

// The buffer may be longer than the list: how long the list is the packet says (asked), and the definition has both.
#[tactic(auto, unfolding(crate::specs::Work::select_work))]
fn mode_select(state: State, asked: u8, list: &[u8]) -> Outcome<State>
    requires { asked ≤ length list.now }
    ensures { result ≡ select_work state asked list.now }
{
    if asked as usize == FULL_LIST {
        return select_speed(state, list);
    }
    end(state, Ok(()), 0, asked as u32)
}

#[tactic(auto, unfolding(crate::specs::Work::locate_work))]
fn locate(h: Header, state: State, target: u32) -> Outcome<State>
    ensures { result ≡ locate_work h state target }
{
    if h.recorded < target {
        return end(state.at_place(h.recorded), Err(beyond_data()), 0, 0);
    }
    end(state.at_place(target), Ok(()), 0, 0)
}

#[tactic(auto, using(crate::proofs::WorkLaws::work_ways), unfolding(crate::specs::Work::work_of, stream_parts::specs::Checks::asked_by))]
pub fn work(image: &mut [u8], h: Header, state: State, q: Request, buf: &mut [u8]) -> Outcome<State>
    requires passed { Passed image.old h state q }
    requires q_in_bounds { (asked_by q.command h q).needed ≤ length buf.old }
    ensures { done result image.new buf.new ≡ work_of q.command image.old h state q buf.old }
{
    match q.command {
        Command::Unknown | Command::TestUnitReady => end(state, Ok(()), 0, 0),
        Command::Rewind => end(state.at_place(0), Ok(()), 0, 0),
        Command::RequestSense => request_sense(state, q.length, buf),
        Command::Read => read(image, h, state, q.count, buf),
        Command::Write => write(image, h, state, q.count, buf),
        Command::WriteFilemarks => write_marks(image, h, state, q.count, buf),
        Command::Space => space(image, h, state, q.flags % 8, q.count),
        Command::Inquiry => inquiry(SEQUENTIAL, state, q.length, buf),
        Command::ModeSelect => mode_select(state, q.length, buf),
        Command::ModeSense => mode_sense(h, state, q, buf),
        Command::LoadUnload => load_unload(state, is_set(q.length, 1)),
        Command::Locate => locate(h, state, q.target),
        Command::ReadPosition => read_position(h, state, buf),
        Command::PreventAllow => prevent_allow(state, is_set(q.length, 1)),
    }
}
