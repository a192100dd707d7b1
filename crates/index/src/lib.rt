// 02, A4: an index of filemark places, in a second lent buffer, beside the packets of the stream device.
// Image, index and header stay apart: what is asked of lengths, places, entries and a count differs from call to call, so each contract says its own.
#![tactic(auto)]

pub mod checking; // checking.rt: an index compared with a fresh one (refusals 9 and 10)
pub mod commands; // commands.rt: the packets for which the entries answer
pub mod entries; // entries.rt: the entries of an index, read and written
pub mod keeping; // keeping.rt: the index after a packet
pub mod spacing; // spacing.rt: SPACE over filemarks, by the entries

ghost use Rattle.index.specs.Keeping.{MakePromise, IndexedPromise};

use crate::checking::{is_fresh, is_short};
use crate::entries::write_entries;
use crate::keeping::keep;
use image::header::header_of;
use numbers::refusals::Refusal;
use packet_parts::answers::{GOOD, told};
use packet_parts::shell::begin;
use packet_state::state::{Outcome, State, Told};
use stream::StreamDevice;

// The index made afresh.
#[tactic(auto, using(crate::proofs::CallLaws::make_ways))]
pub fn make(image: &[u8], index: &mut [u8]) -> Result<Told, Refusal>
    ensures { MakePromise image.now index.old result index.new }
{
    let h = header_of(image).ok_or(Refusal::BrokenImage)?;
    let c = h.capacity;
    if is_short(index, c) {
        return Err(Refusal::ShortIndex);
    }
    let filemarks = write_entries(image, h, 0, h.recorded, index, 0, c);
    Ok(told(GOOD, filemarks, 4 * c))
}

// "in that order after 3": 1, 2, 3, 9, 10, then as without the index.
#[tactic(auto, using(crate::proofs::CallLaws::packet_ways))]
pub fn packet(
    image: &mut [u8],
    index: &mut [u8],
    state: State,
    packet: &[u8],
    buf: &mut [u8],
) -> Result<Outcome<State>, Refusal>
    ensures { IndexedPromise image.old index.old state packet.now buf.old
        result image.new index.new buf.new }
{
    let h = begin::<StreamDevice>(image, state, packet)?;
    if is_short(index, h.capacity) {
        return Err(Refusal::ShortIndex);
    }
    if is_fresh(image, h, index) {
        return keep(image, h, index, state, packet, buf);
    }
    Err(Refusal::StaleIndex)
}
