// A packet beside an index that is fresh: the index is fresh again after it.
ghost use Rattle.std.specs.Prelude.{◌≡◌, ◌+◌, ◌*◌, ◌<◌, ◌≤◌, length};
ghost use Rattle.packet_parts.specs.Answers.{left};
ghost use Rattle.stream.specs.Packet.{packet_step};
ghost use Rattle.index.specs.Spacing.{BelowFirst, entries_below};
ghost use Rattle.index.specs.Rewriting.{rewritten};
ghost use Rattle.index.specs.Keeping.{indexed, afresh, Beside};

use crate::commands::{by_entries, stores_on};
use crate::entries::{entries_below, write_entries};
use crate::spacing::run_by_entries;
use image::header::Header;
use numbers::refusals::Refusal;
use packet_state::state::{Outcome, State};
use stream::work::end_space;
use stream_parts::checks::verdict;
use stream_parts::requests::request_of;

// Only the entries from place p on are written: a store from there to the end left this image.
#[tactic(auto, unfolding(crate::specs::Rewriting::rewritten))]
fn rewrite(image: &[u8], h: Header, index: &mut [u8], p: u32, end: u32)
    requires p_le_end { (p ≤ end) × (end ≤ h.capacity) × (h.capacity ≤ 65535) × (h.kinds + h.capacity ≤ length image.now) }
    requires capacity_in_bounds { 4 * h.capacity ≤ length index.old }
    requires below_first { BelowFirst index.old p h.capacity }
    requires below_first_2 { BelowFirst index.old h.recorded h.capacity }
    requires capacity_bound { entries_below index.old p h.capacity ≤ p }
    ensures { index.new ≡ rewritten image.now h p end index.old }
{
    let c = h.capacity;
    let first = entries_below(index, p, c);
    let last = entries_below(index, h.recorded, c);
    write_entries(image, h, p, end, index, first, last);
}

#[tactic(auto, using(crate::proofs::KeepLaws::keep_ways))]
pub fn keep(
    image: &mut [u8],
    h: Header,
    index: &mut [u8],
    state: State,
    packet: &[u8],
    buf: &mut [u8],
) -> Result<Outcome<State>, Refusal>
    requires { Beside image.old h index.old state packet.now }
    ensures { indexed (left state result image.new buf.new) index.new
        ≡ afresh index.old (packet_step image.old state packet.now buf.old) }
{
    let q = request_of(packet);
    let p = state.position;
    if by_entries(verdict(h, state, q, buf.len()), q) {
        return Ok(end_space(h, state, run_by_entries(index, h, p, q.count)));
    }
    let outcome = stream::packet(image, state, packet, buf)?;
    if stores_on(q.command) & (1 <= outcome.answer.blocks) {
        rewrite(image, h, index, p, outcome.state.position);
    }
    Ok(outcome)
}
