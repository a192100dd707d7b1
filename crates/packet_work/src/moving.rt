// How a run over the tape ends a packet.
ghost use Rattle.std.specs.Prelude.{◌≡◌, ◌+◌, ◌-◌, ◌≤◌, length};
ghost use Rattle.packet_work.specs.Moving.{moves, read_moves};

use image::header::{Header, span};
use packet_parts::answers::{end, with_marked};
use packet_state::state::{Ending, Outcome, State};
use transfer::Moved;
use transfer::marked::count_marked;

// Blocks and bytes of those asked for that a run moved.
// Of any header and place: each device has an end of its own, so what these ask stands in each contract.
pub fn end_moved(
    state: State,
    asked: u32,
    size: u16,
    moved: Moved,
    ending: Ending,
) -> Outcome<State>
    requires size_bound { size ≤ 1024 }
    requires left_le_asked { (moved.left ≤ asked) × (asked - moved.left ≤ 65535) }
    ensures { result ≡ moves state asked size moved ending }
{
    let blocks = asked - moved.left;
    end(
        state.at_place(moved.place),
        ending,
        blocks,
        span(blocks, size),
    )
}

// The blocks that a READ copied are those from the place on where it began.
pub fn end_read(
    image: &[u8],
    h: Header,
    state: State,
    asked: u32,
    moved: Moved,
    ending: Ending,
) -> Outcome<State>
    requires size_bound { h.size ≤ 1024 }
    requires left_le_asked { moved.left ≤ asked }
    requires left_bound { state.position + (asked - moved.left) ≤ 65535 }
    requires left_in_bounds { h.kinds + (state.position + (asked - moved.left)) ≤ length image.now }
    ensures { result ≡ read_moves image.now h.kinds state asked h.size moved ending }
{
    let marked = count_marked(image, h, asked - moved.left, state.position);
    with_marked(end_moved(state, asked, h.size, moved, ending), marked)
}
