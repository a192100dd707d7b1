// 01, 08h READ.
ghost use Rattle.std.specs.Prelude.{◌≡◌, ◌+◌, ◌*◌, ◌≤◌, length};
ghost use Rattle.transfer.specs.Reading.{reads, stop_at, read_from};

use crate::{Moved, Stop, halt};
use image::elements::Kind;
use image::header::{Header, span};
use numbers::copying::copy_block;

#[tactic(auto, unfolding(crate::specs::Reading::stop_at))]
fn stop_at(kind: Kind) -> Stop
    ensures { result ≡ stop_at kind }
{
    if kind.is_filemark() {
        return Stop::AtFilemark;
    }
    Stop::AtBadBlock
}

// Lends the buffer from the current offset on to the copier of one block; what stands beyond the transfer stays.
#[tactic(auto, using(crate::proofs::ReadLaws::read_ways))]
pub fn read_blocks(image: &[u8], h: Header, end: u32, buf: &mut [u8], n: u32, p: u32) -> Moved
    requires size_bound { h.size ≤ 1024 }
    requires end_bound { end ≤ 65535 }
    requires end_in_bounds { h.kinds + end ≤ length image.now }
    requires size_in_bounds { h.blocks + end * h.size ≤ length image.now }
    requires p_le_end { p ≤ end }
    requires size_in_bounds_2 { n * h.size ≤ length buf.old }
    ensures { reads buf.new result ≡ read_from image.now h.size h.kinds h.blocks end n 0 p buf.old }
{
    for done in 0..n {
        let at = p + done;
        let left = n - done;
        if at >= end {
            return halt(at, left, Stop::AtEnd);
        }
        let kind = h.kind_at(image, at);
        if !kind.holds_data() {
            return halt(at + 1, left, stop_at(kind));
        }
        let off = span(done, h.size) as usize; // a place in the buffer
        copy_block(&mut buf[off..], h.block(image, at));
    }
    halt(p + n, 0, Stop::Full)
}
