// 01, 0Ah WRITE and 10h WRITE FILEMARK. Two loops: one over a closure would say at length what the closure asks at each element.
ghost use Rattle.std.specs.Prelude.{◌≡◌, ◌+◌, ◌*◌, ◌≤◌, length};
ghost use Rattle.transfer.specs.Writing.{writes, write_from, mark_from};

use crate::{Moved, Stop, halt};
use image::header::{Header, span};

#[tactic(auto, using(crate::proofs::WriteLaws::lay_ways))]
pub fn write_blocks(image: &mut [u8], h: Header, end: u32, src: &[u8], n: u32, p: u32) -> Moved
    requires size_bound { h.size ≤ 1024 }
    requires end_bound { end ≤ 65535 }
    requires end_bound_2 { h.kinds + end ≤ h.blocks }
    requires size_in_bounds { h.blocks + end * h.size ≤ length image.old }
    requires p_le_end { p ≤ end }
    requires size_in_bounds_2 { n * h.size ≤ length src.now }
    ensures { writes image.new result ≡ write_from h.size h.kinds h.blocks end src.now n 0 p image.old }
{
    for done in 0..n {
        let at = p + done;
        if at >= end {
            return halt(at, n - done, Stop::AtEnd);
        }
        let off = span(done, h.size) as usize; // a place in the buffer
        h.lay_block(image, at, &src[off..off + h.size as usize]);
    }
    halt(p + n, 0, Stop::Full)
}

#[tactic(auto, using(crate::proofs::WriteLaws::lay_ways))]
pub fn write_filemarks(image: &mut [u8], h: Header, end: u32, n: u32, p: u32) -> Moved
    requires end_bound { end ≤ 65535 }
    requires end_in_bounds { h.kinds + end ≤ length image.old }
    requires p_le_end { p ≤ end }
    ensures { writes image.new result ≡ mark_from h.kinds end n p image.old }
{
    let room = n.min(end - p);
    for done in 0..room {
        h.lay_mark(image, p + done);
    }
    if room < n {
        return halt(end, n - room, Stop::AtEnd);
    }
    halt(p + n, 0, Stop::Full)
}
