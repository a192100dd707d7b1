// 01, 11h SPACE. Two loops each way: a filemark ends a run over blocks, and is what a run over filemarks counts.
// The filemarks left are counted in the loop, as the definition does (marks_left).
ghost use Rattle.std.specs.Prelude.{◌≡◌, ◌+◌, ◌-◌, ◌≤◌, length};
ghost use Rattle.transfer.specs.Spacing.{blocks_on, blocks_back, marks_on, marks_back};

use crate::{Moved, Stop, halt};
use image::header::Header;

#[tactic(auto, using(crate::proofs::SpaceLaws::on_ways))]
pub fn blocks_on(image: &[u8], h: Header, end: u32, n: u32, p: u32) -> Moved
    requires { (h.kinds + end ≤ length image.now) × (p ≤ end) }
    ensures { result ≡ blocks_on image.now h.kinds end n p }
{
    for done in 0..n {
        let at = p + done;
        if at >= end {
            return halt(at, n - done, Stop::AtEnd);
        }
        if h.kind_at(image, at).is_filemark() {
            return halt(at + 1, n - done, Stop::AtFilemark);
        }
    }
    halt(p + n, 0, Stop::Full)
}

#[tactic(auto, using(crate::proofs::SpaceLaws::back_ways))]
pub fn blocks_back(image: &[u8], h: Header, n: u32, p: u32) -> Moved
    requires { h.kinds + p ≤ length image.now }
    ensures { result ≡ blocks_back image.now h.kinds p n }
{
    let room = n.min(p);
    for done in 0..room {
        let at = p - done;
        let back = at - 1;
        if h.kind_at(image, back).is_filemark() {
            return halt(back, n - done, Stop::AtFilemark);
        }
    }
    if room < n {
        return halt(0, n - room, Stop::AtBeginning);
    }
    halt(p - n, 0, Stop::Full)
}

#[tactic(auto, using(crate::proofs::SpaceLaws::marks_on_ways))]
pub fn marks_on(image: &[u8], h: Header, end: u32, n: u32, p: u32) -> Moved
    requires { (h.kinds + end ≤ length image.now) × (p ≤ end) }
    ensures { result ≡ marks_on image.now h.kinds (end - p) n p }
{
    if n == 0 {
        return halt(p, 0, Stop::Full);
    }
    let mut left = n;
    for done in 0..end - p {
        let at = p + done;
        if h.kind_at(image, at).is_filemark() {
            left -= 1;
            if left == 0 {
                return halt(at + 1, 0, Stop::Full);
            }
        }
    }
    halt(end, left, Stop::AtEnd)
}

#[tactic(auto, using(crate::proofs::SpaceLaws::marks_back_ways))]
pub fn marks_back(image: &[u8], h: Header, n: u32, p: u32) -> Moved
    requires { h.kinds + p ≤ length image.now }
    ensures { result ≡ marks_back image.now h.kinds p n }
{
    if n == 0 {
        return halt(p, 0, Stop::Full);
    }
    let mut left = n;
    for at in (0..p).rev() {
        if h.kind_at(image, at).is_filemark() {
            left -= 1;
            if left == 0 {
                return halt(at, 0, Stop::Full);
            }
        }
    }
    halt(0, left, Stop::AtBeginning)
}
