// SPACE over filemarks by the entries alone: no image is lent here.
ghost use Rattle.std.specs.Prelude.{◌≡◌, ◌+◌, ◌*◌, ◌-◌, ◌^◌, ◌<◌, ◌≤◌, length};
ghost use Rattle.index.specs.Spacing.{BelowFirst, AllBelow, on_by_entries, back_by_entries, run_by_entries};

use crate::entries::{entries_below, entry_at};
use image::header::Header;
use stream_parts::requests::{is_back, magnitude_of};
use transfer::{Moved, Stop, halt};

// Two functions: on, a run ends past its filemark or at the end of data; back, on it or at the beginning.
#[tactic(auto, unfolding(crate::specs::Spacing::on_by_entries))]
fn on_by_entries(index: &[u8], before: u32, all: u32, end: u32, n: u32, p: u32) -> Moved
    requires before_le_all { (before ≤ all) × (4 * all ≤ length index.now) × (all ≤ 65535) × (end ≤ 65535) }
    requires all_below { AllBelow index.now all end }
    ensures { result ≡ on_by_entries index.now before all end n p }
{
    if n == 0 {
        return halt(p, 0, Stop::Full);
    }
    let ahead = all - before;
    if n <= ahead {
        return halt(entry_at(index, before + n - 1) + 1, 0, Stop::Full);
    }
    halt(end, n - ahead, Stop::AtEnd)
}

#[tactic(auto, unfolding(crate::specs::Spacing::back_by_entries))]
fn back_by_entries(index: &[u8], before: u32, n: u32, p: u32) -> Moved
    requires { 4 * before ≤ length index.now }
    ensures { result ≡ back_by_entries index.now before n p }
{
    if n == 0 {
        return halt(p, 0, Stop::Full);
    }
    if n <= before {
        return halt(entry_at(index, before - n), 0, Stop::Full);
    }
    halt(0, n - before, Stop::AtBeginning)
}

#[tactic(auto, using(crate::proofs::LoopLaws::below_more), unfolding(crate::specs::Spacing::run_by_entries))]
pub fn run_by_entries(index: &[u8], h: Header, p: u32, count: u32) -> Moved
    requires p_le_recorded { (p ≤ h.recorded) × (h.recorded ≤ h.capacity) × (h.capacity ≤ 65535) × (count < 2 ^ 24) }
    requires capacity_in_bounds { 4 * h.capacity ≤ length index.now }
    requires below_first { BelowFirst index.now p h.capacity }
    requires below_first_2 { BelowFirst index.now h.recorded h.capacity }
    ensures { result ≡ run_by_entries index.now h p count }
{
    let c = h.capacity;
    let end = h.recorded;
    let n = magnitude_of(count);
    let before = entries_below(index, p, c);
    if is_back(count) {
        return back_by_entries(index, before, n, p);
    }
    let all = entries_below(index, end, c);
    on_by_entries(index, before, all, end, n, p)
}
