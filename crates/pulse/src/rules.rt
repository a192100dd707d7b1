// 01, "Record rules (8)".
ghost use Rattle.std.specs.Prelude.{◌≡◌, not, ◌&&◌};
ghost use Rattle.numbers.specs.Choice.{◌≤ᵇ◌};
ghost use Rattle.pulse.specs.Rules.{in_ranges, head_inside, nothing_inside, cartridge_fits, is_free, held_error_fits, keeps_rules};

use crate::drive::Drive;
use pulse_codes::{arguments, errors};
use pulse_parts::{Cartridge, Fault, Head, Marks, Report};

// These go over the parts that 01 names, not over the whole drive.
fn in_ranges(c: Cartridge) -> bool
    ensures { result ≡ in_ranges c }
{
    (1..=Drive::MAX_SEGMENTS).contains(&c.segments)
        & (1..=Drive::MAX_TRACKS).contains(&c.tracks)
        & (c.format <= Drive::MAX_FORMAT)
        & (c.kind <= Drive::MAX_KIND)
}

pub(crate) fn is_outside(c: Cartridge, place: u16) -> bool
    ensures { result ≡ not (in_ranges c && (place ≤ᵇ c.segments)) }
{
    !(in_ranges(c) & (place <= c.segments))
}

fn head_inside(c: Cartridge, h: Head) -> bool
    ensures { result ≡ head_inside c h }
{
    in_ranges(c) & (h.place <= c.segments) & (h.target <= c.segments) & (h.track < c.tracks)
}

// Field by field: the rule asks nothing of the motion and of the asked mark here, so no ==.
fn nothing_inside(c: Cartridge, h: Head, m: Marks) -> bool
    ensures { result ≡ nothing_inside c h m }
{
    c.is_none() & (h.place == 0) & (h.target == 0) & (h.track == 0) & !m.referenced & !m.fresh
}

#[tactic(auto, unfolding(crate::specs::Rules::cartridge_fits))]
fn cartridge_fits(c: Cartridge, h: Head, m: Marks) -> bool
    ensures { result ≡ cartridge_fits c h m }
{
    if m.inside {
        return head_inside(c, h);
    }
    nothing_inside(c, h, m)
}

fn is_free(r: Report, h: Head, f: Fault, m: Marks) -> bool
    ensures { result ≡ is_free r h f m }
{
    !r.is_open() & h.stands() & !f.is_held() & !m.fresh
}

fn held_error_fits(f: Fault, h: Head) -> bool
    ensures { result ≡ held_error_fits f h }
{
    !f.is_held() | !h.runs()
}

impl Drive {
    #[tactic(auto, unfolding(crate::specs::Rules::keeps_rules))]
    pub(crate) fn breaks_rules(self) -> bool
        ensures { result ≡ not (keeps_rules self) }
    {
        let free = is_free(self.report, self.head, self.fault, self.marks);
        !(cartridge_fits(self.cart, self.head, self.marks)
            & self.head.fits()
            & (self.rate as u16 <= arguments::HIGHEST_RATE)
            & errors::is_admitted(self.fault.error)
            & self.report.fits()
            & arguments::waiting_fits(self.waiting, free, self.marks.referenced)
            & held_error_fits(self.fault, self.head))
    }
}
