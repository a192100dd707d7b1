// The drive record, power-on, and the record with one part replaced.
ghost use Rattle.std.specs.Prelude.{◌≡◌};
ghost use Rattle.pulse.specs.Calls.{PowerOnPromise};
ghost use Rattle.pulse.specs.Drives.{is_ready, with_head, with_marks, with_fault, with_report, with_waiting, with_level};

use pulse_codes::Waiting;
use pulse_parts::{Cartridge, Fault, Head, Marks, Report};

#[derive(Clone, Copy, PartialEq, Eq)]
pub struct Drive {
    pub cart: Cartridge, // no Option: a record may hold one beside a mark that is off, until its rules are judged
    pub head: Head,
    pub marks: Marks,
    pub fault: Fault,
    pub report: Report,
    pub waiting: Option<Waiting>,
    pub rate: u8,
    pub level: bool,
    pub vendor: u16,
    pub rom: u8,
}

impl Drive {
    pub const MAX_SEGMENTS: u16 = 4095;

    pub const MAX_TRACKS: u8 = 64;

    pub const MAX_FORMAT: u8 = 4;

    pub const MAX_KIND: u8 = 7;

    const POWER_ON_RATE: u8 = 2;

    // Two numbers of two types: a struct for them would be taken apart at once.
    #[tactic(auto, unfolding(crate::specs::Drives::power_on))]
    pub fn power_on(vendor: u16, rom: u8) -> Self
        ensures { PowerOnPromise vendor rom result }
    {
        Drive {
            cart: Cartridge::none(),
            head: Head::standing_at(0),
            marks: Marks::none(),
            fault: Fault::at_power_on(),
            report: Report::none(),
            waiting: None,
            rate: Drive::POWER_ON_RATE,
            level: false,
            vendor,
            rom,
        }
    }

    pub(crate) fn is_ready(self) -> bool
        ensures { result ≡ is_ready self }
    {
        self.head.stands()
    }

    pub(crate) fn with_head(self, head: Head) -> Self
        ensures { result ≡ with_head self head }
    {
        Drive { head, ..self }
    }

    pub(crate) fn with_marks(self, marks: Marks) -> Self
        ensures { result ≡ with_marks self marks }
    {
        Drive { marks, ..self }
    }

    pub(crate) fn with_fault(self, fault: Fault) -> Self
        ensures { result ≡ with_fault self fault.error fault.command }
    {
        Drive { fault, ..self }
    }

    pub(crate) fn with_report(self, report: Report) -> Self
        ensures { result ≡ with_report self report }
    {
        Drive { report, ..self }
    }

    pub(crate) fn with_level(self, level: bool) -> Self
        ensures { result ≡ with_level self level }
    {
        Drive { level, ..self }
    }

    pub(crate) fn with_waiting(self, waiting: Option<Waiting>) -> Self
        ensures { result ≡ with_waiting self waiting }
    {
        Drive { waiting, ..self }
    }
}
