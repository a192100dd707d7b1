// A train of n pulses: its seven steps, in 01's order.
ghost use Rattle.std.specs.Prelude.{◌≡◌};
ghost use Rattle.pulse.specs.Train.{cleared, step_reset, step_unsupported, train_step};

use crate::drive::Drive;
use pulse_codes::{ErrorNumber, codes};
use pulse_parts::{Fault, Report};

impl Drive {
    fn clear(self) -> Self
        ensures { result ≡ cleared self }
    {
        Drive {
            waiting: None,
            report: Report::none(),
            fault: Fault::of(ErrorNumber::SoftwareReset, codes::SOFT_RESET as u8),
            marks: self.marks.forgotten(),
            ..self
        }
    }

    #[tactic(auto, unfolding(crate::specs::Train::step_reset))]
    fn step_reset(self) -> Self
        ensures { result ≡ step_reset self }
    {
        if self.marks.inside {
            return self.clear().start_load();
        }
        self.clear()
    }

    #[tactic(auto, unfolding(crate::specs::Train::step_unsupported))]
    fn step_unsupported(self, n: u16) -> Self
        ensures { result ≡ step_unsupported self n }
    {
        if n < codes::REPORT_VENDOR {
            return self.latch(ErrorNumber::UndefinedCommand, codes::as_byte(n));
        }
        self
    }

    #[tactic(auto, unfolding(crate::specs::Train::train_step))]
    pub(crate) fn train_step(self, n: u16) -> Self
        ensures { result ≡ train_step self n }
    {
        if n == codes::SOFT_RESET {
            return self.step_reset();
        }
        if self.waiting.is_some() {
            return self.step_argument(n);
        }
        if self.report.is_open() {
            return self.step_report(n);
        }
        if n == codes::REPORT_NEXT_BIT {
            return self.with_level(true);
        }
        if codes::is_unsupported(n) {
            return self.step_unsupported(n);
        }
        if codes::is_report(n) {
            return self.step_open_report(n);
        }
        self.step_command(codes::as_byte(n))
    }
}
