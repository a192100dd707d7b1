// Steps 3 and 6 of a train: a train in an open report, and a report that opens.
ghost use Rattle.std.specs.Prelude.{◌≡◌};
ghost use Rattle.pulse.specs.Reports.{item_given, step_report, report_of, status_asked, error_read, step_open_report};

use crate::drive::Drive;
use pulse_codes::{ErrorNumber, codes};
use pulse_parts::{Fault, Report, reports};

impl Drive {
    #[tactic(auto, unfolding(crate::specs::Reports::item_given))]
    fn give_item(self) -> Self
        ensures { result ≡ item_given self }
    {
        if self.report.repeat {
            return self.with_report(self.report.owing(false));
        }
        self.with_report(self.report.items_left())
            .with_level(self.report.item_level())
    }

    #[tactic(auto, unfolding(crate::specs::Reports::step_report))]
    pub(crate) fn step_report(self, n: u16) -> Self
        ensures { result ≡ step_report self n }
    {
        if n == codes::REPORT_NEXT_BIT {
            return self.give_item();
        }
        if codes::is_ignored(n) {
            return self.with_report(self.report.owing(true));
        }
        self.with_report(Report::none())
            .with_level(false)
            .latch(ErrorNumber::IllegalInReport, codes::as_byte(n))
    }

    // By the code, a number (codes.rt): a pattern names each way once, and a table of closures would be no shorter.
    #[tactic(auto, unfolding(crate::specs::Reports::report_of))]
    fn report_of(self, n: u16) -> Report
        ensures { result ≡ report_of self n }
    {
        match n {
            codes::REPORT_STATUS => Report::of_byte(reports::status_bits(
                self.head, self.fault, self.marks, self.cart,
            )),
            codes::REPORT_ERROR => Report::of_word(reports::error_bits(self.fault)),
            codes::REPORT_CONFIGURATION => Report::of_byte(reports::configuration_bits(
                self.rate, self.marks, self.cart,
            )),
            codes::REPORT_ROM => Report::of_byte(self.rom as u16),
            codes::REPORT_VENDOR => Report::of_word(self.vendor),
            // the tape report, 33
            _ => Report::of_byte(reports::tape_bits(self.marks, self.cart)),
        }
    }

    #[tactic(auto, unfolding(crate::specs::Reports::status_asked))]
    fn ask_status(self) -> Self
        ensures { result ≡ status_asked self }
    {
        if self.is_ready() {
            return self.with_marks(self.marks.after_asking());
        }
        self
    }

    #[tactic(auto, unfolding(crate::specs::Reports::error_read))]
    fn read_error(self) -> Self
        ensures { result ≡ error_read self }
    {
        if self.head.stands() {
            return self
                .with_fault(Fault::none())
                .with_marks(self.marks.after_reading());
        }
        self
    }

    // By the code, as above.
    #[tactic(auto, unfolding(crate::specs::Reports::step_open_report))]
    pub(crate) fn step_open_report(self, n: u16) -> Self
        ensures { result ≡ step_open_report self n }
    {
        let d = self.with_report(self.report_of(n)).with_level(true);
        match n {
            codes::REPORT_STATUS => d.ask_status(),
            codes::REPORT_ERROR => d.read_error(),
            _ => d,
        }
    }
}
