// Step 2 of a train: an argument.
ghost use Rattle.std.specs.Prelude.{◌≡◌, true, ◌≤◌};
ghost use Rattle.pulse_codes.specs.Arguments.{in_range, highest_nibble};
ghost use Rattle.pulse.specs.Arguments.{track_sought, skipped, nibble_taken, argument_taken, argument_read, step_argument};

use crate::drive::Drive;
use pulse_codes::{ErrorNumber, Waiting, arguments, codes};

impl Drive {
    #[tactic(auto, unfolding(crate::specs::Arguments::track_sought))]
    fn seek_track(self, track: u16) -> Self
        ensures { result ≡ track_sought self track }
    {
        if track < self.cart.tracks as u16 {
            return self.with_head(self.head.on_track(track as u8));
        }
        self.latch(ErrorNumber::IllegalTrack, codes::SEEK_TRACK as u8)
    }

    #[tactic(auto, unfolding(crate::specs::Arguments::skipped))]
    fn skip(self, code: u8, count: u16) -> Self
        ensures { result ≡ skipped self code count }
    {
        let target = match code as u16 {
            codes::SKIP_REVERSE | codes::SKIP_EXTENDED_REVERSE => self.head.skip_back(count),
            _ => self.head.skip_on(self.cart.segments, count),
        };
        self.start_run(target)
    }

    #[tactic(auto, unfolding(crate::specs::Arguments::nibble_taken))]
    fn take_nibble(self, w: Waiting, nibble: u16) -> Self
        requires { nibble ≤ highest_nibble }
        ensures { result ≡ nibble_taken self w.code w.held w.value nibble }
    {
        let value = w.join(nibble);
        if w.held as u16 + 1 < arguments::needed_arguments(w.code) as u16 {
            return self.with_waiting(Some(Waiting {
                held: w.held + 1,
                value,
                ..w
            }));
        }
        self.with_waiting(None).skip(w.code, value)
    }

    // By the code, a number (codes.rt): a pattern names each way once, and a table of closures would be no shorter.
    #[tactic(auto, unfolding(crate::specs::Arguments::argument_taken))]
    fn take_argument(self, w: Waiting, value: u16) -> Self
        requires { in_range w.code value ≡ true }
        ensures { result ≡ argument_taken self w.code w.held w.value value }
    {
        match w.code as u16 {
            codes::SEEK_TRACK => self.with_waiting(None).seek_track(value),
            codes::SELECT_RATE => Drive {
                rate: value as u8,
                waiting: None,
                ..self
            },
            _ => self.take_nibble(w, value),
        }
    }

    #[tactic(auto, unfolding(crate::specs::Arguments::argument_read), using(pulse_codes::proofs::ArgumentLaws::value_in_range))]
    fn read_argument(self, w: Waiting, n: u16) -> Self
        ensures { result ≡ argument_read self w.code w.held w.value n }
    {
        let Some(value) = arguments::read_nibble(w.code, n) else {
            return self.with_waiting(None);
        };
        self.take_argument(w, value)
    }

    #[tactic(auto, unfolding(crate::specs::Arguments::step_argument))]
    pub(crate) fn step_argument(self, n: u16) -> Self
        ensures { result ≡ step_argument self n }
    {
        match self.waiting {
            Some(w) => self.read_argument(w, n),
            None => self,
        }
    }
}
