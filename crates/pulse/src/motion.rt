// What moves the tape, what stops it, and an error that is held.
ghost use Rattle.std.specs.Prelude.{◌≡◌};
ghost use Rattle.pulse_codes.specs.Errors.{error_byte};
ghost use Rattle.pulse.specs.Motions.{stopped, load_ended, load_started, run_started, latched, motion_ended, arrived, ticked};

use crate::drive::Drive;
use pulse_codes::ErrorNumber;
use pulse_parts::{Fault, Head, Marks, Motion};

impl Drive {
    pub(crate) fn stop(self) -> Self
        ensures { result ≡ stopped self }
    {
        self.with_head(self.head.held())
    }

    pub(crate) fn end_load(self) -> Self
        ensures { result ≡ load_ended self }
    {
        Drive {
            head: Head::standing_at(0),
            marks: Marks {
                referenced: self.cart.burst,
                ..self.marks
            },
            ..self
        }
    }

    #[tactic(auto, unfolding(crate::specs::Motions::load_started))]
    pub(crate) fn start_load(self) -> Self
        ensures { result ≡ load_started self }
    {
        if self.head.place == 0 {
            return self.end_load();
        }
        self.with_head(self.head.headed_for(0, Motion::Load))
    }

    #[tactic(auto, unfolding(crate::specs::Motions::run_started))]
    pub(crate) fn start_run(self, target: u16) -> Self
        ensures { result ≡ run_started self target }
    {
        if self.head.place == target {
            return self.stop();
        }
        self.with_head(self.head.headed_for(target, Motion::Run))
    }

    #[tactic(auto, unfolding(crate::specs::Motions::latched))]
    pub(crate) fn latch(self, error: ErrorNumber, command: u8) -> Self
        ensures { result ≡ latched self (error_byte error) command }
    {
        if self.fault.is_held() {
            return self;
        }
        let faulted = self.with_fault(Fault::of(error, command));
        if self.head.runs() {
            return faulted.stop();
        }
        faulted
    }

    fn end_motion(self) -> Self
        ensures { result ≡ motion_ended self.head.motion self }
    {
        match self.head.motion {
            Motion::Still => self,
            Motion::Run => self.stop(),
            Motion::Load => self.end_load(),
        }
    }

    #[tactic(auto, unfolding(crate::specs::Motions::arrived))]
    fn arrive(self) -> Self
        ensures { result ≡ arrived self }
    {
        if self.head.is_on_target() {
            return self.end_motion();
        }
        self
    }

    #[tactic(auto, unfolding(crate::specs::Motions::ticked))]
    pub(crate) fn tick_step(self) -> Self
        ensures { result ≡ ticked self }
    {
        if self.is_ready() {
            return self.with_waiting(None);
        }
        self.with_waiting(None)
            .with_head(self.head.moved())
            .arrive()
    }
}
