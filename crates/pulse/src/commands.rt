// Step 7 of a train: the other commands.
ghost use Rattle.std.specs.Prelude.{◌≡◌};
ghost use Rattle.pulse.specs.Commands.{obeyed, checked, step_command};

use crate::drive::Drive;
use pulse_codes::{ErrorNumber, Waiting, codes};

impl Drive {
    // By the code, a number (codes.rt): a pattern names each way once, and a table of closures would be no shorter.
    #[tactic(auto, unfolding(crate::specs::Commands::obeyed))]
    fn obey(self, code: u8) -> Self
        ensures { result ≡ obeyed self code }
    {
        match code as u16 {
            codes::PAUSE | codes::STOP_TAPE => self.stop(),
            codes::LOGICAL_FORWARD | codes::PHYSICAL_FORWARD => self.start_run(self.cart.segments),
            codes::PHYSICAL_REVERSE => self.start_run(0),
            codes::SEEK_LOAD_POINT => self.start_load(),
            // seek track, skips, select rate: wait for their arguments
            _ => self.with_waiting(Some(Waiting {
                code,
                held: 0,
                value: 0,
            })),
        }
    }

    #[tactic(auto, unfolding(crate::specs::Commands::checked, pulse_parts::specs::Marking::command_error))]
    fn check_command(self, code: u8) -> Self
        ensures { result ≡ checked self code }
    {
        if self.fault.is_held() {
            return self;
        }
        match self.marks.command_error(code) {
            Some(error) => self.latch(error, code),
            None => self.obey(code),
        }
    }

    #[tactic(auto, unfolding(crate::specs::Commands::step_command))]
    pub(crate) fn step_command(self, code: u8) -> Self
        ensures { result ≡ step_command self code }
    {
        if self.is_ready() {
            return self.check_command(code);
        }
        if self.head.gives_way(code) {
            return self.stop().check_command(code);
        }
        self.latch(ErrorNumber::NotReady, code)
    }
}
