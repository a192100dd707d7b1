// Insertion, removal, and time that passes.
ghost use Rattle.std.specs.Prelude.{◌≡◌};
ghost use Rattle.pulse.specs.Events.{exchanged, inserted, emptied, removed};

use crate::drive::Drive;
use pulse_codes::ErrorNumber;
use pulse_parts::{Cartridge, Fault, Head, Marks, Report};

impl Drive {
    fn exchange(self, cart: Cartridge, head: Head, marks: Marks) -> Self
        ensures { result ≡ exchanged self cart head marks }
    {
        Drive {
            cart,
            head,
            marks,
            report: Report::none(),
            waiting: None,
            ..self
        }
    }

    #[tactic(auto, unfolding(crate::specs::Events::inserted))]
    pub(crate) fn insert_step(self, cart: Cartridge, place: u16) -> Self
        ensures { result ≡ inserted self cart place }
    {
        self.exchange(cart, Head::standing_at(place), Marks::inserted())
            .start_load()
    }

    fn empty(self) -> Self
        ensures { result ≡ emptied self }
    {
        self.exchange(Cartridge::none(), Head::standing_at(0), Marks::none())
    }

    #[tactic(auto, unfolding(crate::specs::Events::removed))]
    pub(crate) fn remove_step(self) -> Self
        ensures { result ≡ removed self }
    {
        if self.is_ready() {
            return self.empty();
        }
        self.latch(ErrorNumber::CartridgeMissing, Fault::NO_COMMAND)
            .empty()
    }
}
