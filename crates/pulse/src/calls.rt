// The public calls, with their refusals. 01: "Pulse order: 8, then 7 or 5, then 6."
ghost use Rattle.std.specs.Prelude.{◌≡◌, Ok, Err, if◌then◌else◌};
ghost use Rattle.numbers.specs.declared.refusals.Refusal.TheVariants.{RulesBroken};
ghost use Rattle.pulse.specs.Events.{run_for, steps_to};
ghost use Rattle.pulse.specs.Rules.{keeps_rules};
ghost use Rattle.pulse.specs.Calls.{TrainPromise, TickPromise, InsertPromise, RemovePromise, WaitPromise, told, told_wait};

use crate::drive::Drive;
use crate::rules;
use numbers::refusals::Refusal;
use pulse_parts::Cartridge;

// A wait that was not refused: the ticks that passed, and the drive after them.
#[derive(Clone, Copy, PartialEq, Eq)]
pub struct Waited {
    pub ticks: u32,
    pub drive: Drive,
}

impl Drive {
    // 01: "Pulse order: 8, then .."; the record is not handed back, since each call would copy it.
    pub(crate) fn judged(&self) -> Result<(), Refusal>
        ensures { result ≡ if keeps_rules self.now then Ok tt else Err RulesBroken }
    {
        if self.breaks_rules() {
            return Err(Refusal::RulesBroken);
        }
        Ok(())
    }

    #[tactic(auto, unfolding(crate::specs::Calls::train_call))]
    pub fn train(self, pulses: u16) -> Result<Self, Refusal>
        ensures { TrainPromise self pulses (told self result) }
    {
        self.judged()?;
        if pulses == 0 {
            return Err(Refusal::EmptyTrain);
        }
        Ok(self.train_step(pulses))
    }

    #[tactic(auto, unfolding(crate::specs::Calls::tick_call))]
    pub fn tick(self) -> Result<Self, Refusal>
        ensures { TickPromise self (told self result) }
    {
        self.judged()?;
        Ok(self.tick_step())
    }

    #[tactic(auto, unfolding(crate::specs::Calls::insert_call))]
    pub fn insert(self, cart: Cartridge, place: u16) -> Result<Self, Refusal>
        ensures { InsertPromise self cart place (told self result) }
    {
        self.judged()?;
        if self.marks.inside {
            return Err(Refusal::AlreadySo);
        }
        if rules::is_outside(cart, place) {
            return Err(Refusal::OutsideRanges);
        }
        Ok(self.insert_step(cart, place))
    }

    #[tactic(auto, unfolding(crate::specs::Calls::remove_call))]
    pub fn remove(self) -> Result<Self, Refusal>
        ensures { RemovePromise self (told self result) }
    {
        self.judged()?;
        if !self.marks.inside {
            return Err(Refusal::AlreadySo);
        }
        Ok(self.remove_step())
    }

    fn wait_step(self, limit: u32) -> Waited
        ensures { result ≡ record { ticks = steps_to limit self; drive = run_for (steps_to limit self) self } }
    {
        let mut now = self;
        for used in 0..limit {
            if now.is_ready() {
                return Waited {
                    ticks: used,
                    drive: now,
                };
            }
            now = now.tick_step();
        }
        Waited {
            ticks: limit,
            drive: now,
        }
    }

    #[tactic(auto, unfolding(crate::specs::Calls::wait_call))]
    pub fn wait(self, limit: u32) -> Result<Waited, Refusal>
        ensures { WaitPromise self limit (told_wait self result) }
    {
        self.judged()?;
        Ok(self.wait_step(limit))
    }
}
