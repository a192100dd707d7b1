// A list of trains in one call.
ghost use Rattle.std.specs.Prelude.{◌≡◌, ◌≤◌, length};
ghost use Rattle.numbers.specs.Over.{over};
ghost use Rattle.pulse.specs.Calls.{told};
ghost use Rattle.pulse.specs.Trains.{after_list, levels_of, sent, TrainsPromise};

use crate::drive::Drive;
use numbers::flags::weight_of;
use numbers::refusals::Refusal;
use numbers::tables::is_in;

impl Drive {
    // The rules are not judged again on the way: a train keeps them.
    // 01: "A lent slice of u16 counts, read beside a written byte slice of levels."
    fn send(self, counts: &[u16], levels: &mut [u8]) -> Self
        requires { length counts.now ≤ length levels.old }
        ensures value { result ≡ after_list self counts.now }
        ensures levels_after { levels.new ≡ over levels.old 0 (levels_of self counts.now) }
    {
        let mut drive = self;
        for (i, n) in counts.iter().enumerate() {
            drive = drive.train_step(*n);
            levels[i] = weight_of(drive.level, 1);
        }
        drive
    }

    #[tactic(auto, unfolding(crate::specs::Trains::trains_call))]
    pub fn trains(self, counts: &[u16], levels: &mut [u8]) -> Result<Self, Refusal>
        ensures { TrainsPromise self counts.now levels.old (sent (told self result) levels.new) }
    {
        self.judged()?;
        if is_in(0, counts) {
            return Err(Refusal::EmptyTrain);
        }
        if levels.len() < counts.len() {
            return Err(Refusal::ShortBuffer);
        }
        Ok(self.send(counts, levels))
    }
}
