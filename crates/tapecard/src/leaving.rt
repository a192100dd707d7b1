// What a call leaves of the bytes that a host lends: those of the record, and those of the answer.
ghost use Rattle.std.specs.Prelude.{◌≡◌, ℕ, List};
ghost use Rattle.floppy_record.specs.FloppyRecord.{encode_floppy};
ghost use Rattle.packet_record.specs.PacketRecord.{encode_state};
ghost use Rattle.pulse_record.specs.PulseRecord.{encode_drive};
ghost use Rattle.tapecard.specs.Leaving.{kept, kept_of, waited_card};
ghost use Rattle.tapecard.specs.PulseCalls.{pulse_card};

use floppy_parts::tape::Floppy;
use floppy_record::encode_floppy;
use numbers::refusals::Refusal;
use packet_record::{encode_answer, encode_state};
use packet_state::state::{Outcome, State};
use pulse::{Drive, Waited};
use pulse_record::{encode_drive, encode_told};

// A record that a host keeps as so many bytes.
pub trait InBytes<const N: usize>: Copy {
    ghost spelled: { Self → List ℕ };

    fn in_bytes(self) -> [u8; N]
        ensures { result ≡ spelled self };
}

impl InBytes<16> for State {
    ghost spelled = { encode_state };

    fn in_bytes(self) -> [u8; 16] {
        encode_state(self)
    }
}

impl InBytes<32> for Floppy {
    ghost spelled = { encode_floppy };

    fn in_bytes(self) -> [u8; 32] {
        encode_floppy(self)
    }
}

impl InBytes<32> for Drive {
    ghost spelled = { encode_drive };

    fn in_bytes(self) -> [u8; 32] {
        encode_drive(self)
    }
}

// A refused call leaves the record as it was; the answer is always written.
pub fn leave<const N: usize, R: InBytes<N>>(
    state: &mut [u8; N],
    answer: &mut [u8; 16],
    left: Result<Outcome<R>, Refusal>,
)
    ensures { kept state.new answer.new ≡ kept_of R.spelled state.old left }
{
    match left {
        Ok(out) => {
            *answer = encode_answer(Ok(out.answer));
            *state = out.state.in_bytes();
        }
        Err(refusal) => *answer = encode_answer(Err(refusal)),
    }
}

// Not by leave: the answer of a pulse call has 8 bytes, a level and the ticks that it took.
pub fn leave_waited(state: &mut [u8; 32], answer: &mut [u8; 8], left: Result<Waited, Refusal>)
    ensures { pulse_card state.new answer.new ≡ waited_card state.old left }
{
    match left {
        Ok(waited) => {
            *answer = encode_told(0, waited.drive.level, waited.ticks);
            *state = waited.drive.in_bytes();
        }
        Err(refusal) => *answer = encode_told(u8::from(refusal), false, 0),
    }
}
