// What a packet's answer is made of.
ghost use Rattle.std.specs.Prelude.{◌≡◌};
ghost use Rattle.packet_parts.specs.Answers.{told, ends_before, answered_with, ends, with_marked, beside};

use packet_state::senses::no_sense;
use packet_state::state::{Attention, Ending, Outcome, Sense, State, Told};

// The status, a byte of the C answer.
pub const GOOD: u8 = 0;

const CHECK_CONDITION: u8 = 2;

// Makes the Told: blocks and bytes come as two numbers, since each caller counts them apart.
pub fn told(status: u8, blocks: u32, bytes: u32) -> Told
    ensures { result ≡ told status blocks bytes }
{
    Told {
        status,
        blocks,
        bytes,
        marked: 0,
    }
}

pub fn end_before(state: State, sense: Sense) -> Outcome<State>
    ensures { result ≡ ends_before state sense }
{
    Outcome {
        answer: told(CHECK_CONDITION, 0, 0),
        state: state.with_attention(Attention::Nothing).with_sense(sense),
    }
}

fn answer_with(state: State, status: u8, sense: Sense, blocks: u32, bytes: u32) -> Outcome<State>
    ensures { result ≡ answered_with state status sense blocks bytes }
{
    Outcome {
        answer: told(status, blocks, bytes),
        state: state.with_sense(sense),
    }
}

#[tactic(auto, unfolding(crate::specs::Answers::ends))]
pub fn end(state: State, ending: Ending, blocks: u32, bytes: u32) -> Outcome<State>
    ensures { result ≡ ends state ending blocks bytes }
{
    match ending {
        Ok(()) => answer_with(state, GOOD, no_sense(), blocks, bytes),
        Err(sense) => answer_with(state, CHECK_CONDITION, sense, blocks, bytes),
    }
}

// 02, A6: what a READ tells beside its blocks and bytes.
pub fn with_marked(out: Outcome<State>, marked: u32) -> Outcome<State>
    ensures { result ≡ with_marked out marked }
{
    let answer = Told {
        marked,
        ..out.answer
    };
    Outcome { answer, ..out }
}

// The same answer, with another record.
pub fn beside<R: Drop, S>(out: Outcome<R>, state: S) -> Outcome<S>
    ensures { result ≡ beside out state }
{
    Outcome {
        answer: out.answer,
        state,
    }
}
