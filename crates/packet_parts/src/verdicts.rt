// What is judged before the work: "attention, opcode, fields, not ready, protection, 4"; 02, A8: "53/02 stands after the fields check of 1Bh".
ghost use Rattle.std.specs.Prelude.{◌≡◌};
ghost use Rattle.packet_parts.specs.Verdicts.{no_command, always, settings, loading, on_tape, storing, is_held, found_first, verdict_by};

use numbers::refusals::Refusal;
use packet_state::senses::{
    invalid_field, invalid_opcode, not_loaded, removal_prevented, unit_attention, write_protected,
    wrong_list_length,
};
use packet_state::state::{Attention, State, Verdict};

// What a command asks before its work. No Option for an unknown opcode: attention comes first (01), and exempt is asked for that.
#[derive(Clone, Copy)]
pub struct Asked {
    pub known: bool, // a command of the device
    pub exempt: bool, // answered whatever attention is pending
    pub field: bool, // a field of the packet is bad
    pub length: bool, // the length of its list is
    pub unloads: bool, // takes the cartridge out
    pub mounted: bool, // needs a loaded cartridge
    pub stores: bool, // stores on the cartridge
    pub needed: usize, // bytes of room in the buffer: N*B can pass 32 bits
}

pub fn no_command() -> Asked
    ensures { result ≡ no_command }
{
    Asked {
        known: false,
        exempt: false,
        field: false,
        length: false,
        unloads: false,
        mounted: false,
        stores: false,
        needed: 0,
    }
}

pub fn always(needed: usize) -> Asked
    ensures { result ≡ always needed }
{
    Asked {
        known: true,
        exempt: true,
        needed,
        ..no_command()
    }
}

pub fn settings(field: bool, length: bool, needed: usize) -> Asked
    ensures { result ≡ settings field length needed }
{
    Asked {
        known: true,
        field,
        length,
        needed,
        ..no_command()
    }
}

pub fn loading(field: bool, unloads: bool) -> Asked
    ensures { result ≡ loading field unloads }
{
    Asked {
        known: true,
        field,
        unloads,
        ..no_command()
    }
}

pub fn on_tape(field: bool, needed: usize) -> Asked
    ensures { result ≡ on_tape field needed }
{
    Asked {
        known: true,
        field,
        mounted: true,
        needed,
        ..no_command()
    }
}

pub fn storing(field: bool, needed: usize) -> Asked
    ensures { result ≡ storing field needed }
{
    Asked {
        stores: true,
        ..on_tape(field, needed)
    }
}

// 01: "A pending attention ends any packet but 03h and 12h"
fn is_held(attention: Attention, exempt: bool) -> bool
    ensures { result ≡ is_held attention exempt }
{
    (attention != Attention::Nothing) & !exempt
}

// The first that holds, in 01's order, the lock after the fields.
#[tactic(auto, unfolding(crate::specs::Verdicts::found_first))]
fn found_first(
    attention: Attention,
    held: bool,
    unknown: bool,
    field: bool,
    length: bool,
    barred: bool,
    absent: bool,
    kept: bool,
    short: bool,
) -> Verdict
    ensures { result ≡ found_first attention held unknown field length barred absent kept short }
{
    if held {
        return Verdict::Ends(unit_attention(attention));
    }
    if unknown {
        return Verdict::Ends(invalid_opcode());
    }
    if field {
        return Verdict::Ends(invalid_field());
    }
    if length {
        return Verdict::Ends(wrong_list_length());
    }
    if barred {
        return Verdict::Ends(removal_prevented());
    }
    if absent {
        return Verdict::Ends(not_loaded());
    }
    if kept {
        return Verdict::Ends(write_protected());
    }
    if short {
        return Verdict::Refuses(Refusal::ShortBuffer);
    }
    Verdict::Works
}

#[tactic(auto, unfolding(crate::specs::Verdicts::verdict_by))]
pub fn verdict_by(asked: Asked, protected: bool, state: State, room: usize) -> Verdict
    ensures { result ≡ verdict_by asked protected state room }
{
    let attention = state.attention;
    found_first(
        attention,
        is_held(attention, asked.exempt),
        !asked.known,
        asked.field,
        asked.length,
        asked.unloads & state.locked,
        asked.mounted & !state.loaded,
        asked.stores & protected,
        room < asked.needed,
    )
}
