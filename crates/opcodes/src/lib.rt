// 01: "the opcode's class comes from a table of 256 entries, one for each first byte."
#![tactic(auto)]

ghost use Rattle.std.specs.Prelude.{◌≡◌};
ghost use Rattle.opcodes.specs.Commands.{stream_command, floppy_command, command_of_class};

#[derive(Clone, Copy, PartialEq, Eq)]
pub enum Command {
    Unknown, // a class too, not None: 01's table has one for each first byte
    TestUnitReady, // 00h
    Rewind, // 01h
    RequestSense, // 03h
    Read, // 08h
    Write, // 0Ah
    WriteFilemarks, // 10h
    Space, // 11h
    Inquiry, // 12h
    ModeSelect, // 15h
    ModeSense, // 1Ah
    LoadUnload, // 1Bh
    Locate, // 2Bh
    ReadPosition, // 34h
    PreventAllow, // 1Eh
}

// 01 asks for a table of 256 classes: by number it takes nine lines, by name it would take many more. Each device has its own; From<u8> is what they share.
const STREAM_CLASSES: [u8; 256] = [
    1, 2, 0, 3, 0, 0, 0, 0, 4, 0, 5, 0, 0, 0, 0, 0, 6, 7, 8, 0, 0, 9, 0, 0, 0, 0, 10, 11, 0, 0, 14,
    0, 0, 0, 0, 0, 0, 0, 0, 0, 0, 0, 0, 12, 0, 0, 0, 0, 0, 0, 0, 0, 13, 0, 0, 0, 0, 0, 0, 0, 0, 0,
    0, 0, 0, 0, 0, 0, 0, 0, 0, 0, 0, 0, 0, 0, 0, 0, 0, 0, 0, 0, 0, 0, 0, 0, 0, 0, 0, 0, 0, 0, 0, 0,
    0, 0, 0, 0, 0, 0, 0, 0, 0, 0, 0, 0, 0, 0, 0, 0, 0, 0, 0, 0, 0, 0, 0, 0, 0, 0, 0, 0, 0, 0, 0, 0,
    0, 0, 0, 0, 0, 0, 0, 0, 0, 0, 0, 0, 0, 0, 0, 0, 0, 0, 0, 0, 0, 0, 0, 0, 0, 0, 0, 0, 0, 0, 0, 0,
    0, 0, 0, 0, 0, 0, 0, 0, 0, 0, 0, 0, 0, 0, 0, 0, 0, 0, 0, 0, 0, 0, 0, 0, 0, 0, 0, 0, 0, 0, 0, 0,
    0, 0, 0, 0, 0, 0, 0, 0, 0, 0, 0, 0, 0, 0, 0, 0, 0, 0, 0, 0, 0, 0, 0, 0, 0, 0, 0, 0, 0, 0, 0, 0,
    0, 0, 0, 0, 0, 0, 0, 0, 0, 0, 0, 0, 0, 0, 0, 0, 0, 0, 0, 0, 0, 0, 0, 0, 0, 0, 0, 0, 0, 0, 0, 0,
    0, 0,
];

const FLOPPY_CLASSES: [u8; 256] = [
    1, 0, 0, 3, 0, 0, 0, 0, 4, 0, 5, 0, 0, 0, 0, 0, 6, 0, 8, 0, 0, 9, 0, 0, 0, 0, 10, 11, 0, 0, 14,
    0, 0, 0, 0, 0, 0, 0, 0, 0, 0, 0, 0, 12, 0, 0, 0, 0, 0, 0, 0, 0, 0, 0, 0, 0, 0, 0, 0, 0, 0, 0,
    0, 0, 0, 0, 0, 0, 0, 0, 0, 0, 0, 0, 0, 0, 0, 0, 0, 0, 0, 0, 0, 0, 0, 0, 0, 0, 0, 0, 0, 0, 0, 0,
    0, 0, 0, 0, 0, 0, 0, 0, 0, 0, 0, 0, 0, 0, 0, 0, 0, 0, 0, 0, 0, 0, 0, 0, 0, 0, 0, 0, 0, 0, 0, 0,
    0, 0, 0, 0, 0, 0, 0, 0, 0, 0, 0, 0, 0, 0, 0, 0, 0, 0, 0, 0, 0, 0, 0, 0, 0, 0, 0, 0, 0, 0, 0, 0,
    0, 0, 0, 0, 0, 0, 0, 0, 0, 0, 0, 0, 0, 0, 0, 0, 0, 0, 0, 0, 0, 0, 0, 0, 0, 0, 0, 0, 0, 0, 0, 0,
    0, 0, 0, 0, 0, 0, 0, 0, 0, 0, 0, 0, 0, 0, 0, 0, 0, 0, 0, 0, 0, 0, 0, 0, 0, 0, 0, 0, 0, 0, 0, 0,
    0, 0, 0, 0, 0, 0, 0, 0, 0, 0, 0, 0, 0, 0, 0, 0, 0, 0, 0, 0, 0, 0, 0, 0, 0, 0, 0, 0, 0, 0, 0, 0,
    0, 0,
];

// The commands in the order of their classes.
impl From<u8> for Command {
    ghost from_gives = { λ class command. command ≡ command_of_class class };

    #[tactic(auto, unfolding(crate::specs::Commands::command_of_class))]
    fn from(class: u8) -> Command {
        match class {
            1 => Command::TestUnitReady,
            2 => Command::Rewind,
            3 => Command::RequestSense,
            4 => Command::Read,
            5 => Command::Write,
            6 => Command::WriteFilemarks,
            7 => Command::Space,
            8 => Command::Inquiry,
            9 => Command::ModeSelect,
            10 => Command::ModeSense,
            11 => Command::LoadUnload,
            12 => Command::Locate,
            13 => Command::ReadPosition,
            14 => Command::PreventAllow,
            _ => Command::Unknown,
        }
    }
}

pub fn stream_command(opcode: u8) -> Command
    ensures { result ≡ stream_command opcode }
{
    Command::from(STREAM_CLASSES[opcode as usize])
}

pub fn floppy_command(opcode: u8) -> Command
    ensures { result ≡ floppy_command opcode }
{
    Command::from(FLOPPY_CLASSES[opcode as usize])
}
