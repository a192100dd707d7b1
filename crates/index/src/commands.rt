// The packets for which the entries answer, and those that store.
ghost use Rattle.std.specs.Prelude.{◌≡◌};
ghost use Rattle.stream_laws.specs.Words.{stores_on};
ghost use Rattle.index.specs.Commands.{by_entries};

use opcodes::Command;
use packet_parts::requests::Request;
use packet_state::state::Verdict;
use stream_parts::requests::OVER_FILEMARKS;

pub fn stores_on(command: Command) -> bool
    ensures { result ≡ stores_on command }
{
    matches!(command, Command::Write | Command::WriteFilemarks)
}

pub fn by_entries(found: Verdict, q: Request) -> bool
    ensures { result ≡ by_entries found q }
{
    matches!(found, Verdict::Works) && q.command == Command::Space && q.flags % 8 == OVER_FILEMARKS
}
