// Sends the bytes on standard input to a pulse drive as trains, from power-on with vendor and ROM 0, and writes each train with its level.
#![tactic(auto)]

ghost use Rattle.std.specs.Prelude.{◌≡◌};
ghost use Rattle.bench.specs.Bytes.{byte_call};
ghost use Rattle.pulse.specs.Calls.{told};

use numbers::refusals::Refusal;
use pulse::Drive;
use std::io;
use std::io::Read;

const CHUNK: usize = 4096;

fn write_line(rt: &impl Print, train: u8, level: bool) -> io::Result<()> {
    println!(rt; "{} {}", train, level as u8)
}

#[tactic(auto, unfolding(crate::specs::Bytes::byte_call))]
fn take_byte(drive: Drive, byte: u8) -> Result<Drive, Refusal>
    ensures { told drive result ≡ byte_call drive byte }
{
    match byte {
        0 => drive.tick(),
        _ => drive.train(byte as u16),
    }
}

// A refused call would tell level 0 and leave the drive as it is.
fn send(rt: &impl Print, drive: Drive, byte: u8) -> io::Result<Drive> {
    let (level, next) = match take_byte(drive, byte) {
        Ok(next) => (next.level, next),
        Err(_) => (false, drive),
    };
    if byte != 0 {
        write_line(rt, byte, level)?;
    }
    Ok(next)
}

fn send_all(rt: &impl Print, drive: Drive, bytes: &[u8]) -> io::Result<Drive> {
    let mut now = drive;
    for byte in bytes {
        now = send(rt, now, *byte)?;
    }
    Ok(now)
}

// The drive after a chunk that was read and sent; none where the input has ended.
fn send_chunk(rt: &impl Print, input: &mut impl Read, drive: Drive) -> io::Result<Option<Drive>> {
    let mut bytes = [0u8; CHUNK];
    let n = input.read(&mut bytes).unwrap_or(0); // an input that fails has ended
    if n == 0 {
        return Ok(None);
    }
    Ok(Some(send_all(rt, drive, &bytes[..n])?))
}

// A proved loop has to end, and nothing says that the input does: the chunks are counted up to a number that no run reaches.
fn send_input(rt: &impl Print, input: &mut impl Read, drive: Drive) -> io::Result<()> {
    let mut now = drive;
    for _ in 0..u64::MAX {
        let Some(next) = send_chunk(rt, input, now)? else {
            break;
        };
        now = next;
    }
    Ok(())
}

fn main(rt: HostRuntime) -> io::Result<()> {
    rt.println("train bit")?;
    send_input(&rt, &mut rt.stdin(), Drive::power_on(0, 0))
}
