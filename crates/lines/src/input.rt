// A script read from an input, and run.
ghost use Rattle.std.specs.Prelude.{◌≤◌, length};

use std::io;
use std::io::Read;

const MOST: usize = 65536;

// Reads until buf is full or the input has ended, and tells how many bytes it put at the start of buf; an input that fails has ended.
// A loop over read: read_exact does not tell how far it came, and read_to_end asks for memory.
fn read_full(input: &mut impl Read, buf: &mut [u8]) -> usize
    ensures { result ≤ length buf.new }
{
    let mut done: usize = 0;
    while done < buf.len() {
        let n = input.read(&mut buf[done..]).unwrap_or(0);
        if n == 0 {
            break;
        }
        done += n;
    }
    done
}

fn print_line(rt: &impl Print, words: &[u8]) -> io::Result<()> {
    rt.write_all(words)?;
    rt.write_all(b"\n")
}

// The lines of a script of at most 65,536 bytes, one after the other, up to the first that fails: what is after " is printed as it
// stands, what is after = as a line of its own, and any other letter is obeyed, with what is after it. An empty line says nothing.
pub fn run_script<F: FnMut(u8, &[u8]) -> io::Result<()>>(
    rt: &impl Print,
    input: &mut impl Read,
    mut obey: F,
) -> io::Result<()>
    requires { F.IsAlwaysCallable obey }
{
    let mut text = [0u8; MOST];
    let n = read_full(input, &mut text);
    for line in text[..n].split(|byte| *byte == b'\n') {
        match line {
            [] => {}
            [b'"', words @ ..] => rt.write_all(words)?,
            [b'=', words @ ..] => print_line(rt, words)?,
            [letter, spelled @ ..] => obey(*letter, spelled)?,
        }
    }
    Ok(())
}
