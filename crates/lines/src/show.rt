// How bytes are printed.
use std::fmt;

// Bytes in hexadecimal, each after a space.
#[derive(Clone, Copy)]
pub struct Hex<'a>(pub &'a [u8]);

impl fmt::Display for Hex<'_> {
    fn fmt<W: fmt::Write>(&self, f: &mut fmt::Formatter<W>) -> fmt::Result {
        for value in self.0 {
            write!(f, " {value:02X}")?;
        }
        Ok(())
    }
}
