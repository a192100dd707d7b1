// What a line of a script has after its letter: bytes in hexadecimal, each after a space.
ghost use Rattle.std.specs.Prelude.{◌≡◌, ℕ, ◌<◌, ◌≤◌, List, [], ◌∷◌, ◌++◌, length, take, IfSome};

const MOST: usize = 40;

// As many as a line may have: the first so many of the values.
#[derive(Clone, Copy)]
pub struct Bytes {
    pub values: [u8; 40],
    pub count: usize,
}

impl Bytes {
    fn new() -> Bytes
        ensures { take result.count result.values ≡ [] }
    {
        Bytes {
            values: [0; MOST],
            count: 0,
        }
    }

    // What comes after the fortieth is left out.
    fn push(&mut self, byte: u8)
        ensures room { self.old.count < 40 → take self.new.count self.new.values ≡ take self.old.count self.old.values ++ byte ∷ [] }
        ensures full { 40 ≤ self.old.count → self.new ≡ self.old }
        ensures bound { self.old.count ≤ 40 → self.new.count ≤ 40 }
    {
        if self.count < MOST {
            self.values[self.count] = byte;
            self.count += 1;
        }
    }

    pub fn as_slice(&self) -> &[u8]
        ensures value { result.now ≡ take self.now.count self.now.values }
        ensures bound { length result.now ≤ 40 }
    {
        &self.values[..self.count.min(MOST)]
    }
}

// Not to_digit, which takes small letters too: a script has capitals.
fn digit(c: u8) -> Option<u8>
    ensures { IfSome result (λ value. value < 16) }
{
    match c {
        b'0'..=b'9' => Some(c - b'0'),
        b'A'..=b'F' => Some(c - b'A' + 10),
        _ => None,
    }
}

// What two digits after a space spell.
fn byte_of(spelled: &[u8]) -> Option<u8> {
    let [_, high, low] = spelled else {
        return None;
    };
    Some(digit(*high)? * 16 + digit(*low)?)
}

// The bytes up to the first that is none, and no more than 40.
pub fn bytes_of(spelled: &[u8]) -> Bytes
    ensures { result.count ≤ 40 }
{
    let mut bytes = Bytes::new();
    for byte in spelled.chunks(3).take(MOST).map_while(byte_of) {
        bytes.push(byte);
    }
    bytes
}
