// 01: "Numbers in packets and answers are big-endian." 02, A9: here and in words.rt alone bytes are joined and split, by multiplication and addition and by
// division. A number of two bytes is held in 16 bits, one of three or four in 32; three and four are the width below and a byte more.
ghost use Rattle.std.specs.Prelude.{◌≡◌, ◌+◌, ◌*◌, ◌/◌, ◌%◌, ◌^◌, ◌<◌, ◌≤◌, length};
ghost use Rattle.numbers.specs.Counts.{count_at, put_count};

// Each width is a function of its own: 02, A9 wants "smaller temporaries", and one function for all would hold two bytes in 32 bits too.

// ---- two bytes joined, and split again

pub fn pair(high: u8, low: u8) -> u16
    ensures { result ≡ high * 256 + low }
{
    high as u16 * 256 + low as u16
}

pub fn high_byte(number: u16) -> u8
    ensures { result ≡ number / 256 % 256 }
{
    (number / 256) as u8
}

pub fn low_byte(number: u16) -> u8
    ensures { result ≡ number % 256 }
{
    (number % 256) as u8
}

// ---- counts read

// A slice and a place in it, as 01 names fields: a part cut out at each place would be no shorter.
pub fn count2(s: &[u8], at: usize) -> u16
    requires { at + 2 ≤ length s.now }
    ensures { result ≡ count_at s.now at 2 }
{
    pair(s[at], s[at + 1])
}

pub fn count3(s: &[u8], at: usize) -> u32
    requires { at + 3 ≤ length s.now }
    ensures { (result ≡ count_at s.now at 3) × (result < 2 ^ 24) }
{
    count2(s, at) as u32 * 256 + s[at + 2] as u32
}

pub fn count4(s: &[u8], at: usize) -> u32
    requires { at + 4 ≤ length s.now }
    ensures { result ≡ count_at s.now at 4 }
{
    count3(s, at) * 256 + s[at + 3] as u32
}

// ---- counts stored

pub fn put_count2(s: &mut [u8], at: usize, v: u16)
    requires { at + 2 ≤ length s.old }
    ensures { s.new ≡ put_count s.old at 2 v }
{
    s[at] = high_byte(v);
    s[at + 1] = low_byte(v);
}

fn put_count3(s: &mut [u8], at: usize, v: u32)
    requires v_bound { v < 2 ^ 24 }
    requires at_in_bounds { at + 3 ≤ length s.old }
    ensures { s.new ≡ put_count s.old at 3 v }
{
    put_count2(s, at, (v / 256) as u16);
    s[at + 2] = (v % 256) as u8;
}

pub fn put_count4(s: &mut [u8], at: usize, v: u32)
    requires { at + 4 ≤ length s.old }
    ensures { s.new ≡ put_count s.old at 4 v }
{
    put_count3(s, at, v / 256);
    s[at + 3] = (v % 256) as u8;
}
