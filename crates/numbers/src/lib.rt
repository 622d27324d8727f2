// Numbers of some bytes, little-endian: document 01, "Log and ring". The log's records and the ring's lengths are written in them.
#![tactic(auto)]

ghost use Rattle.std.specs.Prelude.{◌≡◌, ◌+◌, ◌≤◌, ◌<◌, length};
ghost use Rattle.std.proofs.lemmas.List.Edits.{sets};
ghost use Rattle.numbers.specs.Numbers.{Width, top, le, num_at};

// A byte as a number.
pub fn wide(b: u8) -> usize
    ensures { (result ≡ b) × (result < 256) }
{
    usize::from(b)
}

// The little-endian number in the width bytes at a place: 2 bytes, or 4. A loop over the bytes would hold no line for each
// half, and the edits high_byte_weighs_255 and high_half_weighs_65535 turn those.
pub fn read_num(s: &[u8], at: usize, width: usize) -> usize
    requires width { Width width }
    requires width_in_bounds { at + width ≤ length s.now }
    ensures { (result ≡ num_at width s.now at) × (result < 4294967296) }
{
    let low = wide(s[at]) + 256 * wide(s[at + 1]);
    if width == 2 {
        return low;
    }
    low + 65536 * (wide(s[at + 2]) + 256 * wide(s[at + 3]))
}

// A number of width bytes, little-endian, at a place.
pub fn write_num(s: &mut [u8], at: usize, v: usize, width: usize)
    requires { at + width ≤ length s.old }
    ensures { s.new ≡ sets s.old at (le width v) }
{
    let mut rest = v;
    for byte in &mut s[at..at + width] {
        *byte = (rest % 256) as u8;
        rest /= 256;
    }
}

// The number above those of width bytes.
pub fn top_of(width: usize) -> usize
    requires { width ≤ 4 }
    ensures { result ≡ top width }
{
    let mut above: usize = 1;
    for _ in 0..width {
        above *= 256;
    }
    above
}
