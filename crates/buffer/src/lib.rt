// Bytes in a lent buffer: an insertion shifts the tail from its place onward, a cut closes the gap.
#![tactic(auto)]

ghost use Rattle.std.specs.Prelude.{◌≡◌, ◌++◌, ◌+◌, ◌-◌, ◌*◌, ◌≤◌, length, take, drop, replicate};
ghost use Rattle.std.proofs.lemmas.List.Edits.{sets};
ghost use Rattle.buffer.specs.Edit.{shifted, inserted, cut, written, copies};

// Moves tail[..used] up by n places, from its end downward.
fn shift_up(tail: &mut [u8], used: usize, n: usize)
    requires { used + n ≤ length tail.old }
    ensures { tail.new ≡ shifted tail.old n used 0 }
{
    for i in (0..used).rev() {
        tail[i + n] = tail[i];
    }
}

// Writes src over the front of tail. `copy_from_slice` would become a call of the C library's memmove, for which the library does not ask.
fn write_front(tail: &mut [u8], src: &[u8])
    requires { length src.now ≤ length tail.old }
    ensures { tail.new ≡ src.now ++ drop (length src.now) tail.old }
{
    for j in 0..src.len() {
        tail[j] = src[j];
    }
}

// Moves tail[..used] up by src.len() and writes src in front.
pub fn shift_and_write(tail: &mut [u8], used: usize, src: &[u8])
    requires { used + length src.now ≤ length tail.old }
    ensures { tail.new ≡ written tail.old used src.now }
{
    shift_up(tail, used, src.len());
    write_front(tail, src);
}

// Puts src into the text s[..used] at the place at; an empty one moves nothing.
pub fn insert_bytes(s: &mut [u8], used: usize, at: usize, src: &[u8])
    requires { (at ≤ used) × (used + length src.now ≤ length s.old) }
    ensures { take (used + length src.now) s.new ≡ inserted (take used s.old) at src.now }
{
    if src.len() == 0 {
        return;
    }
    shift_and_write(&mut s[at..], used - at, src);
}

// Writes n copies of src over the front of tail.
fn write_copies(tail: &mut [u8], src: &[u8], n: usize)
    requires { length src.now * n ≤ length tail.old }
    ensures { tail.new ≡ copies n src.now ++ drop (length src.now * n) tail.old }
{
    for i in 0..n {
        write_front(&mut tail[src.len() * i..], src);
    }
}

// Moves tail[..used] up by n copies of src and writes them in front.
fn shift_and_repeat(tail: &mut [u8], used: usize, src: &[u8], n: usize)
    requires { used + length src.now * n ≤ length tail.old }
    ensures { tail.new ≡ written tail.old used (copies n src.now) }
{
    shift_up(tail, used, src.len() * n);
    write_copies(tail, src, n);
}

// Puts n copies of src into the text s[..used] at the place at.
pub fn insert_copies(s: &mut [u8], used: usize, at: usize, src: &[u8], n: usize)
    requires { (at ≤ used) × (used + length src.now * n ≤ length s.old) }
    ensures { take (used + length src.now * n) s.new ≡ inserted (take used s.old) at (copies n src.now) }
{
    shift_and_repeat(&mut s[at..], used - at, src, n);
}

// Takes the bytes from..to out of the text s[..used]; none of them moves nothing.
pub fn cut_bytes(s: &mut [u8], used: usize, from: usize, to: usize)
    requires { (from ≤ to) × ((to ≤ used) × (used ≤ length s.old)) }
    ensures { take (used - (to - from)) s.new ≡ cut (take used s.old) from to }
{
    if from == to {
        return;
    }
    s.copy_within(to..used, from);
}

// Count bytes b from a place on.
pub fn fill(s: &mut [u8], at: usize, count: usize, b: u8)
    requires { at + count ≤ length s.old }
    ensures { s.new ≡ sets s.old at (replicate count b) }
{
    s[at..at + count].fill(b);
}

// The bytes of src from a place on.
pub fn copy_at(s: &mut [u8], at: usize, src: &[u8])
    requires { at + length src.now ≤ length s.old }
    ensures { s.new ≡ sets s.old at src.now }
{
    write_front(&mut s[at..], src);
}
