// The extended grapheme clusters of a text: UAX #29 over the repertoire of document 01.
#![tactic(auto)]

ghost use Rattle.std.specs.Prelude.{◌≡◌, true, [], ◌+◌, ◌≤◌, ◌<◌, length};
ghost use Rattle.utf8.specs.Chars.{valid};
ghost use Rattle.repertoire.specs.Repertoire.{catalogue};
ghost use Rattle.cluster.specs.Clusters.{joined, first_cluster, last_cluster};
ghost use Rattle.cluster.specs.Facts.{facts, single, extended};

use repertoire::{is_alnum, is_control, is_mark, is_white};
use utf8::{Char, decode_at, prev_char};

// A cluster as the word rules see it.
#[derive(Clone, Copy)]
pub struct Cluster {
    pub len: usize,
    pub alnum: bool,
    pub white: bool,
    pub underscore: bool,
}

impl Cluster {
    // The cluster of no characters.
    fn empty() -> Self
        ensures { result ≡ facts catalogue [] }
    {
        Cluster {
            len: 0,
            alnum: true,
            white: false,
            underscore: false,
        }
    }

    // The cluster of one character of len bytes.
    fn of(cp: u32, len: usize) -> Self
        ensures { result ≡ single catalogue cp len }
    {
        Cluster {
            len,
            alnum: is_alnum(cp),
            white: is_white(cp),
            underscore: cp == 0x5F,
        }
    }

    // The cluster with one more character of len bytes, at either end.
    fn with(self, cp: u32, len: usize) -> Self
        requires { self.len + len < 18446744073709551616 }
        ensures { result ≡ extended catalogue self cp len }
    {
        Cluster {
            len: self.len + len,
            alnum: self.alnum && is_alnum(cp),
            white: self.white || is_white(cp),
            underscore: false,
        }
    }
}

// Is there no break between p and the c that follows it?
#[tactic(auto, unfolding(crate::specs::Clusters::joined))]
pub fn joins(p: u32, c: u32) -> bool
    ensures { result ≡ joined catalogue p c }
{
    if p == 0x0D && c == 0x0A {
        return true;
    }
    if is_control(p) {
        return false;
    }
    if is_control(c) {
        return false;
    }
    is_mark(c)
}

// The first cluster of s, the empty one where s begins with no character.
pub fn next_cluster(s: &[u8]) -> Cluster
    ensures known { result ≡ facts catalogue (first_cluster catalogue s.now) }
    ensures within { result.len ≤ length s.now }
{
    let Some(Char { cp, len }) = decode_at(s, 0) else {
        return Cluster::empty();
    };
    let mut p = cp;
    let mut k = Cluster::of(cp, len);
    while let Some(Char { cp, len }) = decode_at(s, k.len) {
        if !joins(p, cp) {
            return k;
        }
        p = cp;
        k = k.with(cp, len);
    }
    k
}

// The last cluster of s, by a scan that goes back from its end.
pub fn prev_cluster(s: &[u8]) -> Cluster
    requires { valid s.now ≡ true }
    ensures known { result ≡ facts catalogue (last_cluster catalogue s.now) }
    ensures within { result.len ≤ length s.now }
{
    let n = s.len();
    if n == 0 {
        return Cluster::empty();
    }
    let mut j = prev_char(s, n);
    let Some(Char { cp, len }) = decode_at(s, j) else {
        return Cluster::empty();
    };
    let mut c = cp;
    let mut k = Cluster::of(cp, len);
    // A turn goes back over a character: no index is counted, and std has no iterator over those of a text from its end.
    while 0 < j {
        let i = prev_char(s, j);
        let Some(Char { cp, len }) = decode_at(s, i) else {
            return k;
        };
        if !joins(cp, c) {
            return k;
        }
        c = cp;
        j = i;
        k = k.with(cp, len);
    }
    k
}
