// The dry run by the number of a kind: what lib.rt's Tail, Noted and note say, the same for a kind's number, of which any may come.

ghost use Rattle.std.specs.Prelude.{◌≡◌, ◌≤◌};
ghost use Rattle.formats.specs.Formats.{Fit};
ghost use Rattle.log_recording.specs.ByNumber.{edit_size, apart as ByNumber·apart, noted, InRange};

use super::ends_at;
use formats::Format;

// An undo list by its used lengths and its newest record: 3 Insert, 4 Delete, 5 Replace, 0 any other or none.
#[derive(Clone, Copy)]
pub struct Tail {
    pub records: usize,
    pub texts: usize,
    pub kind: usize,
    pub place: usize,
    pub old: usize,
    pub new: usize,
}

// The list after a change, and where in the texts the change's old text goes.
#[derive(Clone, Copy)]
pub struct Noted {
    pub tail: Tail,
    pub at: usize,
}

// The size of an edit's record: kind 3, 4 or 5. Any other number is answered as 3 is.
#[tactic(auto, unfolding(crate::specs::ByNumber::edit_size))]
fn edit_size(f: Format, kind: usize) -> usize
    requires { Fit f }
    ensures { (result ≡ edit_size f kind) × (result ≤ 13) }
{
    let w = f.width;
    if kind == 5 { 1 + w + w + w } else { 1 + w + w }
}

impl Tail {
    // The change in a record of its own.
    fn apart(self, f: Format, kind: usize, place: usize, old: usize, new: usize) -> Noted
        requires fit { Fit f }
        requires in_range { InRange self old new }
        ensures { result ≡ ByNumber·apart f kind place old new self }
    {
        Noted {
            tail: Tail {
                records: self.records + edit_size(f, kind),
                texts: self.texts + (old + new),
                kind,
                place,
                old,
                new,
            },
            at: self.texts,
        }
    }

    // A change of a kind at a place, whose old and new text are so many bytes long: the dry run of recording it.
    // Wrong answers ruled out: a change joined to a record of another kind; a cut in front of the newest, put behind its text.
    pub fn note(
        self,
        f: Format,
        joins: bool,
        kind: usize,
        place: usize,
        old: usize,
        new: usize,
    ) -> Noted
        requires fit { Fit f }
        requires in_range { InRange self old new }
        ensures { result ≡ noted f joins kind place old new self }
    {
        if !joins {
            return self.apart(f, kind, place, old, new);
        }
        if self.kind != kind {
            return self.apart(f, kind, place, old, new);
        }
        let texts = self.texts + (old + new);
        if self.place + self.new == place {
            return Noted {
                tail: Tail {
                    records: self.records,
                    texts,
                    kind: self.kind,
                    place: self.place,
                    old: self.old + old,
                    new: self.new + new,
                },
                at: self.texts - self.new,
            };
        }
        if kind != 4 {
            return self.apart(f, kind, place, old, new);
        }
        if !ends_at(place, old, self.place) {
            return self.apart(f, kind, place, old, new);
        }
        Noted {
            tail: Tail {
                records: self.records,
                texts,
                kind: self.kind,
                place,
                old: old + self.old,
                new: new + self.new,
            },
            at: self.texts - (self.old + self.new),
        }
    }
}
