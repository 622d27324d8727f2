// A ring's slots and their lengths, two neighboring fields of either side of a line.
ghost use Rattle.std.specs.Prelude.{◌≡◌, ◌⊎◌, ◌↔◌, ◌/◌, ◌≤◌, length, [], ◌∷◌, IfOk, IsOkAnd, IsTrue};

use test_fields::{Fields, Malformed, Text, is_left, text_of};

// The bytes of a slot, and those of its length.
const SLOT: usize = 4096;

const LEN: usize = 2;

#[derive(Clone, Copy)]
pub struct RingBuffers {
    pub slots: Text,
    pub lens: Text,
}

// Are the texts of the first slots these bytes, one behind the other?
fn are_slots(due: &[u8], slots: &[u8], lens: &[u8], count: usize) -> bool
    ensures { IsTrue result → (count ≤ length slots.now / 4096) × (count ≤ length lens.now / 2) }
{
    if slots.len() / SLOT < count || lens.len() / LEN < count {
        return false;
    }
    let mut rest = due;
    for (slot, len) in slots.chunks(SLOT).zip(lens.chunks(LEN)).take(count) {
        let &[low, high] = len else {
            return false;
        };
        let Some(text) = slot.get(..usize::from(u16::from_le_bytes([low, high]))) else {
            return false;
        };
        let Some(behind) = rest.strip_prefix(text) else {
            return false;
        };
        rest = behind;
    }
    rest.is_empty()
}

// Are the slots of a ring of any size left as a field says: the texts of those in use, or all as they were lent where the field is '='?
// The texts of the field are read into room, and are malformed where they do not fit there. 61 is '='.
// Wrong answers ruled out: where the field is '=', slots that are never as they were lent; more slots in use than there are, or than have
// a length, and those that there are compared.
pub fn are_slots_left_in(
    due: &str,
    lent: &[u8],
    slots: &[u8],
    lens: &[u8],
    count: usize,
    room: &mut [u8],
) -> Result<bool, Malformed>
    ensures whole { due.now ≡ 61 ∷ [] → IsOkAnd result (λ b. IsTrue b ↔ (slots.now ≡ lent.now)) }
    ensures in_use { IfOk result (λ b. IsTrue b
        → (due.now ≡ 61 ∷ []) ⊎ ((count ≤ length slots.now / 4096) × (count ≤ length lens.now / 2))) }
{
    if due == "=" {
        return Ok(slots == lent);
    }
    let len = text_of(due, room)?;
    Ok(are_slots(&room[..len], slots, lens, count))
}

impl RingBuffers {
    // Empty buffers.
    pub fn new() -> Self {
        RingBuffers {
            slots: Text::new(),
            lens: Text::new(),
        }
    }

    // Reads the buffers that the next fields lend.
    pub fn read(&mut self, lent: &mut Fields<'_>) -> Result<(), Malformed> {
        self.slots.read(lent.next_field())?;
        self.lens.read(lent.next_field())
    }

    // Copies the texts of other buffers.
    pub fn copy_from(&mut self, buffers: &RingBuffers) {
        self.slots.copy_from(&buffers.slots);
        self.lens.copy_from(&buffers.lens);
    }

    // The slots and their lengths, to be written.
    pub fn as_mut_slices(&mut self) -> (&mut [u8], &mut [u8]) {
        (self.slots.as_mut_slice(), self.lens.as_mut_slice())
    }

    // Are the slots left as a field says: the texts of those in use, or all as they were lent where the field is '='? The texts of the
    // field are read in place of what was lent.
    fn are_slots_left(&self, due: &str, lent: &mut Text, count: usize) -> Result<bool, Malformed> {
        let slots = self.slots.as_slice();
        if due == "=" {
            return Ok(slots == lent.as_slice());
        }
        lent.read(due)?;
        Ok(are_slots(lent.as_slice(), slots, self.lens.as_slice(), count))
    }

    // Are they left as the next fields say, with so many slots in use? The texts of the fields are read in place of what was lent.
    pub fn are_left(
        &self,
        due: &mut Fields<'_>,
        lent: &mut RingBuffers,
        count: usize,
    ) -> Result<bool, Malformed> {
        let used = count.saturating_add(count);
        Ok(
            self.are_slots_left(due.next_field(), &mut lent.slots, count)?
                && is_left(due.next_field(), &mut lent.lens, self.lens.as_slice(), used)?,
        )
    }
}
