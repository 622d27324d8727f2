// A text and a log's two buffers, the first three fields of either side of a line.
use super::{Fields, Malformed, Text, is_left};

// A text and a log's two buffers that a call is lent, of any lengths: those of `Buffers`, or a caller's own.
pub trait Lend {
    // The text, the records and the texts, to be written. A call may ask for them more than once: they are the same each time.
    fn lend(&mut self) -> (&mut [u8], &mut [u8], &mut [u8]);
}

#[derive(Clone, Copy)]
pub struct Buffers {
    pub text: Text,
    pub records: Text,
    pub texts: Text,
}

impl Buffers {
    // Empty buffers.
    pub fn new() -> Self {
        Buffers {
            text: Text::new(),
            records: Text::new(),
            texts: Text::new(),
        }
    }

    // Reads the buffers that the next fields lend.
    pub fn read(&mut self, lent: &mut Fields<'_>) -> Result<(), Malformed> {
        self.text.read(lent.next_field())?;
        self.records.read(lent.next_field())?;
        self.texts.read(lent.next_field())
    }

    // Copies the texts of other buffers.
    pub fn copy_from(&mut self, buffers: &Buffers) {
        self.text.copy_from(&buffers.text);
        self.records.copy_from(&buffers.records);
        self.texts.copy_from(&buffers.texts);
    }

    // The text, the records and the texts, to be written.
    pub fn as_mut_slices(&mut self) -> (&mut [u8], &mut [u8], &mut [u8]) {
        (
            self.text.as_mut_slice(),
            self.records.as_mut_slice(),
            self.texts.as_mut_slice(),
        )
    }

    // Are they left as the next fields say, with so many bytes in use of the text, the records and the texts? The texts of the fields
    // are read in place of what was lent.
    pub fn are_left(
        &self,
        due: &mut Fields<'_>,
        lent: &mut Buffers,
        used: [usize; 3],
    ) -> Result<bool, Malformed> {
        let [text, records, texts] = used;
        Ok(
            is_left(due.next_field(), &mut lent.text, self.text.as_slice(), text)?
                && is_left(
                    due.next_field(),
                    &mut lent.records,
                    self.records.as_slice(),
                    records,
                )?
                && is_left(
                    due.next_field(),
                    &mut lent.texts,
                    self.texts.as_slice(),
                    texts,
                )?,
        )
    }
}

impl Lend for Buffers {
    fn lend(&mut self) -> (&mut [u8], &mut [u8], &mut [u8]) {
        self.as_mut_slices()
    }
}
