// How many lines of a call agree: what `replay` finds of a file of recorded answers.
use std::io::{self, Write};

// The name of a call, and how many of its lines agree so far. The bytes of a name need not be UTF-8.
#[derive(Clone, Copy)]
pub struct Count<'a> {
    pub name: &'a [u8],
    pub agreed: usize,
}

impl<'a> Count<'a> {
    // No line of a call is counted yet.
    pub fn of(name: &'a [u8]) -> Self {
        Count { name, agreed: 0 }
    }

    // Prints the count; nothing where there is no call.
    pub fn print(&self, rt: &impl Print) -> io::Result<()> {
        if self.name.is_empty() {
            return Ok(());
        }
        let agreed = self.agreed;
        io::writer(rt).write_all(self.name)?;
        println!(rt; ": {agreed} agree")
    }
}
