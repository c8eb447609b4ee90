// A screen, and what it prints whatever the field: texts in its language, and columns.
use crate::words::{Language, Text};
use std::io;
use std::io::Write;

// Where a record is shown, in which language, the record, and whether it was accepted.
#[derive(Drop)]
pub struct Screen<'a, W> {
    pub out: W,
    pub language: Language,
    pub record: &'a [u8],
    pub accepted: bool,
}

// How many columns a character has: two where it is written with three bytes or more, as Chinese has them, else one.
fn columns(c: char) -> usize {
    if c < '\u{800}' { 1 } else { 2 }
}

impl<W: Write> Screen<'_, W> {
    // Prints a text.
    pub(crate) fn say(&mut self, text: Text) -> io::Result<()> {
        self.out.write_all(text.within(self.language).as_bytes())
    }

    // How many columns a text has.
    pub(crate) fn width(&self, text: Text) -> usize {
        text.within(self.language)
            .chars()
            .map(columns)
            .fold(0, usize::wrapping_add)
    }

    // Prints so many spaces.
    pub(crate) fn spaces(&mut self, n: usize) -> io::Result<()> {
        for _ in 0..n {
            self.out.write_all(b" ")?;
        }
        Ok(())
    }

    // Prints a text, and the spaces that fill up its column.
    pub(crate) fn cell(&mut self, text: Text, column: usize) -> io::Result<()> {
        self.say(text)?;
        self.spaces(column.saturating_sub(self.width(text)))
    }

    // Ends the line.
    pub(crate) fn end(&mut self) -> io::Result<()> {
        self.out.write_all(b"\n")
    }
}
