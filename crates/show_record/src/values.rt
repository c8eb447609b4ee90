// How a screen shows what a field holds.
ghost use Rattle.std.specs.Prelude.{◌≤◌};

use crate::decimals::Decimal;
use crate::screen::Screen;
use crate::words;
use screen_rows::Shows;
use std::io::Write;
use std::{io, str};

// The bytes that are shown of a value that is no text.
const SHOWN_BYTES: usize = 16;

// The parts of a time of fourteen digits and Z, each from where to where it goes and with what is printed after it.
const CLOCK: [(usize, usize, &str); 6] = [
    (0, 4, "-"),
    (4, 6, "-"),
    (6, 8, " "),
    (8, 10, ":"),
    (10, 12, ":"),
    (12, 14, " UTC"),
];

// Whether a character is shown as it is: ASCII without controls, Latin, Greek and Cyrillic letters, punctuation, kana, bopomofo, Chinese and
// full-width characters. Each has a shape of its own and is written from left to right.
fn is_shown(c: char) -> bool {
    matches!(
        c,
        '\u{20}'..='\u{7e}'
            | '\u{a1}'..='\u{ac}'
            | '\u{ae}'..='\u{24f}'
            | '\u{391}'..='\u{3a1}'
            | '\u{3a3}'..='\u{3c9}'
            | '\u{400}'..='\u{45f}'
            | '\u{2010}'..='\u{2027}'
            | '\u{3001}'..='\u{3029}'
            | '\u{3041}'..='\u{3096}'
            | '\u{30a0}'..='\u{30ff}'
            | '\u{3105}'..='\u{312f}'
            | '\u{3400}'..='\u{4dbf}'
            | '\u{4e00}'..='\u{9fff}'
            | '\u{20000}'..='\u{2a6df}'
            | '\u{ff01}'..='\u{ff5e}'
            | '\u{ffe0}'..='\u{ffe6}'
    )
}

// The first number of an identifier, whose first part holds the first two: each of 0 and 1 has forty below it, 2 has the rest.
fn first_number(content: &[u8]) -> u8
    ensures { result ≤ 2 }
{
    match content.first() {
        None | Some(0..=39) => 0,
        Some(40..=79) => 1,
        _ => 2,
    }
}

impl<W: Write> Screen<'_, W> {
    // Prints what a field holds.
    pub(crate) fn value(&mut self, shows: Shows, part: &[u8], items: usize) -> io::Result<()> {
        match shows {
            Shows::Structure => Ok(()),
            Shows::List => self.count(items),
            Shows::Text => self.text(part),
            Shows::Time => self.time(part),
            Shows::Number => self.integer(part),
            Shows::Identifier => self.identifier(part),
            Shows::Bytes => self.bytes(part),
            Shows::Critical => self.say(words::YES),
        }
    }

    // Prints how many items a list has.
    fn count(&mut self, items: usize) -> io::Result<()> {
        if items == 0 {
            return self.say(words::EMPTY_LIST);
        }
        write!(self.out, "{items} ")?;
        self.say(if items == 1 {
            words::ITEM
        } else {
            words::ITEMS
        })
    }

    // Prints a text between quotes.
    fn text(&mut self, bytes: &[u8]) -> io::Result<()> {
        let Ok(text) = str::from_utf8(bytes) else {
            return self.hex(bytes);
        };
        self.out.write_all(b"\"")?;
        for c in text.chars() {
            self.character(c)?;
        }
        self.out.write_all(b"\"")
    }

    // Prints a character: as it is, a quote or a backslash after a backslash, and any other by its number.
    fn character(&mut self, c: char) -> io::Result<()> {
        if !is_shown(c) {
            return write!(self.out, "\\u{{{:x}}}", u32::from(c));
        }
        if c == '"' || c == '\\' {
            self.out.write_all(b"\\")?;
        }
        self.out.write_all(c.encode_utf8(&mut [0u8; 4]).as_bytes())
    }

    // Prints a time as date and clock.
    fn time(&mut self, bytes: &[u8]) -> io::Result<()> {
        for (start, end, after) in CLOCK {
            self.out.write_all(windows::window(bytes, start, end))?;
            self.out.write_all(after.as_bytes())?;
        }
        Ok(())
    }

    // Prints the number that an integer's bytes stand for.
    fn integer(&mut self, bytes: &[u8]) -> io::Result<()> {
        let Some(v) = numbers::read(bytes, 0, bytes.len()) else {
            return self.hex(bytes);
        };
        write!(self.out, "{v}")
    }

    // Prints an identifier.
    fn identifier(&mut self, content: &[u8]) -> io::Result<()> {
        let first = first_number(content);
        write!(self.out, "{first}")?;
        let mut tens = 4 * first;
        let mut number = Decimal::ZERO;
        for b in content {
            number.push(*b & 0x7f);
            if *b < 0x80 {
                number.take_tens(tens);
                write!(self.out, ".{number}")?;
                number = Decimal::ZERO;
                tens = 0;
            }
        }
        Ok(())
    }

    // Prints the first bytes, or that there are none.
    fn bytes(&mut self, bytes: &[u8]) -> io::Result<()> {
        if bytes.is_empty() {
            return self.say(words::NO_BYTES);
        }
        self.hex(bytes)
    }

    // Prints the first bytes.
    fn hex(&mut self, bytes: &[u8]) -> io::Result<()> {
        for (i, b) in bytes.iter().enumerate() {
            if 0 < i {
                self.out.write_all(b" ")?;
            }
            if i == SHOWN_BYTES {
                return self.out.write_all(b"..");
            }
            write!(self.out, "{b:02x}")?;
        }
        Ok(())
    }
}
