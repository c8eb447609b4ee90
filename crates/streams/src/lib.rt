// A program's input: a reader's bytes, into a buffer.
#![tactic(auto)]

ghost use Rattle.std.specs.Prelude.{◌<◌, length};
ghost use Rattle.terms.specs.Numbers.{largest_record};
ghost use Rattle.streams.specs.Input.{Filled, Taken, Given};

use std::io;

// Reads into a buffer until it is full, the input ends or a read fails, and answers how many bytes it read.
#[tactic(auto, using(crate::proofs::Filling::read_more))]
pub fn fill<R: io::Read>(reader: &mut R, buf: &mut [u8]) -> io::Result<usize>
    ensures filled { Filled result buf.new }
    ensures taken { Taken (R.remaining reader.old) (R.remaining reader.new) result buf.new }
{
    let mut n = 0;
    // Kept: how far a turn goes is the reader's to say, so no range or iterator counts the turns.
    while n < buf.len() {
        let k = reader.read(&mut buf[n..])?;
        if k == 0 {
            return Ok(n);
        }
        n += k;
    }
    Ok(n)
}

// Fills a buffer, which has room for the largest record and one byte more, from a program's input: how many bytes were read, or none where it
// says on standard error why it cannot be read.
pub fn input<R: io::Read>(
    rt: &impl Eprint,
    reader: &mut R,
    buf: &mut [u8; 65536],
) -> io::Result<Option<usize>>
    ensures room { largest_record < length buf.new }
    ensures given { Given (R.remaining reader.old) (R.remaining reader.new) result buf.new }
{
    match fill(reader, buf) {
        Ok(n) => Ok(Some(n)),
        Err(e) => {
            eprintln!(rt; "read: {e}")?;
            Ok(None)
        }
    }
}
