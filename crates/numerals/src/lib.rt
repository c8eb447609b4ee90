// A number as bytes: the eight of its section, and how many its content has.
#![tactic(auto)]

ghost use Rattle.std.specs.Prelude.{◌≡◌, length};
ghost use Rattle.contents.specs.Integer.{eight as eightOf, content_of};

// The section of a number: its eight bytes.
#[tactic(auto, using(crate::specs::Laws::bytes_eight))]
pub fn eight(v: i64) -> [u8; 8]
    ensures { result ≡ eightOf v }
{
    v.to_be_bytes()
}

// How many bytes the content of a number has, the last ones of its eight.
#[tactic(auto, unfolding(contents::specs::Integer::content_of))]
pub fn size(v: i64) -> usize
    ensures { result ≡ length (content_of v) }
{
    numbers::needed(&eight(v))
}
