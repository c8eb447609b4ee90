// An item's head: its tag and its length, and where its content lies.
#![tactic(auto)]

ghost use Rattle.std.specs.Prelude.{◌≡◌, ◌+◌, ◌≤◌, ◌<◌, length};
ghost use Rattle.items.specs.Scan.{length_at, opening_at};
ghost use Rattle.tags.specs.Tag.{tag_byte};
ghost use Rattle.heads.specs.Scan.{head_at, outermost_at};
ghost use Rattle.items.specs.Laws.{room_at};

use heads::Span;
use tags::Tag;
use terms::{Reason, Refusal};

// The first length that is spelled after 81, and the first after 82.
const AFTER_81: usize = 128;

const AFTER_82: usize = 256;

// How a length is spelled: in one byte alone, or in one or two bytes more.
#[derive(Clone, Copy)]
enum Form {
    Short,
    OneByte,
    TwoBytes,
}

// A head that was read: its length's form, the bytes of tag and length together, and those of the content.
#[derive(Clone, Copy)]
struct Opening {
    form: Form,
    header: usize,
    content: usize,
}

// The head of the item whose tag stands at a position, by the byte after the tag; none where its length is cut or not in its shortest form.
fn length_at(s: &[u8], at: usize, stop: usize) -> Option<Opening>
    requires { (at < stop) × (stop ≤ length s.now) }
    ensures { result ≡ length_at s.now at stop }
{
    let left = stop - at;
    if left < 2 {
        return None;
    }
    let first = s[at + 1];
    match first {
        0x00..=0x7f => Some(Opening {
            form: Form::Short,
            header: 2,
            content: usize::from(first),
        }),
        0x81 => {
            if left < 3 {
                return None;
            }
            let n = usize::from(s[at + 2]);
            if n < AFTER_81 {
                return None;
            }
            Some(Opening {
                form: Form::OneByte,
                header: 3,
                content: n,
            })
        }
        0x82 => {
            if left < 4 {
                return None;
            }
            let n = usize::from(s[at + 2]) * 256 + usize::from(s[at + 3]);
            if n < AFTER_82 {
                return None;
            }
            Some(Opening {
                form: Form::TwoBytes,
                header: 4,
                content: n,
            })
        }
        _ => None,
    }
}

// Tag and length of the item at a position: 1, 2 or 3.
fn open(s: &[u8], tag: Tag, at: usize, stop: usize) -> Result<Opening, Refusal>
    requires { stop ≤ length s.now }
    ensures { result ≡ opening_at (tag_byte tag) s.now at stop }
{
    if stop <= at {
        return Err(Reason::ItemMissing.at(at));
    }
    if tags::tag_of(s[at]) != Some(tag) {
        return Err(Reason::OtherTag.at(at));
    }
    length_at(s, at, stop).ok_or(Reason::BadLength.at(at))
}

// The content behind a header, if it ends by the encloser's end: 4.
fn room(at: usize, opening: Opening, stop: usize) -> Result<Span, Refusal>
    requires { at + opening.header ≤ stop }
    ensures { result ≡ room_at at opening.header opening.content stop }
{
    let start = at + opening.header;
    if stop - start < opening.content {
        return Err(Reason::PastEnd.at(at));
    }
    Ok(Span {
        start,
        end: start + opening.content,
    })
}

// The item of a tag at a position, up to the encloser's end: where its content lies, or 1, 2, 3 or 4.
pub fn head(s: &[u8], tag: Tag, at: usize, end: usize) -> Result<Span, Refusal>
    ensures { result ≡ head_at (tag_byte tag) s.now at end }
{
    let stop = windows::nearer(end, s.len());
    room(at, open(s, tag, at, stop)?, stop)
}

// The outermost item, of at most `most` bytes with its header: 17 stands between 3 and 4.
pub fn outermost(s: &[u8], most: usize, tag: Tag, at: usize, end: usize) -> Result<Span, Refusal>
    ensures { result ≡ outermost_at most (tag_byte tag) s.now at end }
{
    let stop = windows::nearer(end, s.len());
    let opened = open(s, tag, at, stop)?;
    if most < opened.header + opened.content {
        return Err(Reason::TooLarge.at(at));
    }
    room(at, opened, stop)
}
