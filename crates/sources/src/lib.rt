// The steps in a source, a record or a sheet: what stands in an item, how many items there are, whether one is there.
#![tactic(auto)]

ghost use Rattle.std.specs.Prelude.{◌≡◌};
ghost use Rattle.tags.specs.Tag.{tag_byte};
ghost use Rattle.layouts.specs.SheetScan.{count_at};
ghost use Rattle.sides.specs.Move.{span_of, count_of, open_at, after as after_of, more as moreOf, present_at};

use counts::COUNT_BYTES;
use heads::Span;
use sides::Side;
use tags::Tag;
use terms::Refusal;

// A record or a sheet that is read.
#[derive(Clone, Copy)]
pub struct Source<'a> {
    pub bytes: &'a [u8],
    pub side: Side,
}

// A count, and where what it counts starts.
#[derive(Clone, Copy)]
struct Counted {
    items: usize,
    start: usize,
}

// What stands in an item: the count of a list in a sheet, where it starts, and where its window ends.
#[derive(Clone, Copy)]
pub struct Opened {
    pub count: usize,
    pub start: usize,
    pub end: usize,
}

// Whether something is there, and where to go on.
// Kept: where to go on is told in both cases (clause of `present`).
#[derive(Clone, Copy)]
pub struct Presence {
    pub there: bool,
    pub start: usize,
}

// The content that was found at a position, of a refused one nothing.
pub fn content(h: Result<Span, Refusal>, at: usize) -> Span
    ensures { (result.start, result.end) ≡ span_of at h }
{
    h.unwrap_or(Span { start: at, end: at })
}

// The count that stands at a position, or none.
fn counted_at(s: &[u8], at: usize, end: usize) -> Counted
    ensures { (result.items, result.start) ≡ count_of at (count_at s.now at end) }
{
    match counts::count(s, at, end) {
        Ok(items) => Counted {
            items,
            start: at + COUNT_BYTES,
        },
        Err(_) => Counted {
            items: 0,
            start: at,
        },
    }
}

impl Source<'_> {
    // What stands in an item that holds others; `listed`: it is a list.
    #[tactic(auto, unfolding(sides::specs::Move::open_at))]
    pub fn open(self, t: Tag, listed: bool, at: usize, end: usize) -> Opened
        ensures { (result.count, result.start, result.end) ≡ open_at self.entry.side (tag_byte t) listed self.entry.bytes.now at end }
    {
        match self.side {
            Side::Record => {
                let h = content(items::head(self.bytes, t, at, end), at);
                Opened {
                    count: 0,
                    start: h.start,
                    end: h.end,
                }
            }
            Side::Sheet if listed => {
                let c = counted_at(self.bytes, at, end);
                Opened {
                    count: c.items,
                    start: c.start,
                    end,
                }
            }
            Side::Sheet => Opened {
                count: 0,
                start: at,
                end,
            },
        }
    }

    // Where what follows an item starts: in a record at its end, in a sheet where its last part ends.
    pub fn after(self, end: usize, next: usize) -> usize
        ensures { result ≡ after_of self.entry.side end next }
    {
        match self.side {
            Side::Record => end,
            Side::Sheet => next,
        }
    }

    // Whether another item of a list stands here, after `k` of `count`.
    pub fn more(self, k: usize, count: usize, at: usize, end: usize) -> bool
        ensures { result ≡ moreOf self.entry.side k count at end }
    {
        match self.side {
            Side::Record => at < end,
            Side::Sheet => k < count,
        }
    }

    // Whether an optional item is there, and where it starts.
    #[tactic(auto, unfolding(sides::specs::Move::present_at))]
    pub fn present(self, t: Tag, at: usize, end: usize) -> Presence
        ensures { (result.there, result.start) ≡ present_at self.entry.side (tag_byte t) self.entry.bytes.now at end }
    {
        match self.side {
            Side::Record => Presence {
                there: edges::begins(self.bytes, t, at, end),
                start: at,
            },
            Side::Sheet => {
                let c = counted_at(self.bytes, at, end);
                Presence {
                    there: c.items != 0,
                    start: c.start,
                }
            }
        }
    }
}
