// One reader of sheets over the table of layouts.
#![tactic(auto)]

ghost use Rattle.std.specs.Prelude.{◌≡◌, length};
ghost use Rattle.layouts.specs.Whole.{accept_sheet};
ghost use Rattle.layouts.specs.SheetScan.{sheet_scan, sheet_scans};
ghost use Rattle.layouts.proofs.Laws.Scan.{whole};
ghost use Rattle.structures.specs.Structure.{row_of, layout_of};
ghost use Rattle.sheet_walks.specs.Walk.{member_walk, list_walk};

use counts::COUNT_BYTES;
use rows::Member;
use structures::{Build, Row, Structure};
use terms::{Reason, Refusal};

// An item's sections: where what follows them starts, or the first refusal in them.
#[cycle(item_list_member_row)]
fn item(s: &[u8], x: Structure, at: usize, end: usize) -> Result<usize, Refusal>
    ensures { result ≡ sheet_scan (layout_of x) s.now at end }
{
    match structures::build_of(x) {
        Build::Leaf(primitive) => edges::past(sections::leaf(s, primitive, at, end)),
        Build::Node(_, members) => row(s, members, at, end),
        Build::List {
            tag: _,
            empty,
            most,
            name: _,
            each,
        } => {
            let n = counts::list_count(s, empty, most, at, end)?;
            list(s, each, n, at + COUNT_BYTES, end)
        }
        Build::Wrap(_, y) => item(s, y, at, end),
    }
}

// The members of a row, one after another, up to an end: where what follows them starts, or the first refusal in them.
#[cycle(item_list_member_row)]
fn row(s: &[u8], x: Row, at: usize, end: usize) -> Result<usize, Refusal>
    ensures { result ≡ sheet_scans (row_of x) s.now at end }
{
    let members = rows::members_of(x);
    let mut p = at;
    for m in &members {
        p = member(s, *m, p, end)?;
    }
    Ok(p)
}

// A member of a row; a known one has no section.
// Kept: each case of the table takes arguments of its own.
#[cycle(item_list_member_row)]
fn member(s: &[u8], m: Member, at: usize, end: usize) -> Result<usize, Refusal>
    ensures { result ≡ member_walk m s.now at end }
{
    match m {
        Member::Blank => Ok(at),
        Member::Known(_) => Ok(at),
        Member::Leaf(_, primitive) => edges::past(sections::leaf(s, primitive, at, end)),
        Member::Part(_, x) => item(s, x, at, end),
        Member::Maybe(_, x) => {
            let n = counts::count(s, at, end)?;
            let a = at + COUNT_BYTES;
            match n {
                0 => Ok(a),
                1 => item(s, x, a, end),
                _ => Err(Reason::BadSheet.at(at)),
            }
        }
        Member::Flag(_) => section_values::flag(s, at, end),
        Member::Choice {
            by: _,
            primitive,
            content,
            name: _,
            first,
            second,
        } => {
            let value = sections::leaf(s, primitive, at, end)?;
            if answers::is_content(s, content, value.start, value.end) {
                return item(s, first, value.end, end);
            }
            item(s, second, value.end, end)
        }
    }
}

// So many items, one after another.
#[cycle(item_list_member_row)]
fn list(s: &[u8], x: Structure, n: usize, at: usize, end: usize) -> Result<usize, Refusal>
    ensures { result ≡ list_walk (layout_of x) n s.now at end }
{
    let mut p = at;
    for _ in 0..n {
        p = item(s, x, p, end)?;
    }
    Ok(p)
}

// A sheet that is the whole input: its end, or the first refusal, 19 at the first byte left over.
pub fn sheet(s: &[u8], x: Row) -> Result<usize, Refusal>
    ensures { result ≡ whole (length s.now) (accept_sheet (row_of x) s.now) }
{
    let q = row(s, x, 0, s.len())?;
    if q < s.len() {
        return Err(Reason::BadSheet.at(q));
    }
    Ok(s.len())
}
