// The section of a primitive item by positions.
#![tactic(auto)]

ghost use Rattle.std.specs.Prelude.{◌≡◌};
ghost use Rattle.layouts.specs.SheetScan.{leaf_section_at};
ghost use Rattle.primitives.specs.Primitive.{leaf_of};

use heads::Span;
use primitives::Primitive;
use terms::Refusal;

// The section of a primitive item: where its value lies, or 19, then the refusal of the value's own rule.
#[tactic(auto, unfolding(layouts::specs::SheetScan::leaf_section_at))]
pub fn leaf(s: &[u8], p: Primitive, at: usize, end: usize) -> Result<Span, Refusal>
    ensures { result ≡ leaf_section_at (leaf_of p) s.now at end }
{
    let section = counts::section(s, at, end)?;
    let v = section_values::value(s, p, at, section)?;
    answers::judged(leaves::rule(s, p, at, v.start, v.end), v.start, v.end)
}
