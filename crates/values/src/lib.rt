// The integers of a record, as values.
// Kept: an accessor for each field by its name, as the rules ask and docs/FIELDS.md lists them; what they share is one function.
#![tactic(auto)]

ghost use Rattle.std.specs.Prelude.{◌≡◌, T};
ghost use Rattle.terms.specs.declared.Field.TheVariants.{SealType, ListKind, Width, Height};
ghost use Rattle.records.specs.Handing.{layout_of, is_one_of, integer_names, value_answer, told_number};

use records::Record;
use terms::{Field, Refusal};

// An integer of a record.
fn number(s: &[u8], x: Record, f: Field) -> Result<Option<i64>, Refusal>
    requires { T (is_one_of integer_names f) }
    ensures { told_number result ≡ value_answer (layout_of x) f s.now }
{
    let found = fields::find(s, x, f, 0)?;
    let Some(p) = found else {
        return Ok(None);
    };
    let content = fields::cut(s, Ok(Some(p)));
    Ok(numbers::read(content, 0, content.len()))
}

// The seal's type.
pub fn seal_type(s: &[u8], x: Record) -> Result<Option<i64>, Refusal>
    ensures { told_number result ≡ value_answer (layout_of x) SealType s.now }
{
    number(s, x, Field::SealType)
}

// The kind of the certificate list: 1 or 2.
pub fn list_kind(s: &[u8], x: Record) -> Result<Option<i64>, Refusal>
    ensures { told_number result ≡ value_answer (layout_of x) ListKind s.now }
{
    number(s, x, Field::ListKind)
}

// The picture's width in mm.
pub fn width(s: &[u8], x: Record) -> Result<Option<i64>, Refusal>
    ensures { told_number result ≡ value_answer (layout_of x) Width s.now }
{
    number(s, x, Field::Width)
}

// The picture's height in mm.
pub fn height(s: &[u8], x: Record) -> Result<Option<i64>, Refusal>
    ensures { told_number result ≡ value_answer (layout_of x) Height s.now }
{
    number(s, x, Field::Height)
}
