// Fields on their way out.
ghost use Rattle.std.specs.Prelude.{◌≡◌};
ghost use Rattle.columns.specs.Texts.{skip, trimmed};

use columns::texts::{spaces, trimmed_length};

// The part of a field without its leading and trailing spaces.
pub(crate) fn trimmed_part(field: &[u8]) -> &[u8]
    ensures { result.now ≡ trimmed (skip field.now) }
{
    let first = spaces(field);
    let rest = &field[first..];
    let n = trimmed_length(rest);
    &rest[..n]
}
