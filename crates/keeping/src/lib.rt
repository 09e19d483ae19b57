// Text kept as its bytes: an array of the width of its columns, and spaces where there are more or fewer.
#![tactic(auto)]

ghost use Rattle.std.specs.Prelude.{◌≡◌};
ghost use Rattle.columns.specs.Texts.{text_in};

// The text of N columns.
pub fn text<const N: usize>(s: &[u8]) -> [u8; N]
    ensures { result ≡ text_in N s.now }
{
    <[u8; N]>::try_from(s).unwrap_or([b' '; N])
}
