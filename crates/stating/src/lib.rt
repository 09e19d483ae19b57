// A value as a caller states it: a byte that says whether it is filled, and a number.
#![tactic(auto)]

ghost use Rattle.std.specs.Prelude.{◌≡◌};
ghost use Rattle.stating.specs.Stating.{tenths_stated, height_stated};

use distances::Metres;
use formats::Tenths;

// A number of tenths as a caller states it: blank where `filled` is 0.
pub fn tenths_stated(filled: u8, tenths: i64) -> Tenths
    ensures { result ≡ tenths_stated filled tenths }
{
    if filled == 0 { None } else { Some(tenths) }
}

// A height in metres as a caller states it: blank where `filled` is 0.
pub fn height_stated(filled: u8, metres: i64) -> Option<Metres>
    ensures { result ≡ height_stated filled metres }
{
    if filled == 0 {
        None
    } else {
        Some(Metres(metres))
    }
}
