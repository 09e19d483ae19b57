// The header's own file number, field 12, which may be left out.
#![tactic(auto)]

ghost use Rattle.std.specs.Prelude.{◌≡◌, length};
ghost use Rattle.serials.specs.Serials.{serial_good, serial_of, serial_fits, spell_serial};

use columns::texts::write_blank;
use numeral_writing::{fits_whole, put_whole};
use numerals::read_whole;

// The rule on its columns: a whole number, or blank.
pub fn is_serial(s: &[u8]) -> bool
    ensures { result ≡ serial_good s.now }
{
    read_whole(s).is_ok()
}

// The file number that is there, blank where there is none.
pub fn serial_in(s: &[u8]) -> Option<u64>
    ensures { result ≡ serial_of s.now }
{
    read_whole(s).unwrap_or(None)
}

// A typed file number has its digits' places, or is blank.
pub fn fits_serial(v: Option<u64>) -> bool
    ensures { result ≡ serial_fits v }
{
    match v {
        None => true,
        Some(n) => fits_whole(6, n),
    }
}

// Writes it into its six columns: a number or blank.
pub fn put_serial(s: &mut [u8], v: Option<u64>)
    requires { length s.old ≡ 6 }
    ensures { s.new ≡ spell_serial v }
{
    match v {
        None => write_blank(s),
        Some(n) => put_whole(s, n),
    }
}
