// The name of a station on a carriage, and the vehicle number in it.
#![tactic(auto)]

ghost use Rattle.std.specs.Prelude.{◌≡◌, length};
ghost use Rattle.vehicles.specs.Digits.{number_digits};
ghost use Rattle.vehicles.specs.Names.{name_of, holds_number};
ghost use Rattle.vehicles.specs.Promises.{NumberFound};

use columns::texts::{equal, write_text};
use vehicles::digits::{is_last_right, is_number};

// Puts the name of the carriage with the given number into twenty lent bytes.
fn put_name(name: &mut [u8], number: &[u8])
    requires { (length name.old ≡ 20) × (length number.now ≡ number_digits) }
    ensures { name.new ≡ name_of number.now }
{
    write_text(&mut name[0..5], b"9999_");
    write_text(&mut name[5..17], number);
    write_text(&mut name[17..20], b"_R ");
}

// The name of the carriage with the given number.
pub fn name_of(number: &[u8]) -> [u8; 20]
    requires { length number.now ≡ number_digits }
    ensures { result ≡ name_of number.now }
{
    let mut name = [b' '; 20];
    put_name(&mut name, number);
    name
}

// The name is that of a carriage, and its number's last digit is right.
fn holds_number(name: &[u8]) -> bool
    ensures { result ≡ holds_number name.now }
{
    if name.len() != 20 {
        return false;
    }
    let number = &name[5..17];
    let own = name_of(number);
    if !equal(&own, name) {
        return false;
    }
    if !is_number(number) {
        return false;
    }
    is_last_right(number)
}

// The piece of a name that is its vehicle number, and an empty one at its front where it holds none.
pub fn number_in(name: &[u8]) -> &[u8]
    ensures { NumberFound name.entry result }
{
    if !holds_number(name) {
        return &name[..0];
    }
    &name[5..17]
}
