// What is refused of a carriage's line and of its defaults, before a record is made of them.
#![tactic(auto)]

ghost use Rattle.std.specs.Prelude.{◌≡◌, length};
ghost use Rattle.basics.specs.Outcomes.{first_refusal};
ghost use Rattle.carriage_lines.specs.Lines.{is_mobile};
ghost use Rattle.carriage_lines.specs.Calls.{given_tests};

use basics::Refusal;
use carriage_lines::{field_after, fields_fit};
use columns::texts::equal;
use judging::check_station;
use splitting::lines::is_marked;
use vehicles::digits::check_number;

// A record that breaks no rule, with the class ML.
fn is_mobile(rec: &[u8]) -> bool
    requires { length rec.now ≡ 219 }
    ensures { result ≡ is_mobile rec.now }
{
    if check_station(rec).is_err() {
        return false;
    }
    equal(b"ML", &rec[13..15])
}

// What is refused before a record is made: 6 and 16 by the defaults, 10, 11, 14 and 15 by the line.
pub fn check_given(line: &[u8], defaults: &[u8]) -> Result<(), Refusal>
    ensures { result ≡ first_refusal (given_tests line.now defaults.now) }
{
    if defaults.len() != 219 {
        return Err(Refusal::RecordLength);
    }
    if !is_marked(line, 4) {
        return Err(Refusal::NotALine);
    }
    if !fields_fit(line) {
        return Err(Refusal::FieldTooLong);
    }
    check_number(field_after(line, 0))?;
    if !is_mobile(defaults) {
        return Err(Refusal::NotMobileDefaults);
    }
    Ok(())
}
