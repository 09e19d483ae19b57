// The digits of a vehicle number, and the sum that its last digit rounds up.
ghost use Rattle.std.specs.Prelude.{◌≡◌, true, ◌-◌, ◌<◌, length};
ghost use Rattle.vehicles.specs.Digits.{number_digits, weighed, digit_sum, digits_of, is_number, last_right};
ghost use Rattle.vehicles.specs.Promises.{NumberChecked};

use basics::Refusal;
use columns::sets::Set;
use columns::texts::all_in;

// How many digits a vehicle number has.
const NUMBER_DIGITS: usize = 12;

// The digit that a byte is.
fn digit(c: u8) -> usize
    ensures { (result ≡ c - 48) × (result < 256) }
{
    usize::from(c.saturating_sub(b'0'))
}

// The digits of twice a digit, added up.
fn doubled(d: usize) -> usize
    requires { d < 256 }
    ensures { (result ≡ weighed true d) × (result < 256) }
{
    let twice = 2 * d;
    twice / 10 + twice % 10
}

// Twelve digits.
pub fn is_number(number: &[u8]) -> bool
    ensures { result ≡ is_number number.now }
{
    if number.len() != NUMBER_DIGITS {
        return false;
    }
    all_in(Set::Digit, number)
}

// The sum over twelve digits, two by two: the first of each two is doubled.
fn digit_sum(number: &[u8]) -> usize
    requires { length number.now ≡ number_digits }
    ensures { result ≡ digit_sum (digits_of number.now) }
{
    let mut sum = 0;
    for pair in number.chunks_exact(2) {
        let first = doubled(digit(pair[0]));
        let second = digit(pair[1]);
        sum += first + second;
    }
    sum
}

// The last of twelve digits brings the sum over the others to a multiple of ten.
pub fn is_last_right(number: &[u8]) -> bool
    requires { length number.now ≡ number_digits }
    ensures { result ≡ last_right number.now }
{
    digit_sum(number) % 10 == 0
}

// Whether a text is a vehicle number: 14, 15, or done.
pub fn check_number(number: &[u8]) -> Result<(), Refusal>
    ensures { NumberChecked number.now result }
{
    if !is_number(number) {
        return Err(Refusal::NotTwelveDigits);
    }
    if !is_last_right(number) {
        return Err(Refusal::LastDigitWrong);
    }
    Ok(())
}
