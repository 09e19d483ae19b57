// How calls end, and the paper's numbers for it: the refusal, and the code that comes with it.
ghost use Rattle.std.specs.Prelude.{◌≡◌, eqb};
ghost use Rattle.basics.specs.Outcomes.{ends, number, code_of, refusal, code_with, judged};

use crate::Refusal;

// Done where the code is 0, else 9 and the code.
pub fn judged(code: u8) -> Result<(), Refusal>
    ensures { result ≡ judged code }
{
    if code == 0 {
        return Ok(());
    }
    Err(Refusal::RuleBroken(code))
}

// The paper's number of a refusal.
impl From<Refusal> for u8 {
    ghost from_gives = { λ refusal n. n ≡ number refusal };

    fn from(refusal: Refusal) -> u8 {
        match refusal {
            Refusal::FileTooLong => 1,
            Refusal::FileNotRecords => 2,
            Refusal::SheetLength => 3,
            Refusal::SheetTrailer => 4,
            Refusal::NoSuchRecord => 5,
            Refusal::RecordLength => 6,
            Refusal::BufferLength => 7,
            Refusal::NoSuchField => 8,
            Refusal::NotALine => 10,
            Refusal::FieldTooLong => 11,
            Refusal::BufferTooShort => 12,
            Refusal::NotTwelveDigits => 14,
            Refusal::LastDigitWrong => 15,
            Refusal::NotMobileDefaults => 16,
            Refusal::TooFewRows => 17,
            Refusal::RuleBroken(_) => 9,
        }
    }
}

// The refusal's number; 0 where the call is done.
pub fn refusal_number(outcome: Result<(), Refusal>) -> u8
    ensures { result ≡ refusal outcome }
{
    match outcome {
        Ok(()) => 0,
        Err(refusal) => u8::from(refusal),
    }
}

// How a call ends, without the value that it answers with where it is done.
pub fn ended<T: Drop>(answer: Result<T, Refusal>) -> Result<(), Refusal>
    ensures { result ≡ ends answer }
{
    match answer {
        Ok(_) => Ok(()),
        Err(refusal) => Err(refusal),
    }
}

// The code that comes with a refusal; with any but 9 it is 0.
fn code_of(refusal: Refusal) -> u8
    ensures { result ≡ code_of refusal }
{
    match refusal {
        Refusal::RuleBroken(code) => code,
        _ => 0,
    }
}

// The code that comes with an outcome; where the call is done it is 0.
pub fn code_with(outcome: Result<(), Refusal>) -> u8
    ensures { result ≡ code_with outcome }
{
    match outcome {
        Ok(_) => 0,
        Err(refusal) => code_of(refusal),
    }
}

// Nothing was refused. In the house it is `is_ok`; callers who know outcomes by their numbers have it by its old name and promise.
pub fn is_done(outcome: Result<(), Refusal>) -> bool
    ensures { result ≡ eqb (refusal outcome) 0 }
{
    outcome.is_ok()
}
