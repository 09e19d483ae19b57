// A trace of saves, 222 bytes each: three digits for the record number, then the record.
#![tactic(auto)]

ghost use Rattle.std.specs.Prelude.{◌≡◌, ◌≤◌, length, take, drop};
ghost use Rattle.traces.specs.Traces.{save_length, can_run};

use columns::sets::Set;
use columns::texts::all_in;

// How many digits a save begins with, and how many bytes it has.
pub const SAVED_DIGITS: usize = 3;

pub const SAVE_LENGTH: usize = 222;

// The save that begins at an offset, or what is there of it where the trace ends inside it.
pub fn save_from(trace: &[u8], at: usize) -> &[u8]
    requires { at ≤ length trace.now }
    ensures { result.now ≡ take save_length (drop at trace.now) }
{
    let rest = &trace[at..];
    if rest.len() < SAVE_LENGTH {
        return rest;
    }
    &rest[..SAVE_LENGTH]
}

// Whether a save runs: it is not cut short, and its first three bytes are digits.
pub fn can_run(save: &[u8]) -> bool
    ensures { result ≡ can_run save.now }
{
    if save.len() != SAVE_LENGTH {
        return false;
    }
    all_in(Set::Digit, &save[..SAVED_DIGITS])
}
