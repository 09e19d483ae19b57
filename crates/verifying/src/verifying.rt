// Verifying: yes, or the offset of the first wrong byte.
ghost use Rattle.verifying.specs.Promises.{SheetVerified};

use crate::comparing::right_in_sheet;
use basics::Refusal;
use files::lengths::stations_in;
use sheet_judging::judge_outcome;

// What is found of a sheet: nothing, since the call is refused; that it is right; or the offset, from 0, of its first wrong byte.
#[derive(Clone, Copy)]
pub enum Finding {
    Refused,
    Right,
    WrongAt(usize),
}

// How verifying ended, and what it found.
#[derive(Clone, Copy)]
pub struct Verified {
    pub outcome: Result<(), Refusal>,
    pub finding: Finding,
}

// Whether the sheet is the one that the file is judged to.
pub fn verify(file: &[u8], sheet: &[u8]) -> Verified
    ensures { SheetVerified file.now sheet.now result }
{
    let outcome = judge_outcome(file, sheet);
    if outcome.is_err() {
        return Verified {
            outcome,
            finding: Finding::Refused,
        };
    }
    let n = stations_in(file);
    let right = right_in_sheet(file, sheet, n);
    if right == sheet.len() {
        return Verified {
            outcome: Ok(()),
            finding: Finding::Right,
        };
    }
    Verified {
        outcome: Ok(()),
        finding: Finding::WrongAt(right),
    }
}
