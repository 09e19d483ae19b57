// Running a trace: the list is judged, and then each save is a replacement.
ghost use Rattle.std.specs.Prelude.{◌≡◌, cond, true, ◌≤◌, length};
ghost use Rattle.basics.proofs.RefusalLaws.{done};
ghost use Rattle.forms.specs.Counting.{count};
ghost use Rattle.sheet.specs.Sheets.{sheet_of};
ghost use Rattle.sheet.specs.Calls.{judge_outcome};
ghost use Rattle.replacing.specs.Calls.{replace_outcome, replaced_file, replaced_sheet};
ghost use Rattle.traces.specs.Traces.{save_length, saved_number, saved_record, stops_at, ran_of};
ghost use Rattle.trace_runs.specs.Replaying.{accepted, above_all, day_after};
ghost use Rattle.replaying.specs.Promises.{TraceReplayed};

use basics::Refusal;
use numerals::amount_in;
use replacing::records::replace;
use sheet_judging::judge;
use traces::{SAVE_LENGTH, SAVED_DIGITS, can_run, save_from};

// How running a trace ended: the saves that were accepted and refused, and the save that it stopped at, counted from 1, or 0.
#[derive(Clone, Copy)]
pub struct Replayed {
    pub outcome: Result<(), Refusal>,
    pub accepted: usize,
    pub refused: usize,
    pub stopped: usize,
}

// Runs one save as a replacement, and answers 1 where it was accepted, else 0.
fn run_save(file: &mut [u8], sheet: &mut [u8], save: &[u8]) -> usize
    requires { length save.now ≡ save_length }
    ensures upper_bound { result ≤ 1 }
    ensures value { result ≡ cond (done (replace_outcome file.old sheet.old (saved_number save.now) (saved_record save.now))) 1 0 }
    ensures file_after { file.new ≡ replaced_file file.old sheet.old (saved_number save.now) (saved_record save.now) }
    ensures sheet_after { sheet.new ≡ replaced_sheet file.old sheet.old (saved_number save.now) (saved_record save.now) }
{
    let number = amount_in(&save[..SAVED_DIGITS]);
    let replaced = replace(file, sheet, number as usize, &save[SAVED_DIGITS..]);
    if replaced.is_ok() {
        return 1;
    }
    0
}

// Runs the saves of a trace one after the other, up to the first that cannot run.
fn run_saves(file: &mut [u8], sheet: &mut [u8], trace: &[u8]) -> Replayed
    requires { (sheet.old ≡ sheet_of file.old) × (done (judge_outcome file.old sheet.old) ≡ true) }
    ensures outcome_value { result.outcome ≡ judge_outcome file.old sheet.old }
    ensures accepted_value { result.accepted ≡ count (accepted file.old trace.now) (ran_of trace.now) }
    ensures refused_value { result.refused ≡ count (above_all file.old trace.now) (ran_of trace.now) }
    ensures stopped_value { result.stopped ≡ stops_at trace.now }
    ensures file_after { file.new ≡ (day_after file.old trace.now).0 }
    ensures sheet_after { sheet.new ≡ (day_after file.old trace.now).1 }
{
    let saves = trace.len().div_ceil(SAVE_LENGTH);
    let mut taken = 0;
    for ran in 0..saves {
        let save = save_from(trace, SAVE_LENGTH * ran);
        if !can_run(save) {
            return Replayed {
                outcome: Ok(()),
                accepted: taken,
                refused: ran - taken,
                stopped: ran + 1,
            };
        }
        taken += run_save(file, sheet, save);
    }
    Replayed {
        outcome: Ok(()),
        accepted: taken,
        refused: saves - taken,
        stopped: 0,
    }
}

// Judges the morning's list and runs a trace of saves on it; a refusal leaves every byte as it was.
pub fn replay(file: &mut [u8], sheet: &mut [u8], trace: &[u8]) -> Replayed
    ensures { TraceReplayed file.old sheet.old trace.now result file.new sheet.new }
{
    let outcome = judge(file, sheet);
    if outcome.is_err() {
        return Replayed {
            outcome,
            accepted: 0,
            refused: 0,
            stopped: 0,
        };
    }
    run_saves(file, sheet, trace)
}
