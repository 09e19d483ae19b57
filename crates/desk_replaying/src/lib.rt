// The library for callers in C and Rust, its call that runs the day again: a function on numbers and lent bytes, under a name with the prefix `desk_`.
#![tactic(auto)]

ghost use Rattle.desk_replaying.specs.Promises.{FilingReplayed};

use basics::outcomes::refusal_number;
use replaying::running::replay;

// Judges the morning's list and runs a trace of saves on it: 1, 2, 3, or 0, and how many saves were accepted and refused, and which one stopped the run.
#[unsafe(no_mangle)]
pub extern "C" fn desk_replay(
    file: &mut [u8],
    sheet: &mut [u8],
    trace: &[u8],
    accepted: &mut usize,
    refused: &mut usize,
    stopped: &mut usize,
) -> u8
    ensures { FilingReplayed file.old sheet.old trace.now result accepted.new refused.new stopped.new file.new sheet.new }
{
    let replayed = replay(file, sheet, trace);
    *accepted = replayed.accepted;
    *refused = replayed.refused;
    *stopped = replayed.stopped;
    refusal_number(replayed.outcome)
}
