// A semicolon list comes in on standard input; the record of each line that is accepted goes to standard output, and a line
// that is refused is named on standard error, with what the library tells of it.
#![tactic(auto)]

mod telling;

ghost use Rattle.std.specs.Prelude.{◌≤◌, length};
ghost use Rattle.gathering.specs.Cutting.{open_line, after_part};
ghost use Rattle.gathering.specs.Gathering.{Follows};
ghost use Rattle.gathering.specs.Promises.{Begun};

use crate::telling::tell_reason;
use basics::outcomes::{code_with, refusal_number};
use files::lengths::MOST_STATIONS;
use gathered_records::file_gathered;
use gathering::Gathered;
use gathering::lines::nothing;
use line_ends::line_end;
use line_gathering::gather;
use std::io::Read;
use std::ops::ControlFlow;

// How far the list is read: what is kept of the line that is gathered, how many lines have ended, and how many of them were
// written as records and refused.
#[derive(Clone, Copy)]
struct Progress {
    gathered: Gathered,
    lines: u64,
    records: u64,
    refused: u64,
}

// One more, as far as numbers go.
fn next(n: u64) -> u64 {
    n.saturating_add(1)
}

// Names a line that is refused, with the code that comes with refusal 9.
fn name(line: u64, refusal: u8, code: u8) {
    io::write_all(2, b"line ");
    io::print_decimal(2, line);
    io::write_all(2, b" refused ");
    io::print_decimal(2, refusal as u64);
    if refusal == 9 {
        io::write_all(2, b" code ");
        io::print_decimal(2, code as u64);
    }
}

// A line is refused, and the next one begins.
fn refuse(line: &[u8; 250], progress: Progress, refusal: u8, code: u8) -> Progress
    ensures { Begun result.gathered }
{
    let lines = next(progress.lines);
    let gathered = progress.gathered;
    name(lines, refusal, code);
    tell_reason(line, gathered, refusal);
    io::write_all(2, b"\n");
    Progress {
        gathered: nothing(),
        lines,
        refused: next(progress.refused),
        ..progress
    }
}

// Names a line that is lost: it cannot be read, or its record cannot be written, as on a disk that is full.
fn name_lost(line: u64, how: &[u8]) {
    io::write_all(2, b"line ");
    io::print_decimal(2, line);
    io::write_all(2, how);
}

// A line is written as its record, and counts as refused where that fails; the next one begins.
fn write(progress: Progress, record: &[u8]) -> Progress
    ensures { Begun result.gathered }
{
    let lines = next(progress.lines);
    if io::write_all(1, record) {
        return Progress {
            gathered: nothing(),
            lines,
            records: next(progress.records),
            ..progress
        };
    }
    name_lost(lines, b" not written\n");
    Progress {
        gathered: nothing(),
        lines,
        refused: next(progress.refused),
        ..progress
    }
}

// The end of a line: it is written or refused. A filing has room for so many records.
fn end_line(line: &[u8; 250], progress: Progress) -> Progress
    ensures { Begun result.gathered }
{
    let mut record = [b' '; 219];
    let gathered = progress.gathered;
    let outcome = file_gathered(line, gathered, &mut record);
    if outcome.is_err() {
        return refuse(line, progress, refusal_number(outcome), code_with(outcome));
    }
    if MOST_STATIONS as u64 <= progress.records {
        return refuse(line, progress, 1, 0);
    }
    write(progress, &record)
}

// The next part of a line, up to its line feed or the end of what was read: with its line feed the line ends.
fn take_part(line: &mut [u8; 250], progress: Progress, part: &[u8]) -> Progress
    ensures { 1 ≤ length part.now → Follows line.old progress.gathered line.new result.gathered (λ p. after_part p part.now) }
{
    let kept = progress.gathered;
    let gathered = gather(line, kept, part);
    let further = Progress {
        gathered,
        ..progress
    };
    if gathered.last == 10 {
        return end_line(line, further);
    }
    further
}

// Takes in a piece, line by line; what is held then is the line that it leaves open.
fn take_piece(line: &mut [u8; 250], progress: Progress, piece: &[u8]) -> Progress
    ensures { Follows line.old progress.gathered line.new result.gathered (λ p. open_line p piece.now) }
{
    let mut further = progress;
    // A turn takes a line of any length, so that no index is counted; a range is no plainer.
    let mut at: usize = 0;
    while at < piece.len() {
        let rest = &piece[at..];
        let end = line_end(rest);
        further = take_part(line, further, &rest[..end]);
        at += end;
    }
    further
}

// Reading fails: the line that it would go on counts as refused, and no more may come.
fn break_off(progress: Progress) -> Progress {
    let lines = next(progress.lines);
    name_lost(lines, b" not read\n");
    Progress {
        gathered: nothing(),
        lines,
        refused: next(progress.refused),
        ..progress
    }
}

// Reads the next piece and takes it in, where more may come.
fn read_piece<R: Read>(
    input: &mut R,
    line: &mut [u8; 250],
    progress: Progress,
) -> ControlFlow<Progress, Progress> {
    let mut space = io::buffer();
    match input.read(&mut space) {
        Ok(0) => ControlFlow::Break(progress),
        Ok(n) => ControlFlow::Continue(take_piece(line, progress, &space[..n])),
        Err(_) => ControlFlow::Break(break_off(progress)),
    }
}

// Reads all pieces. Nothing says that the input ends, so the turns are as many as no run uses up.
fn read_all<R: Read>(input: &mut R, line: &mut [u8; 250], progress: Progress) -> Progress {
    let mut further = progress;
    for _ in 0..u64::MAX {
        match read_piece(input, line, further) {
            ControlFlow::Continue(more) => further = more,
            ControlFlow::Break(read) => return read,
        }
    }
    further
}

// What stands behind the last line feed is a line too, where anything does.
fn end_list(line: &[u8; 250], progress: Progress) -> Progress {
    if progress.gathered.held == 0 {
        return progress;
    }
    end_line(line, progress)
}

// Reads the list to its end, and says how many records were written and how many lines refused.
fn main(rt: HostRuntime) {
    let mut line = [0u8; 250];
    let start = Progress {
        gathered: nothing(),
        lines: 0,
        records: 0,
        refused: 0,
    };
    let read = read_all(&mut rt.stdin(), &mut line, start);
    let done = end_list(&line, read);
    io::write_all(2, b"records ");
    io::print_decimal(2, done.records);
    io::write_all(2, b" refused ");
    io::print_decimal(2, done.refused);
    io::write_all(2, b"\n");
}
