// The lines of a report and of a list, each put into the lent bytes behind what stands there already.
ghost use Rattle.std.specs.Prelude.{◌+◌, ◌≤◌, length};
ghost use Rattle.printing.specs.Lines.{refused_line, header_line, station_line, total_line, broken_line};
ghost use Rattle.printing.specs.Promises.{Appended};

use crate::pieces::{put_labelled, put_text};

// Puts in `refused R`, and answers where it ends.
pub fn put_refused(out: &mut [u8], start: usize, number: u8) -> usize
    requires { start + 12 ≤ length out.old }
    ensures { Appended out.old start (refused_line number) out.new result }
{
    let end = put_labelled(out, start, b"refused ", number as u16);
    put_text(out, end, b"\n")
}

// Puts in `header C`, and answers where it ends.
pub fn put_header(out: &mut [u8], start: usize, code: u8) -> usize
    requires { start + 11 ≤ length out.old }
    ensures appended { Appended out.old start (header_line code) out.new result }
    ensures upper_bound { result ≤ start + 11 }
{
    let end = put_labelled(out, start, b"header ", code as u16);
    put_text(out, end, b"\n")
}

// Puts in `station K code C twin T clash H`, and answers where it ends.
pub fn put_bad_row(out: &mut [u8], start: usize, k: u16, code: u8, twin: u16, clash: u16) -> usize
    requires { start + 40 ≤ length out.old }
    ensures appended { Appended out.old start (station_line k code twin clash) out.new result }
    ensures upper_bound { result ≤ start + 40 }
{
    let number_end = put_labelled(out, start, b"station ", k);
    let code_end = put_labelled(out, number_end, b" code ", code as u16);
    let twin_end = put_labelled(out, code_end, b" twin ", twin);
    let clash_end = put_labelled(out, twin_end, b" clash ", clash);
    put_text(out, clash_end, b"\n")
}

// Puts in `stations N bad B`, and answers where it ends.
pub fn put_total(out: &mut [u8], start: usize, n: u16, found: u16) -> usize
    requires { start + 21 ≤ length out.old }
    ensures { Appended out.old start (total_line n found) out.new result }
{
    let end = put_labelled(out, start, b"stations ", n);
    let found_end = put_labelled(out, end, b" bad ", found);
    put_text(out, found_end, b"\n")
}

// Puts in `station K code C`, and answers where it ends.
pub fn put_broken(out: &mut [u8], start: usize, k: u16, code: u8) -> usize
    requires { start + 21 ≤ length out.old }
    ensures appended { Appended out.old start (broken_line k code) out.new result }
    ensures upper_bound { result ≤ start + 21 }
{
    let end = put_labelled(out, start, b"station ", k);
    let code_end = put_labelled(out, end, b" code ", code as u16);
    put_text(out, code_end, b"\n")
}
