// Lists: the stations of a file, each as its line.
#![tactic(auto)]

ghost use Rattle.std.specs.Prelude.{◌+◌, ◌*◌, ◌≤◌, length};
ghost use Rattle.files.specs.Files.{most_stations};
ghost use Rattle.forms.specs.Counting.{rows};
ghost use Rattle.listing.specs.Lists.{entry_of};
ghost use Rattle.printing.specs.Promises.{Appended};
ghost use Rattle.listing.specs.Promises.{ListWritten};

use basics::outcomes::{code_with, ended, refusal_number};
use files::lengths::{check_file, record_in, stations_in};
use lines_out::record_to_line;
use printing::lines::{put_broken, put_refused};

// Puts in the line of station i + 1, or its number and code where it breaks a rule, and answers where it ends.
fn put_entry(out: &mut [u8], start: usize, file: &[u8], i: usize) -> usize
    requires start_in_bounds { start + 249 ≤ length out.old }
    requires i_bound { (i + 1 ≤ most_stations) × (219 * (i + 1) + 219 ≤ length file.now) }
    ensures appended { Appended out.old start (entry_of file.now (i + 1)) out.new result }
    ensures upper_bound { result ≤ start + 249 }
{
    let k = i + 1;
    let written = record_to_line(record_in(file, k), &mut out[start..]);
    let code = code_with(ended(written));
    if code > 0 {
        return put_broken(out, start, k as u16, code);
    }
    start + written.unwrap_or(0)
}

// Puts in what the list has for each of n stations, and answers where it ends.
fn put_entries(out: &mut [u8], file: &[u8], n: usize) -> usize
    requires { (n ≤ most_stations) × (219 * n + 219 ≤ length file.now) × (249 * n ≤ length out.old) }
    ensures { Appended out.old 0 (rows (entry_of file.now) n) out.new result }
{
    let mut end = 0;
    for i in 0..n {
        end = put_entry(out, end, file, i);
    }
    end
}

// Writes the list of a file into the lent bytes, and answers its length; the bytes behind it are kept.
pub fn write_list(file: &[u8], out: &mut [u8; 74202]) -> usize
    ensures { ListWritten file.now out.old result out.new }
{
    let outcome = check_file(file);
    if outcome.is_err() {
        return put_refused(out, 0, refusal_number(outcome));
    }
    put_entries(out, file, stations_in(file))
}
