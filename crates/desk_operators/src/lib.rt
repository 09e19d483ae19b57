// The library for callers in C and Rust, its call on the operators of a file, under a name with the prefix `desk_`.
#![tactic(auto)]

ghost use Rattle.std.specs.Prelude.{◌≡◌, ◌+◌, ◌*◌, ◌≤◌, length};
ghost use Rattle.forms.specs.Forms.{number};
ghost use Rattle.printing.specs.Promises.{Appended};
ghost use Rattle.operator_counts.specs.Counts.{operators};
ghost use Rattle.operator_pages.specs.Pages.{rows_below, tally_in};
ghost use Rattle.desk_operators.specs.Rows.{operator_width, spell_hundredths, spell_head, spell_row};
ghost use Rattle.desk_operators.specs.Promises.{spelled_rows, RowsPut, OperatorsTold};

use basics::Refusal;
use basics::outcomes::refusal_number;
use files::lengths::{check_file, stations_in};
use operator_counts::{OPERATORS, Tally, tallies};
use operator_pages::{OperatorRow, PageAnswer, operator_row, operators_in};
use printing::pieces::put_text;

// The bytes of a row.
const OPERATOR_WIDTH: usize = 22;

// A count's bytes, high byte first.
fn count_bytes(v: u16) -> [u8; 2]
    ensures { result ≡ number 2 v }
{
    [(v / 256) as u8, (v % 256) as u8]
}

// A frequency's eight bytes, high byte first.
fn frequency_bytes(v: u64) -> [u8; 8]
    ensures { result ≡ number 8 v }
{
    let without_one = v / 256;
    let without_two = without_one / 256;
    let without_three = without_two / 256;
    let without_four = without_three / 256;
    let without_five = without_four / 256;
    let without_six = without_five / 256;
    [
        (without_six / 256) as u8,
        (without_six % 256) as u8,
        (without_five % 256) as u8,
        (without_four % 256) as u8,
        (without_three % 256) as u8,
        (without_two % 256) as u8,
        (without_one % 256) as u8,
        (v % 256) as u8,
    ]
}

// The eight bytes of a frequency that there may be: spaces where there is none.
fn hundredths_bytes(a: Option<u64>) -> [u8; 8]
    ensures { result ≡ spell_hundredths a }
{
    match a {
        None => [32; 8],
        Some(v) => frequency_bytes(v),
    }
}

// Puts in an operator's code, how many stations it has and how many of them transmit, and answers where that ends.
fn put_head(out: &mut [u8], start: usize, code: &[u8], stations: u16, transmitting: u16) -> usize
    requires { (length code.now ≡ 2) × (start + 6 ≤ length out.old) }
    ensures appended { Appended out.old start (spell_head code.now stations transmitting) out.new result }
    ensures upper_bound { result ≤ start + 6 }
{
    let first = count_bytes(stations);
    let second = count_bytes(transmitting);
    let code_end = put_text(out, start, code);
    let stations_end = put_text(out, code_end, &first);
    put_text(out, stations_end, &second)
}

// Puts in a row, and answers where it ends.
fn put_row(out: &mut [u8], start: usize, row: OperatorRow) -> usize
    requires { start + operator_width ≤ length out.old }
    ensures appended { Appended out.old start (spell_row row) out.new result }
    ensures upper_bound { result ≤ start + operator_width }
{
    let code = row.code;
    let tally = row.tally;
    let lowest = tally.lowest;
    let highest = tally.highest;
    let low = hundredths_bytes(lowest);
    let high = hundredths_bytes(highest);
    let head_end = put_head(out, start, &code, tally.stations, tally.transmitting);
    let low_end = put_text(out, head_end, &low);
    put_text(out, low_end, &high)
}

// Puts in the rows of the operators that have stations, and answers where they end.
fn put_rows(out: &mut [u8], counts: [Tally; OPERATORS]) -> usize
    requires { operator_width * length (rows_below (tally_in counts) operators) ≤ length out.old }
    ensures { Appended out.old 0 (spelled_rows (rows_below (tally_in counts) operators)) out.new result }
{
    let mut end = 0;
    for c in 0..OPERATORS {
        let tally = counts[c];
        if tally.stations != 0 {
            end = put_row(out, end, operator_row(c, tally));
        }
    }
    end
}

// Puts in the page of a file, straight from what is counted: all of its rows, or none.
fn put_page_bytes(file: &[u8], out: &mut [u8]) -> PageAnswer
    ensures { RowsPut file.now out.old result out.new }
{
    let outcome = check_file(file);
    if outcome.is_err() {
        return PageAnswer { outcome, rows: 0 };
    }
    let counts = tallies(file, stations_in(file));
    let found = operators_in(counts);
    if out.len() / OPERATOR_WIDTH < found {
        return PageAnswer {
            outcome: Err(Refusal::TooFewRows),
            rows: 0,
        };
    }
    put_rows(out, counts);
    PageAnswer {
        outcome: Ok(()),
        rows: found,
    }
}

// Writes the page of a file into the lent bytes, rows of fixed bytes: 1, 2, 17, or 0 and how many rows there are.
#[unsafe(no_mangle)]
pub extern "C" fn desk_operators(file: &[u8], out: &mut [u8], count: &mut usize) -> u8
    ensures { OperatorsTold file.now out.old result out.new count.new }
{
    let answer = put_page_bytes(file, out);
    let outcome = answer.outcome;
    *count = answer.rows;
    refusal_number(outcome)
}
