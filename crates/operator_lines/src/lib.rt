// The lines of the operators, each put into the lent bytes behind what stands there already.
#![tactic(auto)]

ghost use Rattle.std.specs.Prelude.{◌≡◌, ◌++◌, ◌+◌, ◌≤◌, length};
ghost use Rattle.printing.specs.Promises.{Appended};
ghost use Rattle.operator_numbers.specs.Frequencies.{in_digits};
ghost use Rattle.operator_lines.specs.Lines.{counts_text, operator_line, operators_line};

use operator_numbers::{put_digits_of, put_extreme};
use operator_pages::OperatorRow;
use printing::pieces::put_text;

// Puts in a number and the words before it, and answers where it ends.
fn put_counted(out: &mut [u8], start: usize, label: &[u8], v: u64) -> usize
    requires { start + (length label.now + 20) ≤ length out.old }
    ensures appended { Appended out.old start (label.now ++ in_digits v) out.new result }
    ensures upper_bound { result ≤ start + (length label.now + 20) }
{
    let end = put_text(out, start, label);
    put_digits_of(out, end, v)
}

// Puts in an operator's code, how many stations it has and how many of them transmit, and answers where that ends.
fn put_counts(out: &mut [u8], start: usize, code: &[u8], stations: u16, transmitting: u16) -> usize
    requires { (length code.now ≡ 2) × (start + 71 ≤ length out.old) }
    ensures appended { Appended out.old start (counts_text code.now stations transmitting) out.new result }
    ensures upper_bound { result ≤ start + 71 }
{
    let label_end = put_text(out, start, b"operator ");
    let code_end = put_text(out, label_end, code);
    let stations_end = put_counted(out, code_end, b" stations ", stations as u64);
    put_counted(out, stations_end, b" transmit ", transmitting as u64)
}

// Puts in the line of an operator, and answers where it ends.
pub fn put_operator(out: &mut [u8], start: usize, row: OperatorRow) -> usize
    requires { start + 197 ≤ length out.old }
    ensures appended { Appended out.old start (operator_line row) out.new result }
    ensures upper_bound { result ≤ start + 197 }
{
    let code = row.code;
    let tally = row.tally;
    let lowest = tally.lowest;
    let highest = tally.highest;
    let counts_end = put_counts(out, start, &code, tally.stations, tally.transmitting);
    let lowest_end = put_extreme(out, counts_end, b" lowest ", lowest);
    let highest_end = put_extreme(out, lowest_end, b" highest ", highest);
    put_text(out, highest_end, b"\n")
}

// Puts in `operators N stations S of T`, and answers where it ends.
pub fn put_operators_total(
    out: &mut [u8],
    start: usize,
    n: usize,
    counted: u64,
    all: usize,
) -> usize
    requires { start + 85 ≤ length out.old }
    ensures { Appended out.old start (operators_line n counted all) out.new result }
{
    let end = put_counted(out, start, b"operators ", n as u64);
    let counted_end = put_counted(out, end, b" stations ", counted);
    let all_end = put_counted(out, counted_end, b" of ", all as u64);
    put_text(out, all_end, b"\n")
}
