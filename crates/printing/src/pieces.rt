// Pieces of a line, each put into the lent bytes behind what stands there already.
ghost use Rattle.std.specs.Prelude.{◌≡◌, ◌++◌, ◌+◌, ◌≤◌, length};
ghost use Rattle.printing.specs.Lines.{decimal};
ghost use Rattle.printing.specs.Lines.{places as Lines·places};
ghost use Rattle.printing.specs.Promises.{Appended};

use numeral_writing::put_whole;

// Puts in a text, and answers where it ends.
pub fn put_text(out: &mut [u8], start: usize, text: &[u8]) -> usize
    requires { start + length text.now ≤ length out.old }
    ensures { Appended out.old start text.now out.new result }
{
    let end = start + text.len();
    out[start..end].copy_from_slice(text);
    end
}

// How many digits a number has.
fn places(v: u16) -> usize
    ensures value { result ≡ Lines·places v }
    ensures upper_bound { result ≤ 3 }
{
    if v < 10 {
        return 1;
    }
    if v < 100 {
        return 2;
    }
    3
}

// Puts in a number in plain decimal, and answers where it ends.
fn put_number(out: &mut [u8], start: usize, v: u16) -> usize
    requires { start + 3 ≤ length out.old }
    ensures appended { Appended out.old start (decimal v) out.new result }
    ensures upper_bound { result ≤ start + 3 }
{
    let end = start + places(v);
    put_whole(&mut out[start..end], v as u64);
    end
}

// Puts in a number and the words before it, and answers where it ends.
pub fn put_labelled(out: &mut [u8], start: usize, label: &[u8], v: u16) -> usize
    requires { start + (length label.now + 3) ≤ length out.old }
    ensures appended { Appended out.old start (label.now ++ decimal v) out.new result }
    ensures upper_bound { result ≤ start + (length label.now + 3) }
{
    let end = put_text(out, start, label);
    put_number(out, end, v)
}
