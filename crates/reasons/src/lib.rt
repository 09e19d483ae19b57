// What is wrong with a record by its code, in words: the field that the code names, its columns, its bytes, and the flaw.
#![tactic(auto)]

ghost use Rattle.std.specs.Prelude.{◌≡◌, ◌++◌, ◌+◌, ◌≤◌, length, take, drop};
ghost use Rattle.columns.specs.Texts.{bytes};
ghost use Rattle.printing.specs.Promises.{Appended};
ghost use Rattle.wording.specs.Words.{flaw_words, name_at};
ghost use Rattle.reasons.specs.Reasons.{columns_text, field_text, reason_text};

use flaws::Flaw;
use places::station_place;
use printing::pieces::{put_labelled, put_text};
use station_flaws::record_flaw;
use wording::{field_text, flaw_text};

// Puts in the name of field number k, and answers where it ends.
fn put_name(out: &mut [u8], start: usize, k: u8) -> usize
    requires { start + 10 ≤ length out.old }
    ensures appended { Appended out.old start (name_at k) out.new result }
    ensures upper_bound { result ≤ start + 10 }
{
    put_text(out, start, field_text(k as usize).as_bytes())
}

// Puts in a field's columns, and answers where it ends.
fn put_columns(out: &mut [u8], start: usize, first: usize, len: usize) -> usize
    requires { (1 ≤ first) × (first + len ≤ 220) × (start + 16 ≤ length out.old) }
    ensures appended { Appended out.old start (columns_text first len) out.new result }
    ensures upper_bound { result ≤ start + 16 }
{
    if len == 1 {
        return put_labelled(out, start, b" column ", first as u16);
    }
    let end = put_labelled(out, start, b" columns ", first as u16);
    let last = first + len - 1;
    put_labelled(out, end, b"-", last as u16)
}

// Puts in some bytes of a record between quotation marks, and answers where they end.
fn put_quoted(out: &mut [u8], start: usize, rec: &[u8], from: usize, len: usize) -> usize
    requires { (from + len ≤ length rec.now) × (length rec.now ≡ 219) × (len ≤ 50) × (start + 53 ≤ length out.old) }
    ensures appended { Appended out.old start (bytes " \"" ++ (take len (drop from rec.now) ++ bytes "\"")) out.new result }
    ensures upper_bound { result ≤ start + 53 }
{
    let to = from + len;
    let quote = put_text(out, start, b" \"");
    let end = put_text(out, quote, &rec[from..to]);
    put_text(out, end, b"\"")
}

// Puts in field number k of a record: its name, its columns and its bytes, and answers where it ends.
fn put_field(out: &mut [u8], start: usize, rec: &[u8], k: u8) -> usize
    requires { (1 ≤ k) × (k ≤ 30) × (length rec.now ≡ 219) × (start + 80 ≤ length out.old) }
    ensures appended { Appended out.old start (field_text rec.now k) out.new result }
    ensures upper_bound { result ≤ start + 80 }
{
    let place = station_place(k as usize);
    let first = place.first;
    let len = place.length;
    let gap = put_text(out, start, b" ");
    let name_end = put_name(out, gap, k);
    let columns_end = put_columns(out, name_end, first, len);
    put_quoted(out, columns_end, rec, first - 1, len)
}

// Puts in a flaw's words, and answers where they end.
fn put_flaw(out: &mut [u8], start: usize, flaw: Flaw) -> usize
    requires { start + 18 ≤ length out.old }
    ensures appended { Appended out.old start (flaw_words flaw) out.new result }
    ensures upper_bound { result ≤ start + 18 }
{
    put_text(out, start, flaw_text(flaw).as_bytes())
}

// Puts in what is wrong with a record by one of its codes, and answers where it ends.
pub fn put_reason(out: &mut [u8], start: usize, rec: &[u8], code: u8) -> usize
    requires { (length rec.now ≡ 219) × (start + 98 ≤ length out.old) }
    ensures appended { Appended out.old start (reason_text rec.now code) out.new result }
    ensures upper_bound { result ≤ start + 98 }
{
    let flaw = record_flaw(rec, code);
    if code == 0 {
        return put_flaw(out, start, flaw);
    }
    if code > 30 {
        return put_flaw(out, start, flaw);
    }
    let end = put_field(out, start, rec, code);
    put_flaw(out, end, flaw)
}
