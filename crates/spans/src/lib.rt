// The flaw of a field of numbers by its entry in a table: one function for each kind, over any lowest and highest.
#![tactic(auto)]

ghost use Rattle.std.specs.Prelude.{◌≡◌, true};
ghost use Rattle.formats.specs.Formats.{may_sign};
ghost use Rattle.spans.specs.Spans.{from_to, span};
ghost use Rattle.spans.specs.Numbers.{was_read, said_tenths, said_height, decimal_entry, height_entry, whole_entry};

use distances::{Metres, read_height};
use flaws::Flaw;
use formats::{Format, Tenths};
use number_flaws::{height_flaw, range_flaw, tenths_flaw, whole_flaw};
use numeral_writing::{is_negative, magnitude};
use numerals::amount_in;
use tenths::read_tenths;

// A number from the lowest to the highest.
fn is_from_to(low: usize, high: usize, n: u64) -> bool
    ensures { result ≡ from_to low high n }
{
    if n < low as u64 {
        return false;
    }
    n <= high as u64
}

// A number in its span: with a sign the lowest is so far below zero.
fn in_span(sign: bool, low: usize, high: usize, v: i64) -> bool
    ensures { result ≡ span sign low high v }
{
    let n = magnitude(v);
    if !sign {
        return is_from_to(low, high, n);
    }
    if is_negative(v) {
        return n <= low as u64;
    }
    n <= high as u64
}

// Whether a field that has this flaw was read, in its range or not.
fn was_read(flaw: Flaw) -> bool
    ensures { result ≡ was_read flaw }
{
    match flaw {
        Flaw::None => true,
        Flaw::Byte => false,
        Flaw::Range => true,
        Flaw::Shape => false,
        Flaw::Between => true,
    }
}

// The flaw of a decimal that was read.
fn said_tenths(sign: bool, low: usize, high: usize, v: Tenths) -> Flaw
    ensures { result ≡ said_tenths (span sign low high) v }
{
    match v {
        None => Flaw::None,
        Some(z) => range_flaw(in_span(sign, low, high, z)),
    }
}

// The flaw of a height that was read.
fn said_height(low: usize, high: usize, v: Option<Metres>) -> Flaw
    ensures { result ≡ said_height (span true low high) v }
{
    match v {
        None => Flaw::None,
        Some(m) => range_flaw(in_span(true, low, high, m.0)),
    }
}

// A decimal of any format.
pub fn decimal_entry(format: Format, sign: bool, low: usize, high: usize, s: &[u8]) -> Flaw
    requires { sign ≡ may_sign format }
    ensures { result ≡ decimal_entry format low high s.now }
{
    let flaw = tenths_flaw(format, s);
    if !was_read(flaw) {
        return flaw;
    }
    said_tenths(sign, low, high, read_tenths(format, s))
}

// A whole number with a sign.
pub fn height_entry(low: usize, high: usize, s: &[u8]) -> Flaw
    ensures { result ≡ height_entry low high s.now }
{
    let flaw = height_flaw(s);
    if !was_read(flaw) {
        return flaw;
    }
    said_height(low, high, read_height(s))
}

// A whole number that has to be there.
pub fn whole_entry(low: usize, high: usize, s: &[u8]) -> Flaw
    ensures { result ≡ whole_entry low high s.now }
{
    let flaw = whole_flaw(s);
    if !was_read(flaw) {
        return flaw;
    }
    range_flaw(is_from_to(low, high, amount_in(s)))
}
