// Arcs: one half of the coordinates 4C as it stands in its columns, degrees, a letter, minutes and seconds: its numbers, whether it keeps its rule, and its seconds in all.
#![tactic(auto)]

ghost use Rattle.std.specs.Prelude.{◌≡◌, false, ◌&&◌, ◌||◌, ◌+◌, ◌*◌, ◌^◌, ◌≤◌, ◌<◌, length, get_or, take, drop, leb, eqb};
ghost use Rattle.numerals.specs.Numbers.{whole_of, whole_filled, amount, with_sign};

use columns::texts::byte;
use numerals::{Unread, amount_of, read_whole, says_number};

// One half of 4C as it stands in its columns.
#[derive(Clone, Copy)]
pub struct Arc {
    pub degrees: Result<Option<u64>, Unread>,
    pub letter: u8,
    pub minutes: Result<Option<u64>, Unread>,
    pub seconds: Result<Option<u64>, Unread>,
}

// One half with d columns of degrees.
pub fn arc_in(p: &[u8], d: usize) -> Arc
    requires { d + 5 ≤ length p.now }
    ensures { (result.degrees ≡ whole_of (take d p.now))
        × (result.letter ≡ get_or p.now d 0)
        × (result.minutes ≡ whole_of (take 2 (drop (d + 1) p.now)))
        × (result.seconds ≡ whole_of (take 2 (drop (d + 3) p.now))) }
{
    let degrees = read_whole(&p[0..d]);
    let letter = byte(p, d);
    let minutes = read_whole(&p[d + 1..d + 3]);
    let seconds = read_whole(&p[d + 3..d + 5]);
    Arc {
        degrees,
        letter,
        minutes,
        seconds,
    }
}

// Whether a whole number was read, and is at most the given one.
fn is_up_to(most: u64, w: Result<Option<u64>, Unread>) -> bool
    ensures { result ≡ whole_filled w && leb (amount w) most }
{
    if says_number(w) {
        amount_of(w) <= most
    } else {
        false
    }
}

// The seconds of one half in all.
fn seconds_in(a: Arc) -> u64
    requires { 3600 * amount a.degrees + 60 * amount a.minutes + amount a.seconds < 10 ^ 6 }
    ensures { result ≡ 3600 * amount a.degrees + 60 * amount a.minutes + amount a.seconds }
{
    3600 * amount_of(a.degrees) + 60 * amount_of(a.minutes) + amount_of(a.seconds)
}

// Whether a byte is one of two letters.
pub fn is_hemisphere(plus: u8, minus: u8, c: u8) -> bool
    ensures { result ≡ eqb c plus || (eqb c minus || false) }
{
    (c == plus) | (c == minus)
}

// Whether one half keeps its rule: minutes and seconds at most 59, and no more degrees in all than the given ones.
pub fn is_arc(a: Arc, plus: u8, minus: u8, degrees: u64) -> bool
    requires { degrees ≤ 180 }
    ensures { result ≡ (whole_filled a.degrees && leb (amount a.degrees) degrees)
        && (eqb a.letter plus || (eqb a.letter minus || false))
        && (whole_filled a.minutes && leb (amount a.minutes) 59)
        && (whole_filled a.seconds && leb (amount a.seconds) 59)
        && leb (3600 * amount a.degrees + 60 * amount a.minutes + amount a.seconds) (3600 * degrees) }
{
    if !is_up_to(degrees, a.degrees) {
        return false;
    }
    if !is_hemisphere(plus, minus, a.letter) {
        return false;
    }
    if !is_up_to(59, a.minutes) {
        return false;
    }
    if !is_up_to(59, a.seconds) {
        return false;
    }
    seconds_in(a) <= 3600 * degrees
}

// Whether one half has three whole numbers and one of its two letters, in its range or not.
pub fn reads_arc(a: Arc, plus: u8, minus: u8) -> bool
    ensures { result ≡ whole_filled a.degrees
        && (eqb a.letter plus || (eqb a.letter minus || false))
        && whole_filled a.minutes
        && whole_filled a.seconds }
{
    if !says_number(a.degrees) {
        return false;
    }
    if !is_hemisphere(plus, minus, a.letter) {
        return false;
    }
    if !says_number(a.minutes) {
        return false;
    }
    says_number(a.seconds)
}

// v, or -v.
fn signed_seconds(minus: bool, v: u64) -> i64
    requires { v < 10 ^ 6 }
    ensures { result ≡ with_sign minus v }
{
    let n = v as i64;
    if minus { 0 - n } else { n }
}

// The signed count of seconds of one half that keeps its rule.
pub fn arc_seconds(a: Arc, minus: u8) -> i64
    requires { 3600 * amount a.degrees + 60 * amount a.minutes + amount a.seconds < 10 ^ 6 }
    ensures { result ≡ with_sign (eqb a.letter minus) (3600 * amount a.degrees + 60 * amount a.minutes + amount a.seconds) }
{
    signed_seconds(a.letter == minus, seconds_in(a))
}
