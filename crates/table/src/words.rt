// The words of the page: names of fields, units, kinds and facts.
use wording::field_text;

// What the kinds are.
const KINDS: [&str; 20] = [
    "remarks, as 13Z has them",
    "decimal, up to 5 digits, a point, up to 5 digits",
    "decimal with one digit behind the point",
    "signed decimal with one digit behind the point",
    "signed whole number",
    "date: day, month, year",
    "k, M or G",
    "whole number",
    "one byte",
    "one byte",
    "FB, FL or ML",
    "CO, CP, CR, CV or OT",
    "two letters, never J; the second may be a space",
    "four digits, an underscore, 15 bytes of a name",
    "one to three letters, then spaces",
    "longitude and latitude, as 4C has them",
    "designation of an emission, as 7A has it",
    "H, V, SR, SL, CR, CL, D or M",
    "three digits, two letters, two digits",
    "AUT, 4 digits, 5 of the narrow set, 3 digits",
];

// The facts: first that it does not stand, then that it does.
const FACTS: [[&str; 2]; 6] = [
    ["is blank", "is filled"],
    ["does not begin with M", "begins with M"],
    ["is not FL", "is FL"],
    ["is not 0", "is 0"],
    ["is not 000ND00", "is 000ND00"],
    ["does not end in _R", "ends in _R"],
];

// Prints a word.
fn print_word(word: &str) {
    io::write_all(1, word.as_bytes());
}

// Prints the name of field number k.
pub fn print_name(k: usize) {
    print_word(field_text(k));
}

// The unit of the numbers of field number k.
fn unit(k: usize) -> &'static str {
    match k {
        12 => "km",
        13 | 21 => "m",
        15 => "dBW",
        17 | 18 => "degrees",
        20 => "dB",
        _ => "",
    }
}

// Prints the unit of field number k.
pub fn print_unit(k: usize) {
    print_word(unit(k));
}

// Prints what a kind is.
pub fn print_kind(kind: usize) {
    if let Some(words) = KINDS.get(kind) {
        print_word(words);
    }
}

// Prints a fact that stands, or does not.
pub fn print_fact(fact: usize, want: usize) {
    if let Some(words) = FACTS.get(fact) {
        print_word(if want == 1 { words[1] } else { words[0] });
    }
}
