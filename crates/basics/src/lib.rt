// What stations, headers and sheets share: the place of a field, and how a call ends.
#![tactic(auto)]

pub mod outcomes;
pub mod places;
pub mod rules;

// A field's first column, counted from 1, and its length.
#[derive(Clone, Copy)]
pub struct Place {
    pub first: usize,
    pub length: usize,
}

// Why a call is refused: the lowest reason that applies to it.
#[derive(Clone, Copy)]
pub enum Refusal {
    FileTooLong,
    FileNotRecords,
    SheetLength,
    SheetTrailer,
    NoSuchRecord,
    RecordLength,
    BufferLength,
    NoSuchField,
    NotALine,
    FieldTooLong,
    BufferTooShort,
    NotTwelveDigits,
    LastDigitWrong,
    NotMobileDefaults,
    TooFewRows,
    RuleBroken(u8),
}
