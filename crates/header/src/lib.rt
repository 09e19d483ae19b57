// A header as typed values.
#![tactic(auto)]

use days::dates::Date;

pub mod typed;

// The header of a file, field by field; the fax is judged in its record and not kept.
#[derive(Clone, Copy)]
pub struct Header {
    pub number: u64,
    pub content: [u8; 80],
    pub letter: u8,
    pub origin: [u8; 3],
    pub mail: [u8; 40],
    pub telephone: [u8; 20],
    pub person: [u8; 20],
    pub count: u64,
    pub date: Option<Date>,
    pub destination: [u8; 3],
    pub serial: Option<u64>,
    pub version: [u8; 3],
    pub reserve: [u8; 7],
}
