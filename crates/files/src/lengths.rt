// A file's length, and the records in it.
ghost use Rattle.std.specs.Prelude.{◌≡◌, ◌+◌, ◌*◌, length};
ghost use Rattle.files.specs.Files.{HasRecord, record_at};
ghost use Rattle.files.specs.Promises.{FileChecked, StationsCounted, RecordFound};

use basics::Refusal;

// The bytes of a record, the most stations of a file, and the most bytes.
pub const RECORD_LENGTH: usize = 219;

pub const MOST_STATIONS: usize = 298;

pub const MOST_BYTES: usize = RECORD_LENGTH * (MOST_STATIONS + 1);

// Whether a file has a length that calls take: 1, 2, or done.
pub fn check_file(file: &[u8]) -> Result<(), Refusal>
    ensures { FileChecked file.now result }
{
    if file.len() > MOST_BYTES {
        return Err(Refusal::FileTooLong);
    }
    if file.len() == 0 {
        return Err(Refusal::FileNotRecords);
    }
    if file.len() % RECORD_LENGTH != 0 {
        return Err(Refusal::FileNotRecords);
    }
    Ok(())
}

// How many stations stand after the header.
pub fn stations_in(file: &[u8]) -> usize
    ensures { StationsCounted file.now result }
{
    let records = file.len() / RECORD_LENGTH;
    if records == 0 {
        return 0;
    }
    records - 1
}

// Record number k, as a part of the file itself: what the file has of it, and nothing past its end.
pub fn record_in(file: &[u8], k: usize) -> &[u8]
    ensures { RecordFound file.entry k result }
{
    let records = file.len() / RECORD_LENGTH;
    if k > records {
        return &file[file.len()..];
    }
    let start = RECORD_LENGTH * k;
    if k == records {
        return &file[start..];
    }
    let end = start + RECORD_LENGTH;
    &file[start..end]
}

// Record number k where it is wholly there, as a part of the file itself.
pub fn whole_record(file: &[u8], k: usize) -> &[u8]
    requires { HasRecord file.now k }
    ensures { result.now ≡ record_at file.now k }
{
    let first = RECORD_LENGTH * k;
    let end = first + RECORD_LENGTH;
    &file[first..end]
}
