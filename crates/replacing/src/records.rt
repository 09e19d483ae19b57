// Replacing a record, and mending the sheet.
ghost use Rattle.std.specs.Prelude.{◌≡◌, ◌+◌, ◌*◌, ◌≤◌, length};
ghost use Rattle.files.specs.Files.{HasRecord, with_record};
ghost use Rattle.mending.specs.Replacing.{mended_sheet, rows_written};
ghost use Rattle.replacing.specs.Calls.{replace_outcome};
ghost use Rattle.sheet.specs.Promises.{Sized};
ghost use Rattle.replacing.specs.Promises.{RecordReplaced, StillJudged};
ghost use Rattle.basics.specs.Fields.{record_length};

use basics::Refusal;
use files::lengths::{RECORD_LENGTH, stations_in};
use forms::readers::head_code;
use header_judging::filed_header_code;
use mending::rows::mend_rows;
use sheet_judging::judge_outcome;
use stations::site;
use trailers::{fits_trailer, put_trailer};

// Puts a record in the place of record k.
fn put_record(file: &mut [u8], k: usize, rec: &[u8])
    requires { HasRecord file.old k × (length rec.now ≡ record_length) }
    ensures { file.new ≡ with_record file.old k rec.now }
{
    let start = RECORD_LENGTH * k;
    let end = start + RECORD_LENGTH;
    file[start..end].copy_from_slice(rec);
}

// Puts in a header, and judges its code anew; no row is written.
fn replace_header(file: &mut [u8], sheet: &mut [u8], n: usize, rec: &[u8])
    requires sized { Sized file.old sheet.old n }
    requires rec_len { length rec.now ≡ record_length }
    ensures file_after { file.new ≡ with_record file.old 0 rec.now }
    ensures sheet_after { sheet.new ≡ mended_sheet n file.old sheet.old 0 rec.now }
{
    let head = filed_header_code(rec, n);
    put_record(file, 0, rec);
    put_trailer(sheet, n, head);
}

// Puts in station k, mends the rows that it touches, and answers how many; the header's code is kept.
fn replace_station(file: &mut [u8], sheet: &mut [u8], n: usize, k: usize, rec: &[u8]) -> usize
    requires sized { Sized file.old sheet.old n }
    requires le_k { (1 ≤ k) × (k ≤ n) × (length rec.now ≡ record_length) }
    ensures value { result ≡ rows_written n file.old k rec.now }
    ensures file_after { file.new ≡ with_record file.old k rec.now }
    ensures sheet_after { sheet.new ≡ mended_sheet n file.old sheet.old k rec.now }
{
    let mut old = [0u8; 6];
    old.copy_from_slice(site(file, k));
    let head = head_code(sheet, n);
    put_record(file, k, rec);
    let written = mend_rows(file, sheet, n, k, &old);
    put_trailer(sheet, n, head);
    written
}

// How replacing ends: 1 to 6, lowest first, or done.
fn replace_outcome(file: &[u8], sheet: &[u8], k: usize, rec: &[u8]) -> Result<(), Refusal>
    ensures { result ≡ replace_outcome file.now sheet.now k rec.now }
{
    judge_outcome(file, sheet)?;
    let n = stations_in(file);
    if !fits_trailer(sheet, n) {
        return Err(Refusal::SheetTrailer);
    }
    if k > n {
        return Err(Refusal::NoSuchRecord);
    }
    if rec.len() != RECORD_LENGTH {
        return Err(Refusal::RecordLength);
    }
    Ok(())
}

// Replaces record k, the header being 0, mends the sheet, and answers how many rows it wrote; a refusal leaves every byte as it was.
pub fn replace(file: &mut [u8], sheet: &mut [u8], k: usize, rec: &[u8]) -> Result<usize, Refusal>
    ensures record_replaced { RecordReplaced file.old sheet.old k rec.now result file.new sheet.new }
    ensures still_judged { StillJudged file.old sheet.old file.new sheet.new }
{
    replace_outcome(file, sheet, k, rec)?;
    let n = stations_in(file);
    if k == 0 {
        replace_header(file, sheet, n, rec);
        return Ok(0);
    }
    Ok(replace_station(file, sheet, n, k, rec))
}
