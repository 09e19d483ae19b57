// The code of a header's record: its fields are judged in place, in the order of their codes.
#![tactic(auto)]

ghost use Rattle.std.specs.Prelude.{◌≡◌, length};
ghost use Rattle.header.specs.Codes.{header_code, filed_header_code};
ghost use Rattle.header_judging.specs.Promises.{HeaderChecked, HeaderFiled};

use basics::Refusal;
use basics::outcomes::judged;
use closing_judging::closing_code;
use numerals::amount_in;
use sender_judging::sender_code;

// The first broken code of a header's record, 1 to 14; 0 means none.
fn header_code(rec: &[u8]) -> u8
    requires { length rec.now ≡ 219 }
    ensures { result ≡ header_code rec.now }
{
    let code = sender_code(rec);
    if code != 0 {
        return code;
    }
    closing_code(rec)
}

// Whether a record of any length can be read as a header: 6, 9 with its code, 1 to 14, or done.
pub fn check_header(rec: &[u8]) -> Result<(), Refusal>
    ensures { HeaderChecked rec.now result }
{
    if rec.len() != 219 {
        return Err(Refusal::RecordLength);
    }
    judged(header_code(rec))
}

// The code of a header in its file of n stations: 15 where it breaks no rule and its count is not n.
pub fn filed_header_code(rec: &[u8], n: usize) -> u8
    requires { length rec.now ≡ 219 }
    ensures { result ≡ filed_header_code rec.now n }
{
    let own = header_code(rec);
    if own != 0 {
        return own;
    }
    if amount_in(&rec[186..192]) != n as u64 {
        return 15;
    }
    0
}

// Whether a header of any length can stand in a file of n stations: 6, 9 with its code, 1 to 15, or done.
pub fn check_filed_header(rec: &[u8], n: usize) -> Result<(), Refusal>
    ensures { HeaderFiled rec.now n result }
{
    if rec.len() != 219 {
        return Err(Refusal::RecordLength);
    }
    judged(filed_header_code(rec, n))
}
