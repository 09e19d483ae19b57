// What the calls on whole files read of a station, where its record is wholly there.
#![tactic(auto)]

ghost use Rattle.std.specs.Prelude.{◌≡◌};
ghost use Rattle.files.specs.Files.{HasRecord};
ghost use Rattle.stations.specs.Stations.{code_at, reference_at, operator_at, site_at, position_at, ground_at, transmit_at};

use distances::{Metres, read_ground};
use files::lengths::whole_record;
use flaws::Flaw;
use frequencies::Frequency;
use frequency_values::frequency_in;
use judging::station_code;
use positions::{Position, read_position};

// Station k's code.
pub fn code(file: &[u8], k: usize) -> u8
    requires { HasRecord file.now k }
    ensures { result ≡ code_at file.now k }
{
    station_code(whole_record(file, k))
}

// Its 13X, as a part of the file itself.
pub fn reference(file: &[u8], k: usize) -> &[u8]
    requires { HasRecord file.now k }
    ensures { result.now ≡ reference_at file.now k }
{
    let rec = whole_record(file, k);
    &rec[204..219]
}

// The operator's code in it.
pub fn operator(file: &[u8], k: usize) -> &[u8]
    requires { HasRecord file.now k }
    ensures { result.now ≡ operator_at file.now k }
{
    let mine = reference(file, k);
    &mine[5..7]
}

// Operator and site in it.
pub fn site(file: &[u8], k: usize) -> &[u8]
    requires { HasRecord file.now k }
    ensures { result.now ≡ site_at file.now k }
{
    let mine = reference(file, k);
    &mine[5..11]
}

// Its position, 4C, or that it says none.
pub fn position(file: &[u8], k: usize) -> Result<Position, Flaw>
    requires { HasRecord file.now k }
    ensures { result ≡ position_at file.now k }
{
    let rec = whole_record(file, k);
    read_position(&rec[51..66])
}

// The height of its antenna above ground, 9Y.
pub fn ground(file: &[u8], k: usize) -> Metres
    requires { HasRecord file.now k }
    ensures { result ≡ ground_at file.now k }
{
    let rec = whole_record(file, k);
    read_ground(&rec[107..111])
}

// Its transmit frequency, 1A with its unit, where it breaks no rule.
pub fn transmit(file: &[u8], k: usize) -> Option<Frequency>
    requires { HasRecord file.now k × (code_at file.now k ≡ 0) }
    ensures { result ≡ transmit_at file.now k }
{
    let rec = whole_record(file, k);
    frequency_in(&rec[0..11], &rec[11..12])
}
