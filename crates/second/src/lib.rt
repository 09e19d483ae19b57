// The second judge: the paper's two tables as numbers, walked entry by entry and row by row.
#![tactic(auto)]

ghost use Rattle.std.specs.Prelude.{◌≡◌};
ghost use Rattle.station.specs.Codes.{station_code};
ghost use Rattle.station_flaws.specs.Calls.{station_flaw};
ghost use Rattle.station_flaws.specs.Promises.{StationExplained};

use basics::Refusal;
use basics::outcomes::judged;
use flaws::Flaw;
use rule_tables::{entry_table, row_table};
use station_flaws::Explained;
use table_judging::walk;
use walking::Found;

// The first broken code of a record by the two tables, and its flaw.
fn found_in(rec: &[u8]) -> Found
    ensures { (result.code ≡ station_code rec.now) × (result.flaw ≡ station_flaw rec.now) }
{
    let entries = entry_table();
    let rows = row_table();
    walk(&entries, &rows, rec)
}

// What is wrong with a record of any length, by the tables: 6, 9 with its code, or done, and the flaw that comes with the code.
pub fn explain_second(rec: &[u8]) -> Explained
    ensures { StationExplained rec.now result }
{
    if rec.len() != 219 {
        return Explained {
            outcome: Err(Refusal::RecordLength),
            flaw: Flaw::None,
        };
    }
    let found = found_in(rec);
    let outcome = judged((found.code % 256) as u8);
    Explained {
        outcome,
        flaw: found.flaw,
    }
}
