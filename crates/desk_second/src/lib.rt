// The library for callers in C and Rust, its call of the second judge.
#![tactic(auto)]

ghost use Rattle.desk_second.specs.Promises.{StationSecondTold};

use answers::answer;
use flaws::flaw_number;
use second::explain_second;

// What is wrong with a record by the tables: the refusal's number, the code, and the number of the flaw that comes with it.
#[unsafe(no_mangle)]
pub extern "C" fn desk_station_second(rec: &[u8], code: &mut u8, kind: &mut u8) -> u8
    ensures { StationSecondTold rec.now result code.new kind.new }
{
    let told = explain_second(rec);
    *kind = flaw_number(told.flaw);
    answer(told.outcome, code)
}
