// The number of the rules by which records are judged.
ghost use Rattle.answers.specs.Rules.{RulesNumbered};

use answers::rules_number;

// The number of the rules that this library judges by: it is counted up by each change of a rule.
#[unsafe(no_mangle)]
pub extern "C" fn desk_rules() -> u32
    ensures { RulesNumbered result }
{
    rules_number()
}
