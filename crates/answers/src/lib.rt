// What the boundary answers in numbers: how a call ended, and by which rules records are judged.
#![tactic(auto)]

ghost use Rattle.answers.specs.Endings.{Answered};
ghost use Rattle.answers.specs.Rules.{RulesNumbered};

use basics::Refusal;
use basics::outcomes::{code_with, refusal_number};

// The code goes into the lent byte, and the refusal's number is the answer.
pub fn answer(outcome: Result<(), Refusal>, code: &mut u8) -> u8
    ensures { Answered outcome result code.new }
{
    *code = code_with(outcome);
    refusal_number(outcome)
}

// The number of the rules that records are judged by: it is counted up by each change of a rule.
pub fn rules_number() -> u32
    ensures { RulesNumbered result }
{
    2
}
