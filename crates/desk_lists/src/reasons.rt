// The call on a line that is refused: the kind of what is wrong with its field.
ghost use Rattle.desk_lists.specs.Reasons.{LineKindTold};

use answers::answer;
use flaws::flaw_number;
use line_flaws::explain_line;

// How reading a line ends: 10, 11, 9 with its code, or 0; and the kind of what is wrong with the field of that code, 0 where no rule is broken.
#[unsafe(no_mangle)]
pub extern "C" fn desk_line_kind(line: &[u8], code: &mut u8, kind: &mut u8) -> u8
    ensures { LineKindTold line.now result code.new kind.new }
{
    let told = explain_line(line);
    *kind = flaw_number(told.flaw);
    answer(told.outcome, code)
}
