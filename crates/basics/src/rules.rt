// Rules in the order of their codes.
ghost use Rattle.std.specs.Prelude.{◌≡◌, ◌+◌, ◌-◌, ◌≤◌, length, take};
ghost use Rattle.basics.specs.Rules.{first_broken};

// The code of the first rule that is broken, where every number fits a byte.
fn broken_from(rules: &[bool], first: u8) -> u8
    requires { first + length rules.now ≤ 256 }
    ensures { result ≡ first_broken first rules.now }
{
    for (i, holds) in rules.iter().enumerate() {
        if !*holds {
            return first + i as u8;
        }
    }
    0
}

// The code of the first rule that is broken, counted from first on, or 0; a rule whose number does not fit a byte is not asked.
pub fn first_broken(rules: &[bool], first: u8) -> u8
    ensures { result ≡ first_broken first (take (256 - first) rules.now) }
{
    let room = 256 - first as usize;
    if rules.len() <= room {
        return broken_from(rules, first);
    }
    broken_from(&rules[..room], first)
}
