// How far two texts are alike.
#![tactic(auto)]

ghost use Rattle.std.specs.Prelude.{◌≡◌};
ghost use Rattle.alike.specs.Alike.{alike};

// How many bytes two texts have alike in front.
pub fn alike_in_front(a: &[u8], b: &[u8]) -> usize
    ensures { result ≡ alike a.now b.now }
{
    a.iter().zip(b).take_while(|(x, y)| x == y).count()
}
