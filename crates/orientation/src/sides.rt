// The sides that shapes have.
ghost use Rattle.std.specs.Prelude.{◌≡◌, ◌≤◌};
ghost use Rattle.orientation.specs.Sides.{has_side, is_side};

use symbol::shapes::Shape;

// Whether shape number `number` has side n.
#[tactic(auto, unfolding(crate::specs::Sides::has_side))]
fn has_side(number: usize, n: usize) -> bool
    requires { (1 ≤ number) × (number ≤ 36) }
    ensures { result ≡ has_side n number }
{
    Shape::numbered(number).side() == n
}

pub fn is_side(n: usize) -> bool
    ensures { result ≡ is_side n }
{
    (1..37).any(|number| has_side(number, n))
}
