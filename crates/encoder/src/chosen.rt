// What the search for a shape ends with.
ghost use Rattle.std.specs.Prelude.{◌≤◌};
ghost use Rattle.symbol.specs.Shapes.{words};

use symbol::shapes::Shape;

// The shape that a message is drawn in, and D.
#[derive(Clone, Copy, PartialEq, Eq)]
pub struct Choice {
    pub shape: Shape,
    pub data_words: usize,
    pub ghost held: { data_words ≤ words shape.full shape.layers },
}
