// The 36 shapes, by their family and their layers, and the sizes of each; the eight positions.
ghost use Rattle.std.specs.Prelude.{◌≡◌, ◌*◌, ◌<◌, ◌≤◌};
ghost use Rattle.symbol.specs.Shapes.{side, square, bits, word_size, words, skipped, core, is_full, layers, number_of, Shaped};

// The distance of the core ring from the centre.
#[tactic(auto, unfolding(crate::specs::Shapes::core))]
pub fn core_of(full: bool) -> usize
    ensures { result ≡ core full }
{
    if full { 7 } else { 5 }
}

// The sizes of a family with so many layers, a shape's or not.
#[tactic(auto, unfolding(crate::specs::Shapes::side))]
pub fn side_of(full: bool, layers: usize) -> usize
    requires { layers ≤ 32 }
    ensures { result ≡ side full layers }
{
    if full {
        return 15 + 4 * layers + 2 * ((6 + 2 * layers) / 15);
    }
    11 + 4 * layers
}

// The side without the reference lines.
#[tactic(auto, unfolding(crate::specs::Shapes::square))]
pub fn square_of(full: bool, layers: usize) -> usize
    requires { layers ≤ 32 }
    ensures { result ≡ square full layers }
{
    if full {
        return 14 + 4 * layers;
    }
    11 + 4 * layers
}

#[tactic(auto, using(crate::specs::Shapes::bits_below), unfolding(crate::specs::Shapes::bits))]
pub fn bits_of(full: bool, layers: usize) -> usize
    requires { layers ≤ 32 }
    ensures { result ≡ bits full layers }
{
    if full {
        return (112 + 16 * layers) * layers;
    }
    (88 + 16 * layers) * layers
}

#[tactic(auto, unfolding(crate::specs::Shapes::word_size))]
pub fn word_size_of(layers: usize) -> usize
    ensures { result ≡ word_size layers }
{
    match layers {
        ..=2 => 6,
        3..=8 => 8,
        9..=22 => 10,
        _ => 12,
    }
}

#[tactic(auto, unfolding(crate::specs::Shapes::words, crate::specs::Shapes::word_size))]
pub fn words_of(full: bool, layers: usize) -> usize
    requires { layers ≤ 32 }
    ensures { result ≡ words full layers }
{
    bits_of(full, layers) / word_size_of(layers)
}

#[tactic(auto, unfolding(crate::specs::Shapes::skipped, crate::specs::Shapes::word_size))]
pub fn skipped_of(full: bool, layers: usize) -> usize
    requires { layers ≤ 32 }
    ensures { result ≡ skipped full layers }
{
    bits_of(full, layers) % word_size_of(layers)
}

// The layers of the shape with this number: 1 to 4 are C1 to C4, 5 to 36 F1 to F32.
#[tactic(auto, unfolding(crate::specs::Shapes::layers))]
pub fn layers_of(number: usize) -> usize
    ensures { result ≡ layers number }
{
    if 4 < number { number - 4 } else { number }
}

// One of the eight positions: the clockwise quarter turns, 0 to 3, plus 4 if the tag was mirrored left to right before them.
#[derive(Clone, Copy, PartialEq, Eq)]
pub struct Position {
    pub number: usize,
    pub ghost lawful: { number < 8 },
}

impl Position {
    pub fn numbered(number: usize) -> Self
        requires { number < 8 }
        ensures { result.number ≡ number }
    {
        Position { number }
    }
}

// A symbol's family and its side, which place its core: of a sampled grid they are known before its layers.
#[derive(Clone, Copy, PartialEq, Eq)]
pub struct Frame {
    pub full: bool,
    pub side: usize,
    pub ghost room: { 2 * core full < side },
    pub ghost most: { side ≤ 151 },
}

// A compact shape has 1 to 4 layers, a full one 1 to 32.
#[derive(Clone, Copy, PartialEq, Eq)]
pub struct Shape {
    pub full: bool,
    pub layers: usize,
    pub ghost shaped: { Shaped full layers },
}

impl Shape {
    // The shape with this number: 1 to 4 are C1 to C4, 5 to 36 F1 to F32.
    #[tactic(auto, unfolding(crate::specs::Shapes::is_full, crate::specs::Shapes::layers, crate::specs::Shapes::most_layers))]
    pub fn numbered(number: usize) -> Self
        requires { (1 ≤ number) × (number ≤ 36) }
        ensures { (result.full ≡ is_full number) × (result.layers ≡ layers number) }
    {
        Shape {
            full: 4 < number,
            layers: layers_of(number),
        }
    }

    #[tactic(auto, unfolding(crate::specs::Shapes::number_of, crate::specs::Shapes::most_layers))]
    pub fn number(self) -> usize
        ensures { result ≡ number_of self.full self.layers }
    {
        if self.full {
            self.layers + 4
        } else {
            self.layers
        }
    }

    #[tactic(auto, unfolding(crate::specs::Shapes::most_layers))]
    pub fn side(self) -> usize
        ensures { result ≡ side self.full self.layers }
    {
        side_of(self.full, self.layers)
    }

    #[tactic(auto, unfolding(crate::specs::Shapes::side, crate::specs::Shapes::core, crate::specs::Shapes::most_layers))]
    pub fn frame(self) -> Frame
        ensures { (result.full ≡ self.full) × (result.side ≡ side self.full self.layers) }
    {
        Frame {
            full: self.full,
            side: self.side(),
        }
    }

    #[tactic(auto, unfolding(crate::specs::Shapes::most_layers))]
    pub fn square(self) -> usize
        ensures { result ≡ square self.full self.layers }
    {
        square_of(self.full, self.layers)
    }

    #[tactic(auto, unfolding(crate::specs::Shapes::most_layers))]
    pub fn bits(self) -> usize
        ensures { result ≡ bits self.full self.layers }
    {
        bits_of(self.full, self.layers)
    }

    pub fn word_size(self) -> usize
        ensures { result ≡ word_size self.layers }
    {
        word_size_of(self.layers)
    }

    #[tactic(auto, unfolding(crate::specs::Shapes::most_layers))]
    pub fn words(self) -> usize
        ensures { result ≡ words self.full self.layers }
    {
        words_of(self.full, self.layers)
    }

    #[tactic(auto, unfolding(crate::specs::Shapes::most_layers))]
    pub fn skipped(self) -> usize
        ensures { result ≡ skipped self.full self.layers }
    {
        skipped_of(self.full, self.layers)
    }
}
