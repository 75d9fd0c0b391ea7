// What a byte is, wherever it stands.

#[derive(Clone, Copy)]
pub enum Kind {
    // A line feed.
    Line,
    // A space, a tab or a carriage return.
    Blank,
    // A digit's value.
    Digit(u8),
    // A question mark.
    Unread,
    // What begins a comment.
    Hash,
    Other,
}

impl From<u8> for Kind {
    ghost use Rattle.std.specs.Prelude.{◌≡◌};
    ghost use Rattle.grid_text.specs.Kinds.{kind_of};

    ghost from_gives = { λ byte kind. kind ≡ kind_of byte };

    #[tactic(auto, unfolding(crate::specs::Kinds::kind_of))]
    fn from(byte: u8) -> Kind {
        match byte {
            b'\n' => Kind::Line,
            b' ' | b'\t' | b'\r' => Kind::Blank,
            b'0'..=b'9' => Kind::Digit(byte - b'0'),
            b'?' => Kind::Unread,
            b'#' => Kind::Hash,
            _ => Kind::Other,
        }
    }
}
