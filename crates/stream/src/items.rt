// What the reader's items are (document 01, "How a grid is read", step 4); item_reader reads them.
ghost use Rattle.std.specs.Prelude.{◌≡◌};
ghost use Rattle.stream.specs.Items.{number_of};

use crate::codes::CodeSet;

// What an item says: a character, a pair, a new set, or so many raw bytes, which follow it.
#[derive(Clone, Copy, Debug, PartialEq, Eq)]
pub enum Item {
    Single(u8),
    Double(u8, u8),
    Turn(CodeSet),
    Raw(usize),
}

// An item, with the bits that its codes take.
#[derive(Clone, Copy, Debug, PartialEq, Eq)]
pub struct Found {
    pub item: Item,
    pub used: usize,
}

// Why words have no message: one of them is all 0s or all 1s, a code or a shift stands for no item, or an item is cut short.
#[derive(Clone, Copy, Debug, PartialEq, Eq)]
pub enum Fault {
    FlatWord,
    WrongItem,
    CutShort,
}

// The number of a fault, among those of all refusals.
impl From<Fault> for u32 {
    ghost from_gives = { λ fault number. number ≡ number_of fault };

    fn from(fault: Fault) -> u32 {
        match fault {
            Fault::FlatWord => 18,
            Fault::WrongItem => 19,
            Fault::CutShort => 20,
        }
    }
}

// Why words have no message, and the bit at which the item at fault starts: bit 0 for a word at fault.
#[derive(Clone, Copy, Debug, PartialEq, Eq)]
pub struct Refusal {
    pub fault: Fault,
    pub bit: usize,
}
