// A view of the corrected words: the slice, the word size and the place of the next bit (document 01, "Drop the stuffed bits and read
// items"). The functions over it are thin; the work is `items::item_at`'s.
ghost use Rattle.std.specs.Prelude.{◌≡◌, ◌-◌};
ghost use Rattle.stream.specs.Codes.{set_number};
ghost use Rattle.stream.specs.Items as spec;
ghost use Rattle.item_reader.specs.Places.{rest, Ready};

use crate::items;
use crate::reading::Place;
use stream::codes::CodeSet;
use stream::items::{Fault, Found};

#[derive(Clone, Copy)]
pub struct View<'a> {
    pub words: &'a [u16],
    pub size: usize,
    pub place: Place,
}

// The view of words from a place on.
pub fn at<'a>(words: &'a [u16], size: usize, place: Place) -> View<'a>
    ensures { (result.words ≡ words.entry) × (result.size ≡ size) × (result.place ≡ place) }
{
    View { words, size, place }
}

// The item at a view's place, read in a set, where so many bits are left.
pub fn item<'a>(view: View<'a>, left: usize, set: CodeSet) -> Result<Found, Fault>
    requires { Ready view.words.now view.size view.place.word view.place.bit left (set_number set) }
    ensures { result ≡ spec.item_at (set_number set)
        (rest (view.entry.size - 1) view.entry.words.now view.entry.place.word view.entry.place.bit) }
{
    items::item_at(view.words, view.size, view.place, left, set)
}

// From plain parameters, with no view to make first.
pub fn read_item(
    words: &[u16],
    size: usize,
    place: Place,
    left: usize,
    set: CodeSet,
) -> Result<Found, Fault>
    requires { Ready words.now size place.word place.bit left (set_number set) }
    ensures { result ≡ spec.item_at (set_number set) (rest (size - 1) words.now place.word place.bit) }
{
    item(at(words, size, place), left, set)
}
