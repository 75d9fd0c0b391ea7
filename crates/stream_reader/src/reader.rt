// The reader of the items of words: one item after the other, each with the place of the bytes that follow its codes.
ghost use Rattle.std.specs.Prelude.{◌≡◌, ◌-◌, ◌*◌, ◌≤◌, length, drop};
ghost use Rattle.stream.specs.Codes.{set_number};
ghost use Rattle.stream.specs.Stuffing.{unstuff_from};
ghost use Rattle.item_reader.specs.Places.{rest};
ghost use Rattle.stream_reader.specs.Steps.{Stepped};

use item_reader::reading::Place;
use item_reader::{items, reading, view};
use stream::codes::CodeSet;
use stream::items::{Fault, Found, Item};

// The words, how many stream bits they hold, the place of the next item, which stream bit it is, and the set that it is read in.
#[derive(Drop)]
pub struct Reader<'a> {
    pub words: &'a [u16],
    pub word_size: usize,
    pub total: usize,
    pub place: Place,
    pub at: usize,
    pub set: CodeSet,
    ghost least: { 2 ≤ word_size },
    ghost most: { word_size ≤ 12 },
    ghost few: { total ≤ 1048576 },
    ghost counted: { total ≡ length (unstuff_from (word_size - 1) words.now) },
    ghost within: { at ≤ total },
    ghost here: { rest (word_size - 1) words.now place.word place.bit ≡ drop at (unstuff_from (word_size - 1) words.now) },
    ghost near: { place.bit ≤ 16 },
}

impl<'a> Reader<'a> {
    // At the first bit, in Upper.
    pub fn new(words: &'a [u16], word_size: usize) -> Reader<'a>
        requires least { 2 ≤ word_size }
        requires most { word_size ≤ 12 }
        requires few { length words.now ≤ 65536 }
        ensures { (result.words ≡ words.entry) × (result.word_size ≡ word_size) × (result.at ≡ 0) × (set_number result.set ≡ 0) }
    {
        Reader {
            words,
            word_size,
            total: reading::stream_length(words, word_size - 1),
            place: Place { word: 0, bit: 0 },
            at: 0,
            set: CodeSet::Upper,
        }
    }

    // The next item, if the reading does not stop. A fault leaves the reader where it stands.
    pub fn next(&mut self) -> Result<Option<(Item, Place)>, Fault>
        ensures words { (self.new.words ≡ self.old.words) × (self.new.word_size ≡ self.old.word_size)
            × (self.new.total ≡ self.old.total) }
        ensures step { Stepped self.old.word_size self.old.words.now self.old.at (set_number self.old.set) result
            self.new.at (set_number self.new.set) }
    {
        let h = self.word_size - 1;
        let left = self.total - self.at;
        if items::stops_at(self.words, h, self.place, left, self.word_size) {
            return Ok(None);
        }
        let Found { item, used } = view::read_item(
            self.words,
            self.word_size,
            self.place,
            left,
            self.set,
        )?;
        let more = items::extra_of(item);
        let bytes = reading::forward(self.words, h, self.place, used);
        self.place = reading::forward(self.words, h, bytes, more);
        self.at += used + more;
        self.set = items::set_after(self.set, item);
        Ok(Some((item, bytes)))
    }
}
