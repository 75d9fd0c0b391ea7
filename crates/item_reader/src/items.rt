// The reader's items.
ghost use Rattle.std.specs.Prelude.{◌≡◌, List, ℕ, ◌+◌, ◌*◌, ◌-◌, ◌≤◌, ◌<◌, length, drop};
ghost use Rattle.stream.specs.declared.codes.Entry.TheVariants.{Shift};
ghost use Rattle.stream.specs.Codes.{set_number};
ghost use Rattle.stream.specs.Items as spec;
ghost use Rattle.item_reader.specs.Places.{rest, Ready};

use crate::reading;
use crate::reading::Place;
use stream::codes;
use stream::codes::{CodeSet, Entry};
use stream::items::{Fault, Found, Item};

// After a shift, so many bits in all: a character or a pair.
fn after_shift(entry: Entry, used: usize) -> Result<Found, Fault>
    ensures { result ≡ spec.shifted entry used }
{
    let item = match entry {
        Entry::Char(b) => Item::Single(b),
        Entry::Pair(b, c) => Item::Double(b, c),
        Entry::Latch(_) | Entry::Shift(_) | Entry::Binary | Entry::Flag | Entry::Missing => {
            return Err(Fault::WrongItem);
        }
    };
    Ok(Found { item, used })
}

// A shift to a set, after the bits used, where so many bits are left.
fn shift_item(
    words: &[u16],
    h: usize,
    place: Place,
    left: usize,
    used: usize,
    set: CodeSet,
) -> Result<Found, Fault>
    requires h_bound_1 { h < 16 }
    requires h_bound_2 { used ≤ 5 }
    requires left_value { left ≡ length (rest h words.now place.word place.bit) }
    ensures { (l : List ℕ) → rest h words.now place.word place.bit ≡ drop used l → length l ≡ used + left
        → result ≡ spec.item_by l used (Shift set) }
{
    let width = codes::width_of(set);
    if left < width {
        return Err(Fault::CutShort);
    }
    let code = reading::take_bits(words, h, place, width);
    after_shift(codes::entry_at(set, code.value), used + width)
}

// So many raw bytes after the bits used.
fn raw_item(left: usize, used: usize, n: usize) -> Result<Found, Fault>
    requires { n ≤ 4096 }
    ensures { result ≡ spec.complete (used + left) (used + 8 * n) (spec.found_item (Item.Raw n) used) }
{
    if 8 * n <= left {
        return Ok(Found {
            item: Item::Raw(n),
            used: used,
        });
    }
    Err(Fault::CutShort)
}

// B/S, with its count after the bits used.
fn count_item(
    words: &[u16],
    h: usize,
    place: Place,
    left: usize,
    used: usize,
) -> Result<Found, Fault>
    requires h_bound_1 { h < 16 }
    requires h_bound_2 { used ≤ 5 }
    requires left_value { left ≡ length (rest h words.now place.word place.bit) }
    ensures { (l : List ℕ) → rest h words.now place.word place.bit ≡ drop used l
        → length l ≡ used + left → result ≡ spec.count_at l used }
{
    if left < 5 {
        return Err(Fault::CutShort);
    }
    let short = reading::take_bits(words, h, place, 5);
    if short.value != 0 {
        return raw_item(left - 5, used + 5, short.value);
    }
    if left < 16 {
        return Err(Fault::CutShort);
    }
    let long = reading::take_bits(words, h, short.next, 11);
    raw_item(left - 16, used + 16, long.value + 31)
}

// The item at a place, read in a set, where so many bits are left.
pub fn item_at(
    words: &[u16],
    word_size: usize,
    place: Place,
    left: usize,
    set: CodeSet,
) -> Result<Found, Fault>
    requires { Ready words.now word_size place.word place.bit left (set_number set) }
    ensures { result ≡ spec.item_at (set_number set) (rest (word_size - 1) words.now place.word place.bit) }
{
    let h = word_size - 1;
    let width = codes::width_of(set);
    if left < width {
        return Err(Fault::CutShort);
    }
    let code = reading::take_bits(words, h, place, width);
    let item = match codes::entry_at(set, code.value) {
        Entry::Char(b) => Item::Single(b),
        Entry::Pair(b, c) => Item::Double(b, c),
        Entry::Latch(t) => Item::Turn(t),
        Entry::Shift(t) => return shift_item(words, h, code.next, left - width, width, t),
        Entry::Binary => return count_item(words, h, code.next, left - width, width),
        Entry::Flag | Entry::Missing => return Err(Fault::WrongItem),
    };
    Ok(Found { item, used: width })
}

// Whether the reader stops: all bits left are 1s and fewer than those of a word.
pub fn stops_at(words: &[u16], h: usize, place: Place, left: usize, word_size: usize) -> bool
    requires h_bound_1 { h < 16 }
    requires h_bound_2 { word_size ≤ 16 }
    requires left_value { left ≡ length (rest h words.now place.word place.bit) }
    ensures { result ≡ spec.stops word_size (rest h words.now place.word place.bit) }
{
    if word_size <= left {
        return false;
    }
    let last = reading::take_bits(words, h, place, left);
    last.value == (1usize << left) - 1
}

// How many bytes an item adds to the message.
pub fn bytes_of(item: Item) -> usize
    ensures { result ≡ spec.yields item }
{
    match item {
        Item::Single(_) => 1,
        Item::Double(_, _) => 2,
        Item::Turn(_) => 0,
        Item::Raw(n) => n,
    }
}

// The bits after an item's codes that are still the item's.
pub fn extra_of(item: Item) -> usize
    requires { spec.extra item ≤ 1048576 }
    ensures { result ≡ spec.extra item }
{
    match item {
        Item::Single(_) | Item::Double(_, _) | Item::Turn(_) => 0,
        Item::Raw(n) => 8 * n,
    }
}

// The set after an item.
pub fn set_after(set: CodeSet, item: Item) -> CodeSet
    ensures { set_number result ≡ spec.set_after (set_number set) item }
{
    match item {
        Item::Single(_) | Item::Double(_, _) | Item::Raw(_) => set,
        Item::Turn(t) => t,
    }
}
