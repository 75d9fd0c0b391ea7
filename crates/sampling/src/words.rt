// Words read at a table of places, from modules that are 0, 1 or 2, unread.
ghost use Rattle.std.specs.Prelude.{◌≡◌, cond, ℕ, ◌+◌, ◌*◌, ◌≤◌, eqb, length};
ghost use Rattle.list_laws.specs.Filled.{tabulate};
ghost use Rattle.symbol.specs.Drawing.{PlacesFit};
ghost use Rattle.symbol.specs.GridWords.{value, unread};
ghost use Rattle.sampling.specs.Sampled.{tabled, table_module};

// A word's value, where unread modules count as 0, and its mark: 1 if there is one.
#[derive(Clone, Copy)]
pub struct Word {
    pub value: u16,
    pub mark: u8,
}

// The mark of a word with one module more.
fn mark_with(mark: u8, seen: u8) -> u8
    ensures { result ≡ cond (eqb seen 2) 1 mark }
{
    if seen == 2 {
        return 1;
    }
    mark
}

// The word at these places.
fn read_word(places: &[u16], upright: &[u8]) -> Word
    requires fact_1 { length places.now ≤ 12 }
    requires fact_2 { PlacesFit places.now 0 (length places.now) (length upright.now) }
    ensures { (result.value ≡ value (length places.now) (tabled places.now upright.now))
        × (result.mark ≡ unread (length places.now) (tabled places.now upright.now)) }
{
    let mut value = 0u16;
    let mut mark = 0u8;
    for place in places {
        let at = *place as usize;
        let seen = upright[at];
        value = 2 * value + (seen % 2) as u16;
        mark = mark_with(mark, seen);
    }
    Word { value, mark }
}

// All words, after the places that are skipped.
pub fn read_words(
    size: usize,
    skip: usize,
    places: &[u16],
    upright: &[u8],
    words: &mut [u16],
    marks: &mut [u8],
)
    requires le_size { (1 ≤ size) × (size ≤ 12) × (length marks.old ≡ length words.old)
        × (skip + length words.old * size ≤ length places.now) }
    requires places_fit { PlacesFit places.now 0 (skip + length words.old * size) (length upright.now) }
    ensures words_after { words.new ≡ tabulate
        (λ (w : ℕ). value size (table_module size skip places.now upright.now w)) (length words.old) }
    ensures marks_after { marks.new ≡ tabulate
        (λ (w : ℕ). unread size (table_module size skip places.now upright.now w)) (length words.old) }
{
    for w in 0..words.len() {
        let from = skip + w * size;
        let word = read_word(&places[from..from + size], upright);
        words[w] = word.value;
        marks[w] = word.mark;
    }
}
