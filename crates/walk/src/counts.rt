// The two counts of an answer, over a block's first words: those with an unread module, and those fully read that differ from the block
// found. With the corrector's marks the first counts e.
ghost use Rattle.std.specs.Prelude.{◌≡◌, ◌≤◌, length};
ghost use Rattle.walk.specs.Counts.{marked_of, wrong_of};

pub fn count_marked(words: usize, marks: &[u8]) -> u32
    requires { (words ≤ 65536) × (words ≤ length marks.now) }
    ensures { result ≡ marked_of words marks.now }
{
    marks[..words].iter().filter(|mark| **mark == 1).count() as u32
}

pub fn count_wrong(words: usize, received: &[u16], marks: &[u8], found: &[u16]) -> u32
    requires { (words ≤ 65536) × (words ≤ length received.now) × (words ≤ length marks.now) × (words ≤ length found.now) }
    ensures { result ≡ wrong_of words received.now marks.now found.now }
{
    let mut wrong: u32 = 0;
    for w in 0..words {
        if marks[w] != 1 {
            if found[w] != received[w] {
                wrong += 1;
            }
        }
    }
    wrong
}
