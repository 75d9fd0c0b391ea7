// The position of a sampled grid: the one of the eight in which most of the twelve orientation modules match, or why there is none.
ghost use Rattle.std.specs.Prelude.{◌≡◌, ℕ, ◌*◌, ◌≤◌, ◌<◌, eqb, length, get_or};
ghost use Rattle.list_laws.specs.Search.{first_from};
ghost use Rattle.symbol.specs.Positions.{place_in};
ghost use Rattle.orientation.specs.Position.{matches, single, position_given};
ghost use Rattle.orientation.specs.Counting.{Upright, Counted};
ghost use Rattle.orientation.specs.Greatest.{most};
ghost use Rattle.orientation.specs.Masks.{mask_from};
ghost use Rattle.orientation.specs.Placement.{placement_of};

use symbol::places::{self, ORIENTATION};
use symbol::shapes::{Frame, Position};

// Where module k of an upright grid stands in a position.
fn place_in(frame: Frame, position: Position, k: usize) -> usize
    requires { k < frame.side * frame.side }
    ensures { (result ≡ place_in frame.side position.number k) × (result < frame.side * frame.side) }
{
    let n = frame.side;
    let x = places::turned_cell(position, n, k / n, k % n);
    x.row * n + x.col
}

// How many of the twelve, whose upright places are lent, match a position.
fn matches_of(frame: Frame, upright: &[u16; 12], grid: &[u8], position: Position) -> usize
    requires fact_1 { frame.side * frame.side ≤ length grid.now }
    requires fact_2 { Upright frame.full frame.side upright.now }
    ensures { result ≡ matches frame.full frame.side grid.now position.number }
{
    let mut matched = 0;
    for k in 0..12 {
        let at = place_in(frame, position, upright[k] as usize);
        if u16::from(grid[at]) == ORIENTATION[k] {
            matched += 1;
        }
    }
    matched
}

// The matches of each position.
fn count_matches(frame: Frame, grid: &[u8]) -> [usize; 8]
    requires { frame.side * frame.side ≤ length grid.now }
    ensures { Counted frame.full frame.side grid.now result 8 }
{
    let mut upright = [0u16; 12];
    places::orientation_places(frame, &mut upright);
    let mut counts = [0usize; 8];
    for p in 0..8 {
        counts[p] = matches_of(frame, &upright, grid, Position::numbered(p));
    }
    counts
}

// Whether position p has at least 9 matches and no other has as many.
fn is_single(counts: &[usize; 8], p: usize) -> bool
    requires { p < 8 }
    ensures { result ≡ single (λ (q : ℕ). get_or counts.now q 0) p }
{
    let most = counts[p];
    (0..8).all(|q| q == p || counts[q] < most) && 9 <= most
}

// The position that is taken.
fn position_in(counts: &[usize; 8]) -> Option<usize>
    ensures { result ≡ position_given (first_from (single (λ (q : ℕ). get_or counts.now q 0)) 0 8) }
{
    (0..8).find(|p| is_single(counts, *p))
}

// The best match count.
fn most_of(counts: &[usize; 8]) -> usize
    ensures { result ≡ most (λ (q : ℕ). get_or counts.now q 0) 8 }
{
    let mut most: usize = 0;
    for count in counts {
        most = most.max(*count);
    }
    most
}

// The positions with so many matches, position p as bit p.
fn positions_with(most: usize, counts: &[usize; 8]) -> u32
    ensures { result ≡ mask_from (λ (q : ℕ). eqb (get_or counts.now q 0) most) 0 8 }
{
    let mut mask: u32 = 0;
    for p in (0..8).rev() {
        mask *= 2;
        if counts[p] == most {
            mask += 1;
        }
    }
    mask
}

// No single best position with 9 matches (number 14): the best match count, and the positions that have it, position p as bit p.
#[derive(Clone, Copy, PartialEq, Eq)]
pub struct Unplaced {
    pub best: u32,
    pub positions: u32,
}

// Where the twelve orientation modules put a grid: in position 0 to 7.
pub fn placement_of(frame: Frame, grid: &[u8]) -> Result<usize, Unplaced>
    requires { frame.side * frame.side ≤ length grid.now }
    ensures { result ≡ placement_of frame.full frame.side grid.now }
{
    let counts = count_matches(frame, grid);
    let Some(p) = position_in(&counts) else {
        let most = most_of(&counts);
        let positions = positions_with(most, &counts);
        let best = most as u32;
        return Err(Unplaced { best, positions });
    };
    Ok(p)
}
