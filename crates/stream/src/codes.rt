// The code sets (document 01, "From bytes to words") and their tables.
ghost use Rattle.std.specs.Prelude.{◌≡◌, ◌<◌, MatchOption};
ghost use Rattle.stream.specs.Bits.{bits};
ghost use Rattle.stream.specs.Codes as codes;
ghost use Rattle.stream.specs.Codes.{set_number};
ghost use Rattle.stream.specs.Latches.{latch_bits};

use CodeSet::{Digit, Lower, Mixed, Punct, Upper};
use Entry::Char;

#[derive(Clone, Copy, Debug, PartialEq, Eq)]
pub enum CodeSet {
    Upper,
    Lower,
    Mixed,
    Punct,
    Digit,
}

// A set's row in the tables.
impl From<CodeSet> for usize {
    ghost from_gives = { λ set row. row ≡ set_number set };

    fn from(set: CodeSet) -> usize {
        match set {
            CodeSet::Upper => 0,
            CodeSet::Lower => 1,
            CodeSet::Mixed => 2,
            CodeSet::Punct => 3,
            CodeSet::Digit => 4,
        }
    }
}

// What a code of a set stands for.
#[derive(Clone, Copy, Debug, PartialEq, Eq)]
pub enum Entry {
    Char(u8),
    Pair(u8, u8),
    Latch(CodeSet),
    Shift(CodeSet),
    Binary,
    Flag,
    Missing,
}

// The table's names for the codes that are no characters: S shifts for one character, L latches.
const P_S: Entry = Entry::Shift(CodeSet::Punct);

const U_S: Entry = Entry::Shift(CodeSet::Upper);

const U_L: Entry = Entry::Latch(CodeSet::Upper);

const L_L: Entry = Entry::Latch(CodeSet::Lower);

const M_L: Entry = Entry::Latch(CodeSet::Mixed);

const P_L: Entry = Entry::Latch(CodeSet::Punct);

const D_L: Entry = Entry::Latch(CodeSet::Digit);

const B_S: Entry = Entry::Binary;

const FLG: Entry = Entry::Flag;

const CR_LF: Entry = Entry::Pair(13, 10);

const STOP: Entry = Entry::Pair(46, 32);

const COMMA: Entry = Entry::Pair(44, 32);

const COLON: Entry = Entry::Pair(58, 32);

const NO: Entry = Entry::Missing;

// Set by code. Laid out by hand, eight codes a line: laid out by the tool each stands on a line of its own.
#[rattlefmt::skip]
static CODES: [[Entry; 32]; 5] = [
    [
        P_S, Char(b' '), Char(b'A'), Char(b'B'), Char(b'C'), Char(b'D'), Char(b'E'), Char(b'F'),
        Char(b'G'), Char(b'H'), Char(b'I'), Char(b'J'), Char(b'K'), Char(b'L'), Char(b'M'), Char(b'N'),
        Char(b'O'), Char(b'P'), Char(b'Q'), Char(b'R'), Char(b'S'), Char(b'T'), Char(b'U'), Char(b'V'),
        Char(b'W'), Char(b'X'), Char(b'Y'), Char(b'Z'), L_L, M_L, D_L, B_S,
    ],
    [
        P_S, Char(b' '), Char(b'a'), Char(b'b'), Char(b'c'), Char(b'd'), Char(b'e'), Char(b'f'),
        Char(b'g'), Char(b'h'), Char(b'i'), Char(b'j'), Char(b'k'), Char(b'l'), Char(b'm'), Char(b'n'),
        Char(b'o'), Char(b'p'), Char(b'q'), Char(b'r'), Char(b's'), Char(b't'), Char(b'u'), Char(b'v'),
        Char(b'w'), Char(b'x'), Char(b'y'), Char(b'z'), U_S, M_L, D_L, B_S,
    ],
    [
        P_S, Char(b' '), Char(1), Char(2), Char(3), Char(4), Char(5), Char(6),
        Char(7), Char(8), Char(9), Char(10), Char(11), Char(12), Char(13), Char(27),
        Char(28), Char(29), Char(30), Char(31), Char(b'@'), Char(b'\\'), Char(b'^'), Char(b'_'),
        Char(b'`'), Char(b'|'), Char(b'~'), Char(127), L_L, U_L, P_L, B_S,
    ],
    [
        FLG, Char(13), CR_LF, STOP, COMMA, COLON, Char(b'!'), Char(b'"'),
        Char(b'#'), Char(b'$'), Char(b'%'), Char(b'&'), Char(b'\''), Char(b'('), Char(b')'), Char(b'*'),
        Char(b'+'), Char(b','), Char(b'-'), Char(b'.'), Char(b'/'), Char(b':'), Char(b';'), Char(b'<'),
        Char(b'='), Char(b'>'), Char(b'?'), Char(b'['), Char(b']'), Char(b'{'), Char(b'}'), U_L,
    ],
    [
        P_S, Char(b' '), Char(b'0'), Char(b'1'), Char(b'2'), Char(b'3'), Char(b'4'), Char(b'5'),
        Char(b'6'), Char(b'7'), Char(b'8'), Char(b'9'), Char(b','), Char(b'.'), U_L, U_S,
        NO, NO, NO, NO, NO, NO, NO, NO,
        NO, NO, NO, NO, NO, NO, NO, NO,
    ],
];

// The first set that has a byte, and its code there.
#[rattlefmt::skip]
static HOMES: [Option<(CodeSet, u8)>; 256] = [
    None, Some((Mixed, 2)), Some((Mixed, 3)), Some((Mixed, 4)), Some((Mixed, 5)), Some((Mixed, 6)),
    Some((Mixed, 7)), Some((Mixed, 8)), Some((Mixed, 9)), Some((Mixed, 10)), Some((Mixed, 11)),
    Some((Mixed, 12)), Some((Mixed, 13)), Some((Mixed, 14)), None, None, None, None, None, None, None, None,
    None, None, None, None, None, Some((Mixed, 15)), Some((Mixed, 16)), Some((Mixed, 17)), Some((Mixed, 18)),
    Some((Mixed, 19)), Some((Upper, 1)), Some((Punct, 6)), Some((Punct, 7)), Some((Punct, 8)), Some((Punct, 9)),
    Some((Punct, 10)), Some((Punct, 11)), Some((Punct, 12)), Some((Punct, 13)), Some((Punct, 14)),
    Some((Punct, 15)), Some((Punct, 16)), Some((Punct, 17)), Some((Punct, 18)), Some((Punct, 19)),
    Some((Punct, 20)), Some((Digit, 2)), Some((Digit, 3)), Some((Digit, 4)), Some((Digit, 5)), Some((Digit, 6)),
    Some((Digit, 7)), Some((Digit, 8)), Some((Digit, 9)), Some((Digit, 10)), Some((Digit, 11)),
    Some((Punct, 21)), Some((Punct, 22)), Some((Punct, 23)), Some((Punct, 24)), Some((Punct, 25)),
    Some((Punct, 26)), Some((Mixed, 20)), Some((Upper, 2)), Some((Upper, 3)), Some((Upper, 4)),
    Some((Upper, 5)), Some((Upper, 6)), Some((Upper, 7)), Some((Upper, 8)), Some((Upper, 9)), Some((Upper, 10)),
    Some((Upper, 11)), Some((Upper, 12)), Some((Upper, 13)), Some((Upper, 14)), Some((Upper, 15)),
    Some((Upper, 16)), Some((Upper, 17)), Some((Upper, 18)), Some((Upper, 19)), Some((Upper, 20)),
    Some((Upper, 21)), Some((Upper, 22)), Some((Upper, 23)), Some((Upper, 24)), Some((Upper, 25)),
    Some((Upper, 26)), Some((Upper, 27)), Some((Punct, 27)), Some((Mixed, 21)), Some((Punct, 28)),
    Some((Mixed, 22)), Some((Mixed, 23)), Some((Mixed, 24)), Some((Lower, 2)), Some((Lower, 3)),
    Some((Lower, 4)), Some((Lower, 5)), Some((Lower, 6)), Some((Lower, 7)), Some((Lower, 8)), Some((Lower, 9)),
    Some((Lower, 10)), Some((Lower, 11)), Some((Lower, 12)), Some((Lower, 13)), Some((Lower, 14)),
    Some((Lower, 15)), Some((Lower, 16)), Some((Lower, 17)), Some((Lower, 18)), Some((Lower, 19)),
    Some((Lower, 20)), Some((Lower, 21)), Some((Lower, 22)), Some((Lower, 23)), Some((Lower, 24)),
    Some((Lower, 25)), Some((Lower, 26)), Some((Lower, 27)), Some((Punct, 29)), Some((Mixed, 25)),
    Some((Punct, 30)), Some((Mixed, 26)), Some((Mixed, 27)), None, None, None, None, None, None, None, None,
    None, None, None, None, None, None, None, None, None, None, None, None, None, None, None, None, None, None,
    None, None, None, None, None, None, None, None, None, None, None, None, None, None, None, None, None, None,
    None, None, None, None, None, None, None, None, None, None, None, None, None, None, None, None, None, None,
    None, None, None, None, None, None, None, None, None, None, None, None, None, None, None, None, None, None,
    None, None, None, None, None, None, None, None, None, None, None, None, None, None, None, None, None, None,
    None, None, None, None, None, None, None, None, None, None, None, None, None, None, None, None, None, None,
    None, None, None, None, None, None, None, None, None, None, None, None,
];

// Latch paths, from a set (row) to a set (column): the codes one after the other as one number, and how many bits they are.
static LATCHES: [[(u16, u8); 5]; 5] = [
    [(0, 0), (28, 5), (29, 5), (958, 10), (30, 5)],
    [(494, 9), (0, 0), (29, 5), (958, 10), (30, 5)],
    [(29, 5), (28, 5), (0, 0), (30, 5), (958, 10)],
    [(31, 5), (1020, 10), (1021, 10), (0, 0), (1022, 10)],
    [(14, 4), (476, 9), (477, 9), (15294, 14), (0, 0)],
];

#[derive(Clone, Copy, Debug, PartialEq, Eq)]
pub struct LatchPath {
    pub code: usize,
    pub bits: usize,
}

// The bits of a code.
pub fn width_of(set: CodeSet) -> usize
    ensures { result ≡ codes.width (set_number set) }
{
    match set {
        CodeSet::Upper | CodeSet::Lower | CodeSet::Mixed | CodeSet::Punct => 5,
        CodeSet::Digit => 4,
    }
}

// What a code stands for in a set.
pub fn entry_at(set: CodeSet, code: usize) -> Entry
    requires { code < 32 }
    ensures { result ≡ codes.entry (set_number set) code }
{
    CODES[usize::from(set)][code]
}

// The one-byte code of b in a set.
pub fn code_in(set: CodeSet, b: u8) -> Option<usize>
    ensures { let code = codes.code_of (set_number set) b in MatchOption result (code ≡ 32) (λ c. (c ≡ code) × (c < 32)) }
{
    CODES[usize::from(set)]
        .iter()
        .position(|entry| *entry == Entry::Char(b))
}

// The first set that has b, and its code there.
pub fn home_of(b: u8) -> Option<(CodeSet, u8)>
    ensures { let home = codes.home b in
        MatchOption result (home ≡ 5) (λ h. (set_number h.0 ≡ home) × (h.1 ≡ codes.code_of home b)) }
{
    HOMES[usize::from(b)]
}

// The codes that lead from a set to a set.
pub fn latch(from: CodeSet, to: CodeSet) -> LatchPath
    ensures to_value { latch_bits (set_number from) (set_number to) ≡ bits result.bits result.code }
    ensures bits_bound { result.bits < 15 }
{
    let (code, bits) = LATCHES[usize::from(from)][usize::from(to)];
    LatchPath {
        code: usize::from(code),
        bits: usize::from(bits),
    }
}
