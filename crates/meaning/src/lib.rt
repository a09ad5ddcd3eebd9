// The meaning of the front end: every definition that the promises rest on stands in specs/. The types below are the ones
// that the definitions and the code share.
#![tactic(auto)]

ghost use Rattle.std.specs.Prelude.{Err, ◌≡◌};
ghost use Rattle.meaning.specs.Convert.{reason_of};
ghost use Rattle.meaning.specs.Peg.{hit, taken};
ghost use Rattle.meaning.specs.Places.{location};
ghost use Rattle.meaning.specs.Alignment.{max_chunk_width, fresh};

// What a matcher answers: how far a try failed, plus 1 (0: none did), where it missed; how much it took, and the same mark,
// where it matched. It is no Result: a miss is no error that `?` could hand up, since its mark is joined with that of the next try.
#[derive(Clone, Copy)]
pub enum Match {
    Missed(usize),
    Took(usize, usize),
}

impl Match {
    // Whether it took.
    pub fn is_hit(self) -> bool
        ensures { result ≡ hit self }
    {
        matches!(self, Match::Took(_, _))
    }

    // How much it took; 0, where it missed.
    pub fn taken(self) -> usize
        ensures { result ≡ taken self }
    {
        match self {
            Match::Missed(_) => 0,
            Match::Took(len, _) => len,
        }
    }
}

// A place in a source: offset, line and column, from zero, in bytes (ast.rs).
#[repr(C)]
#[derive(Clone, Copy)]
pub struct SourceLocation {
    pub offset: usize,
    pub line: usize,
    pub column: usize,
}

impl SourceLocation {
    // The place of an offset among any starts of lines: the search ends at the first start above the offset.
    pub fn new(offset: usize, starts: &[usize]) -> SourceLocation
        ensures { result ≡ location offset starts.now }
    {
        let mut place = SourceLocation {
            offset,
            line: 0,
            column: offset,
        };
        for (line, start) in starts.iter().enumerate() {
            if offset < *start {
                break;
            }
            place = SourceLocation {
                offset,
                line,
                column: offset - *start,
            };
        }
        place
    }
}

// Why a text does not convert to a number (01, 'Blanks and literals').
#[derive(Clone, Copy, PartialEq, Eq, Debug)]
pub enum ConversionError {
    Empty,
    BadDigit,
    TooLarge,
}

impl ConversionError {
    // Its number (01, 'Integers'); 0 is that of a text that converts.
    pub fn reason(self) -> u64
        ensures { result ≡ reason_of (Err self) }
    {
        match self {
            ConversionError::Empty => 1,
            ConversionError::BadDigit => 2,
            ConversionError::TooLarge => 3,
        }
    }
}

// The aligner's state (01, 'Aligner'): rows placed, chunk rows, the first staged placed row, the staged width.
#[repr(C)]
#[derive(Clone, Copy)]
pub struct Aligner {
    pub placed: usize,
    pub chunks: usize,
    pub start: usize,
    pub width: u64,
}

impl Aligner {
    // The widest chunk, in bits.
    pub const MAX_CHUNK_WIDTH: u64 = 64;

    // The same as an answer, which holds the constant to the meaning's.
    pub fn max_chunk_width() -> u64
        ensures { result ≡ max_chunk_width }
    {
        Aligner::MAX_CHUNK_WIDTH
    }

    // The state before the first field.
    pub fn new() -> Aligner
        ensures { result ≡ fresh }
    {
        Aligner {
            placed: 0,
            chunks: 0,
            start: 0,
            width: 0,
        }
    }
}

// The longest source that is read, in bytes (01, refusal 1).
pub fn longest() -> usize
    ensures { result ≡ 1048576 }
{
    1048576
}
