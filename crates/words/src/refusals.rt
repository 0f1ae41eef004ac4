// The refusals of documents 01 and 02 by their words, and where they are met.
ghost use Rattle.std.specs.Prelude.{◌≡◌};
ghost use Rattle.words.specs.Refusals.{refusal_number};

use std::error::Error;
use std::fmt;

// A refusal; its discriminant is the number of the documents.
#[derive(Clone, Copy, Debug, PartialEq, Eq, Hash)]
pub enum Refusal {
    BadHead = 1,
    BadWord = 2,
    NoStream = 3,
    NoReset = 4,
    Backward = 5,
    Crossed = 6,
    TooDeep = 7,
    OpenText = 8,
    NoCount = 9,
    Ring = 10,
    TooTall = 11,
    NoSuchChunk = 12,
    ShortTray = 13,
    UnfitPart = 14,
    StrayBreak = 15,
    UnsureCount = 16,
}

impl Refusal {
    // The number of the documents.
    pub fn number(self) -> u32
        ensures { result ≡ refusal_number self }
    {
        self as u32
    }

    // The refusal at a place of a chunk.
    pub fn at(self, place: usize) -> Fault
        ensures { result ≡ record { refusal = self; place = place } }
    {
        Fault {
            refusal: self,
            place,
        }
    }
}

// A refusal inside one chunk: which, and the place that it names.
#[derive(Clone, Copy, Debug, PartialEq, Eq, Hash)]
pub struct Fault {
    pub refusal: Refusal,
    pub place: usize,
}

impl Fault {
    // "Chunk is 0 for 1, 2, 13, else the one meant."
    pub fn in_chunk(self, chunk: usize) -> Refused
        ensures { result ≡ record { refusal = self.refusal; chunk = chunk; place = self.place } }
    {
        Refused {
            refusal: self.refusal,
            chunk,
            place: self.place,
        }
    }
}

// A refusal of a whole call: which, and the chunk and the place that it names.
#[derive(Clone, Copy, Debug, PartialEq, Eq, Hash)]
pub struct Refused {
    pub refusal: Refusal,
    pub chunk: usize,
    pub place: usize,
}

impl fmt::Display for Refused {
    fn fmt<W: fmt::Write>(&self, f: &mut fmt::Formatter<W>) -> fmt::Result {
        write!(
            f,
            "refused {} {} {}",
            self.refusal.number(),
            self.chunk,
            self.place
        )
    }
}

impl Error for Refused {}
