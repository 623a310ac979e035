// The kinds of boards that a script can name.
use super::mistake::{Mistake, Wanted};
use boards::board::{Board, WaveCard25, WaveCard500, Waveport915};
use std::fmt;

#[derive(Clone, Copy)]
pub enum Kind {
    WaveCard25,
    WaveCard500,
    Waveport915,
}

static KINDS: [Kind; 3] = [Kind::WaveCard25, Kind::WaveCard500, Kind::Waveport915];

// What is done with a board, of whichever kind it is.
pub trait WithBoard {
    type Outcome;

    fn with<B: Board + Drop>(self, board: B) -> Self::Outcome;
}

impl Kind {
    // Does it with a board of this kind.
    pub fn apply<D: WithBoard>(self, deed: D) -> D::Outcome {
        match self {
            Kind::WaveCard25 => deed.with(WaveCard25),
            Kind::WaveCard500 => deed.with(WaveCard500),
            Kind::Waveport915 => deed.with(Waveport915),
        }
    }

    fn word(self) -> &'static str {
        match self {
            Kind::WaveCard25 => "25",
            Kind::WaveCard500 => "500",
            Kind::Waveport915 => "915",
        }
    }
}

impl fmt::Display for Kind {
    fn fmt<W: fmt::Write>(&self, f: &mut fmt::Formatter<W>) -> fmt::Result {
        f.write_str(self.word())
    }
}

impl<'a> TryFrom<&'a str> for Kind {
    type Error = Mistake<'a>;

    fn try_from(word: &'a str) -> Result<Kind, Mistake<'a>> {
        KINDS
            .iter()
            .copied()
            .find(|kind| kind.word() == word)
            .ok_or(Mistake::Word(word, Wanted::Kind))
    }
}
