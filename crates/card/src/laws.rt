// What the rules of a card promise over every list of pulses.
ghost use Rattle.card.specs.CardHistories.{Always, EqualsPaperCard, EqualsPaperCardByStretches, PutsWholeFrames};

/// The mode in which alone a card has a channel to set. With it the promises of the rules hold, on every kind of board,
/// over every list of pulses on any lines: a card holds what its paper card holds after the frames read, and it puts whole frames.
pub fn channel_mode() -> u16
    ensures paper { Always (EqualsPaperCard result) }
    ensures stretches { Always (EqualsPaperCardByStretches result) }
    ensures whole { Always (λ kind history card. PutsWholeFrames history) }
{
    0x00A2
}
