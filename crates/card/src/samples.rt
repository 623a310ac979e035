// The cases of a card worked out by hand, with those of the levels below, and that they are computed by the rules.
ghost use Rattle.std.specs.Prelude.{◌≡◌, true};
ghost use Rattle.frames.specs.Samples.{all};
ghost use Rattle.card.specs.CardComputing.{ComputesThePulse};
ghost use Rattle.card.specs.CardSamples.{samples};

/// Every sample case holds of the definitions.
// kept: (d) a function of each level, as its contract names that level's table and rule; a trait over the three would say more and prove the same.
pub fn samples_hold() -> bool
    ensures computed { result ≡ all samples }
    ensures hold { all samples ≡ true }
    ensures rule { ComputesThePulse }
{
    true
}
