// The cases worked out by hand, and that they are computed by the rules.
ghost use Rattle.std.specs.Prelude.{◌≡◌, true};
ghost use Rattle.frames.specs.Samples.{all};
ghost use Rattle.station.specs.Computing.{ComputesThePulse};
ghost use Rattle.station.specs.Samples.{samples};

// Every sample case holds of the definitions.
// kept: (d) a function of each level, as its contract names that level's table and rule; a trait over the three would say more and prove the same.
pub fn samples_hold() -> bool
    ensures computed { result ≡ all samples }
    ensures hold { all samples ≡ true }
    ensures rule { ComputesThePulse }
{
    true
}
