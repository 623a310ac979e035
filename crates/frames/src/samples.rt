// The cases worked out by hand, and that the search used for them is the finding rule.
ghost use Rattle.std.specs.Prelude.{◌≡◌, true};
ghost use Rattle.frames.specs.Promises.{SearchIsTheRule};
ghost use Rattle.frames.specs.Samples.{all, samples};

// Every sample case holds of the definitions.
pub fn samples_hold() -> bool
    ensures computed { result ≡ all samples }
    ensures hold { all samples ≡ true }
    ensures rule { SearchIsTheRule }
{
    true
}
