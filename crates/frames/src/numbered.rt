// Looking up by number: one search for every record that carries a number.
ghost use Rattle.std.specs.Prelude.{◌≡◌, ℕ};
ghost use Rattle.frames.specs.Numbered.{FirstNumbered, place_of};

/// A record that carries the number by which it is looked up.
pub trait Numbered {
    // The number that a record carries.
    ghost carried: { Self → ℕ };

    /// The number that this record carries.
    fn number(&self) -> u32
        ensures { result ≡ carried self.now };
}

/// The place of the first record with this number, or that no record has it.
// kept: (a) no map: one search of a lent slice, for rows and for places, is a form that the project asks for.
pub fn find<T: Numbered>(rows: &[T], number: u32) -> Option<usize>
    ensures first { FirstNumbered T.Numbered.carried number rows.now result }
    ensures place { result ≡ place_of T.Numbered.carried number rows.now }
{
    rows.iter().position(|row| row.number() == number)
}
