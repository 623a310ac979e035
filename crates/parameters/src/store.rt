// What every store of parameter values does.
ghost use Rattle.std.specs.Prelude.{◌≡◌, ℕ, true, List, length, is_ok};
ghost use Rattle.parameters.specs.declared.parameter.Parameter.{Parameter};
ghost use Rattle.parameters.specs.Parameters.{lawful_for};
ghost use Rattle.parameters.specs.Values.{Values, asked, byte_at, lawful, after_write};

/// The write was not taken: no parameter has the number, or the value is not lawful for it.
#[derive(Clone, Copy, Debug, PartialEq, Eq)]
pub struct Unlawful;

/// A store means a lawful value for each parameter.
pub trait Store {
    // The value that a store holds for each parameter.
    ghost held: { Self → Values };

    // Each value is lawful.
    ghost sound: { (store : Self) (p : Parameter) → lawful_for p (held store p) ≡ true };

    // The store's memory is as it should be, if these are the bytes that it was made over.
    ghost over: { Self → List ℕ → Type 0 };

    /// How many bytes the value of the parameter with this number has: none if the number is unknown.
    // kept: (a) a number, not an Option: the call that the project asks for, as an unknown number has no bytes; `byte` answers None for one.
    fn length(&self, number: u8) -> usize
        ensures length { result ≡ length (asked (held self.now) number) };

    /// A byte of the value of the parameter with this number, or that there is none.
    fn byte(&self, number: u8, place: usize) -> Option<u8>
        ensures byte { result ≡ byte_at (asked (held self.now) number) place };

    /// Takes a lawful value for the parameter with this number, and leaves the others; otherwise nothing changes.
    // kept: (d) `taken` and `held` stand in three contracts: each speaks of the values before and after a write, so no type can carry it.
    fn write(&mut self, number: u8, value: &[u8]) -> Result<(), Unlawful>
        ensures taken { is_ok result ≡ lawful number value.now }
        ensures held { (p : Parameter) → held self.new p ≡ after_write (held self.old) number value.now p }
        ensures over { (handed : List ℕ) → over self.old handed → over self.new handed };
}
