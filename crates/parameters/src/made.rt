// A store made over any bytes: in the image where they open, else in a table.
ghost use Rattle.std.specs.Prelude.{◌≡◌};
ghost use Rattle.parameters.specs.declared.parameter.Parameter.{Parameter};
ghost use Rattle.parameters.specs.Images.{refusal};
ghost use Rattle.parameters.specs.ImageStores.{made_held, made_bytes, made_sound, MadeOver, made_values};

use super::image::{ImageStore, Unopened};
use super::store::{Store, Unlawful};
use super::table::TableStore;

/// A store made over any bytes.
// kept: (d) no `Result<ImageStore, (TableStore, &mut [u8])>`: either is a store that was made, and neither is passed on by `?`.
#[derive(Drop)]
pub enum MadeStore<'a> {
    /// The bytes opened, and the store keeps its values in them.
    Image(ImageStore<'a>),
    /// The bytes did not open: the values are in a table, and the bytes stay as they were.
    Table(TableStore, &'a mut [u8]),
}

impl<'a> MadeStore<'a> {
    /// Makes a store over any bytes.
    pub fn make(image: &'a mut [u8]) -> MadeStore<'a>
        ensures bytes { made_bytes result ≡ image.old }
        ensures over { MadeOver result image.old }
        ensures held { (p : Parameter) → made_held result p ≡ made_values (refusal image.old) image.old p }
    {
        match ImageStore::open(image) {
            Ok(store) => MadeStore::Image(store),
            Err(Unopened { refusal: _, image }) => MadeStore::Table(TableStore::new(), image),
        }
    }

    /// The bytes over which the store was made, as they are now.
    pub fn bytes(&self) -> &[u8]
        ensures bytes { result.now ≡ made_bytes self.now }
    {
        match self {
            MadeStore::Image(store) => store.bytes(),
            MadeStore::Table(_, bytes) => &bytes[..],
        }
    }
}

// kept: (d) each call is a match of two arms; a common borrow of the table would be one more function, and serve two of the three.
impl<'a> Store for MadeStore<'a> {
    ghost held = { made_held };

    ghost sound = { made_sound };

    ghost over = { MadeOver };

    fn length(&self, number: u8) -> usize {
        match self {
            MadeStore::Image(store) => store.length(number),
            MadeStore::Table(table, _) => table.length(number),
        }
    }

    fn byte(&self, number: u8, place: usize) -> Option<u8> {
        match self {
            MadeStore::Image(store) => store.byte(number, place),
            MadeStore::Table(table, _) => table.byte(number, place),
        }
    }

    fn write(&mut self, number: u8, value: &[u8]) -> Result<(), Unlawful> {
        match self {
            MadeStore::Image(store) => store.write(number, value),
            MadeStore::Table(table, _) => table.write(number, value),
        }
    }
}
