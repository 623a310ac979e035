// The image store: handed-over bytes that are kept in step with the values.
ghost use Rattle.std.specs.Prelude.{◌≡◌, ◌-◌, ◌<◌, ◌≤◌, ◌++◌, length, take, drop, replicate, is_ok, is_some, IfOk, IfSome};
ghost use Rattle.parameters.specs.declared.parameter.Parameter.{Parameter};
ghost use Rattle.parameters.specs.Images.{OpensTo, blank, refusal, start_of, used, width, value_in};
ghost use Rattle.parameters.specs.Tables.{table_held, table_sound};
ghost use Rattle.parameters.specs.Values.{lawful, after_write};

use super::parameter::{Lawful, Parameter, row_of};
use super::refusal::Refusal;
use super::store::{Store, Unlawful};
use super::table::TableStore;

/// How many bytes an image has.
pub const LENGTH: usize = 268;

/// A store that keeps its values in handed-over bytes too.
#[derive(Drop)]
pub struct ImageStore<'a> {
    image: &'a mut [u8],
    // The values at hand.
    // kept: (d) records beside the bytes: read from the bytes, each question would look for its field and take its value apart again.
    table: TableStore,
    // The bytes are an image that opens to them.
    pub ghost step: { OpensTo image.now (table_held table) },
}

/// Bytes that were not opened, handed back as they were.
#[derive(Drop)]
pub struct Unopened<'a> {
    pub refusal: Refusal,
    pub image: &'a mut [u8],
}

impl<'a> ImageStore<'a> {
    ghost use Rattle.parameters.specs.ImageStores.{InStep, cause, handed_bytes};

    /// Opens an image: the store holds the values in it.
    pub fn open(image: &'a mut [u8]) -> Result<ImageStore<'a>, Unopened<'a>>
        ensures cause { cause result ≡ refusal image.old }
        ensures bytes { handed_bytes result ≡ image.old }
        ensures held { IfOk result (λ store. (p : Parameter) → table_held store.table p ≡ value_in image.old p) }
        ensures step { IfOk result InStep }
    {
        if image.len() != LENGTH {
            return Err(Unopened {
                refusal: Refusal::WrongLength,
                image,
            });
        }
        let Ok(table) = TableStore::read(image) else {
            return Err(Unopened {
                refusal: Refusal::UnlawfulBytes,
                image,
            });
        };
        Ok(ImageStore { image, table })
    }

    /// The handed-over bytes.
    pub fn bytes(&self) -> &[u8]
        ensures bytes { result.now ≡ self.now.image.now }
    {
        &self.image[..]
    }
}

impl Lawful {
    // How many bytes the image gives such values.
    pub(crate) fn width(self) -> usize
        ensures width { result ≡ width self }
    {
        match self {
            Lawful::AnyByte | Lawful::ByteUpto(_) => 1,
            Lawful::RouteUpto(most) => 1 + 6 * usize::from(most),
        }
    }

    // How many bytes of a field the value in it uses: a route's first byte tells.
    fn used(self, field: &[u8]) -> usize
        requires { 0 < length field.now }
        ensures used { result ≡ used self field.now }
    {
        match self {
            Lawful::RouteUpto(_) => Lawful::RouteUpto(field[0]).width(),
            single => single.width(),
        }
    }

    // The value at the start of a field, if the field has only 0 behind it.
    pub(crate) fn value_in(self, field: &[u8]) -> Option<&[u8]>
        requires { 0 < length field.now }
        ensures blank { is_some result ≡ blank (drop (used self field.now) field.now) }
        ensures value { IfSome result (λ value. value.now ≡ take (used self field.now) field.now) }
    {
        let (value, unused) = field.split_at(self.used(field).min(field.len()));
        is_blank(unused).then_some(value)
    }
}

// Whether all bytes are 0.
// kept: (b) a loop over every byte, and no `all`: so many bytes are read at once, and an image of zeros opens in 543 instructions; with `all`, which reads them one by one, in 1,638.
fn is_blank(bytes: &[u8]) -> bool
    ensures blank { result ≡ blank bytes.now }
{
    let mut blank = true;
    for byte in bytes {
        blank &= *byte == 0;
    }
    blank
}

// Where the bytes of a parameter start in the image.
// kept: (c) tried: the widths of `ROWS` before it, by `take_while` and `fold`; the goal `returns` stays open.
pub(crate) fn start_of(parameter: Parameter) -> usize
    ensures start { result ≡ start_of parameter }
{
    match parameter {
        Parameter::OwnPollingGroup => 0,
        Parameter::RadioAcknowledge => 1,
        Parameter::RelayRouteStatus => 2,
        Parameter::RelayRoute => 3,
        Parameter::PollingRoute => 22,
        Parameter::GroupNumber => 263,
        Parameter::PollingTime => 264,
        Parameter::UserTimeOut => 265,
        Parameter::ExchangeStatus => 266,
        Parameter::SwitchMode => 267,
    }
}

// Puts a value into its field, and 0 into the bytes that it does not use.
fn put(field: &mut [u8], value: &[u8])
    requires { length value.now ≤ length field.old }
    ensures put { field.new ≡ value.now ++ replicate (length field.old - length value.now) 0 }
{
    let used = value.len();
    let end = field.len();
    field[0..used].copy_from_slice(value);
    field[used..end].fill(0);
}

// Writes a lawful value into the values at hand and into the image that opens to them; otherwise nothing changes.
fn keep(table: &mut TableStore, image: &mut [u8], number: u8, value: &[u8]) -> Result<(), Unlawful>
    requires { OpensTo image.old (table_held table.old) }
    ensures taken { is_ok result ≡ lawful number value.now }
    ensures held { (p : Parameter) → table_held table.new p ≡ after_write (table_held table.old) number value.now p }
    ensures step { OpensTo image.new (table_held table.new) }
{
    let row = row_of(number).ok_or(Unlawful)?;
    table.write(number, value)?;
    let start = start_of(row.parameter);
    let end = start + row.lawful.width();
    put(&mut image[start..end], value);
    Ok(())
}

impl<'a> Store for ImageStore<'a> {
    ghost use Rattle.parameters.specs.ImageStores.{InStep};

    ghost held = { λ store. table_held store.table };

    ghost sound = { λ store. table_sound store.table };

    ghost over = { λ store _. InStep store };

    fn length(&self, number: u8) -> usize {
        self.table.length(number)
    }

    fn byte(&self, number: u8, place: usize) -> Option<u8> {
        self.table.byte(number, place)
    }

    fn write(&mut self, number: u8, value: &[u8]) -> Result<(), Unlawful> {
        keep(&mut self.table, self.image, number, value)
    }
}
