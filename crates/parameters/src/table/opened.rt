// A table store out of the bytes of an image.
ghost use Rattle.std.specs.Prelude.{◌≡◌, true, length, drop, is_ok, IfOk, if◌then◌else◌};
ghost use Rattle.parameters.specs.declared.parameter.Parameter.{Parameter};
ghost use Rattle.parameters.specs.Images.{blank, field_in, same, sound_among, sound_field, used, value_in};
ghost use Rattle.parameters.specs.Parameters.{parameters, row_for};
ghost use Rattle.parameters.specs.Tables.{table_held};

use super::super::image::start_of;
use super::super::parameter::{Parameter, ROWS, Row};
use super::super::store::Unlawful;
use super::super::value::Value;
use super::TableStore;

impl TableStore {
    // The store with the values of an image, if each field of the image is sound.
    pub(crate) fn read(image: &[u8]) -> Result<TableStore, Unlawful>
        requires { length image.now ≡ 268 }
        ensures sound { is_ok result ≡ sound_among image.now parameters }
        ensures held { IfOk result (λ table. (p : Parameter) → table_held table p ≡ value_in image.now p) }
    {
        let mut table = TableStore::new();
        for row in &ROWS {
            table.take_over(row, image)?;
        }
        Ok(table)
    }

    // Takes over the value that an image has for a parameter, if its field is sound.
    fn take_over(&mut self, row: &Row, image: &[u8]) -> Result<(), Unlawful>
        requires whole { length image.now ≡ 268 }
        requires row { row.now ≡ row_for row.now.parameter }
        ensures taken { is_ok result ≡ sound_field (row_for row.now.parameter).lawful (field_in image.now row.now.parameter) }
        ensures held { is_ok result ≡ true → (p : Parameter) → table_held self.new p ≡ (if same row.now.parameter p then value_in image.now row.now.parameter else table_held self.old p) }
    {
        of_value!(
            self,
            Some(row.parameter),
            Err(Unlawful),
            write(value_of(row.parameter, image)?)
        )
    }
}

// The value that an image has for a parameter, if its field has only 0 behind it.
// kept: (b) inlined into each arm of `of_value!`, where the parameter is known, so that its field is known there too: with one field cut out before the arms, by the row, an image of zeros opens in 1,798 instructions, so in 1,638.
#[inline(always)]
fn value_of(parameter: Parameter, image: &[u8]) -> Result<&[u8], Unlawful>
    requires { length image.now ≡ 268 }
    ensures blank { is_ok result ≡ blank (drop (used (row_for parameter).lawful (field_in image.now parameter)) (field_in image.now parameter)) }
    ensures value { IfOk result (λ value. value.now ≡ value_in image.now parameter) }
{
    let start = start_of(parameter);
    let lawful = parameter.lawful();
    let field = &image[start..start + lawful.width()];
    lawful.value_in(field).ok_or(Unlawful)
}
