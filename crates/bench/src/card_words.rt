// The commands that are said to stores and settings.
use super::bytes::{byte_of, bytes_of, mode_of, number_of};
use super::command::{SettingsCall, StoreCall};
use super::mistake::Mistake;
use super::words::Words;

impl<'w, 'a> Words<'w, 'a> {
    // What is said to a store.
    pub fn store_call(self) -> Result<Option<StoreCall>, Mistake<'a>> {
        Ok(Some(match (self.name, self.arguments) {
            ("length", [number]) => StoreCall::Length(byte_of(number)?),
            ("value", [number]) => StoreCall::Value(byte_of(number)?),
            ("byte", [number, place]) => StoreCall::Byte {
                number: byte_of(number)?,
                place: number_of(place)?,
            },
            ("set", [number, value @ ..]) => StoreCall::Set {
                number: byte_of(number)?,
                value: bytes_of(self.heap, value)?,
            },
            ("bytes", []) => StoreCall::Bytes,
            _ => return Ok(None),
        }))
    }

    // What is said to settings.
    pub fn settings_call(self) -> Result<Option<SettingsCall>, Mistake<'a>> {
        Ok(Some(match (self.name, self.arguments) {
            ("mode", _) => SettingsCall::Mode(self.optional(mode_of)?),
            ("channel", _) => SettingsCall::Channel(self.optional(byte_of)?),
            ("power", _) => SettingsCall::Power(self.optional(byte_of)?),
            _ => return Ok(None),
        }))
    }
}
