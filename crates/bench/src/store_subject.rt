// Stores that answer commands.
use super::command::{Command, StoreCall};
use super::mistake::{Answer, Mistake};
use super::subject::Subject;
use super::texts::{counted, plain, shown};
use parameters::image::ImageStore;
use parameters::made::MadeStore;
use parameters::noted::{ask_byte, ask_length, write};
use parameters::store::Store;
use parameters::table::TableStore;
use std::alloc::Global;

#[derive(Drop)]
pub struct StoreSubject<S>(pub S);

// A store that may be made over bytes.
pub trait UnderlyingBytes: Store {
    // Those bytes, as they are now.
    fn underlying_bytes(&self) -> Option<&[u8]>;
}

impl UnderlyingBytes for TableStore {
    fn underlying_bytes(&self) -> Option<&[u8]> {
        None
    }
}

impl<'a> UnderlyingBytes for ImageStore<'a> {
    fn underlying_bytes(&self) -> Option<&[u8]> {
        Some(self.bytes())
    }
}

impl<'a> UnderlyingBytes for MadeStore<'a> {
    fn underlying_bytes(&self) -> Option<&[u8]> {
        Some(self.bytes())
    }
}

impl<S: UnderlyingBytes> Subject for StoreSubject<S> {
    fn answer(&mut self, heap: Global, command: &Command) -> Answer {
        let Command::Store(call) = command else {
            return Err(Mistake::NotFor("a store"));
        };
        let store = &mut self.0;
        match call {
            StoreCall::Length(number) => counted(heap, "length", ask_length(store, *number)),
            StoreCall::Value(number) => value(heap, store, *number),
            StoreCall::Byte { number, place } => shown(
                heap,
                "byte",
                ask_byte(store, *number, *place).as_slice(),
            ),
            StoreCall::Set { number, value } => set(heap, store, *number, value.as_slice()),
            StoreCall::Bytes => shown(
                heap,
                "bytes",
                store
                    .underlying_bytes()
                    .ok_or(Mistake::NotFor("a table store"))?,
            ),
        }
    }
}

// All bytes of a value, asked for one by one.
fn value<S: Store>(heap: Global, store: &S, number: u8) -> Answer {
    let bytes: Vec<u8> = (0..ask_length(store, number))
        .filter_map(|place| ask_byte(store, number, place))
        .collect(heap)?;
    shown(heap, "value", bytes.as_slice())
}

fn set<S: Store>(heap: Global, store: &mut S, number: u8, value: &[u8]) -> Answer {
    match write(store, number, value) {
        Ok(()) => plain(heap, "set"),
        Err(_) => plain(heap, "unlawful"),
    }
}
