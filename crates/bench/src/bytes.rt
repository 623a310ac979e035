// Words of a script as bytes and numbers.
use super::mistake::{Mistake, Wanted};
use hex::FromHex;
use std::alloc::Global;
use std::iter;

// The bytes that some words stand for.
pub fn bytes_of<'a>(heap: Global, words: &[&'a str]) -> Result<Vec<u8>, Mistake<'a>> {
    let mut bytes = Vec::with_capacity(heap, words.len())?;
    for &word in words {
        match word.split_once('*') {
            None => add_pairs(word, &mut bytes)?,
            Some((pair, count)) => {
                let byte = byte_of(pair)?;
                bytes.extend(iter::repeat_n(byte, number_of(count)?))?;
            }
        }
    }
    Ok(bytes)
}

// Adds a byte for every two digits of a word, read where they are to stand.
fn add_pairs<'a>(word: &'a str, bytes: &mut Vec<u8>) -> Result<(), Mistake<'a>> {
    let start = bytes.len();
    bytes.resize(start + word.len() / 2, 0)?;
    hex::decode_to_slice(word, &mut bytes[start..]).map_err(|_| Mistake::Word(word, Wanted::Bytes))
}

// The byte that two digits stand for.
pub fn byte_of(word: &str) -> Result<u8, Mistake<'_>> {
    <[u8; 1] as FromHex>::from_hex(word)
        .map(u8::from_be_bytes)
        .map_err(|_| Mistake::Word(word, Wanted::Byte))
}

// The mode that four digits stand for.
pub fn mode_of(word: &str) -> Result<u16, Mistake<'_>> {
    <[u8; 2] as FromHex>::from_hex(word)
        .map(u16::from_be_bytes)
        .map_err(|_| Mistake::Word(word, Wanted::Mode))
}

// The number that decimal digits stand for, from 0 to 65535.
pub fn short_of(word: &str) -> Result<u16, Mistake<'_>> {
    word.parse::<u16>()
        .map_err(|_| Mistake::Word(word, Wanted::Number))
}

// The same as a count.
pub fn number_of(word: &str) -> Result<usize, Mistake<'_>> {
    short_of(word).map(usize::from)
}
