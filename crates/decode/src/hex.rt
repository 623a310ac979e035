// Bytes as hexadecimal text, and hexadecimal text as bytes.
ghost use Rattle.std.specs.Prelude.{◌≡◌, ◌*◌, ◌<◌, length, IfSome};
ghost use Rattle.decode.specs.Hex.{hex_pair, hex_text, hex_eight, digit_value, ReadsBack};

use super::failure::Failure;
use thiserror::Error;

// kept: (b) digits by this table: with `write!` the lines of a capture of 64 MiB take 314 ms, with these 273 (see `note_frame` of the decoder).
static DIGITS: [u8; 16] = *b"0123456789ABCDEF";

// The two digits of a byte.
pub fn digits(byte: u8) -> [u8; 2]
    ensures { result ≡ hex_pair byte }
{
    [DIGITS[(byte / 16) as usize], DIGITS[(byte % 16) as usize]]
}

// Writes bytes as text, each behind a blank, over a place that they fill.
// kept: (c) `place.chunks_exact_mut(3).zip(bytes)` leaves the goal `returns` open: nothing is known of what lent chunks hold afterwards.
pub fn write_all(place: &mut [u8], bytes: &[u8])
    requires { length place.old ≡ 3 * length bytes.now }
    ensures { place.new ≡ hex_text bytes.now }
{
    for (i, byte) in bytes.iter().enumerate() {
        let [high, low] = digits(*byte);
        place[3 * i..3 * i + 3].copy_from_slice(&[b' ', high, low]);
    }
}

// A number as eight digits.
pub fn eight_digits(n: u32) -> [u8; 8]
    ensures { result ≡ hex_eight n }
{
    let [[a1, a0], [b1, b0], [c1, c0], [d1, d0]] = n.to_be_bytes().map(digits);
    [a1, a0, b1, b0, c1, c0, d1, d0]
}

// What a digit stands for. A digit that `digits` gives reads back as what it was given for.
pub fn value(digit: u8) -> Option<u8>
    ensures value { result ≡ digit_value digit }
    ensures small { IfSome result (λ n. n < 16) }
    ensures reads_back { ReadsBack }
{
    char::from(digit).to_digit(16).map(|n| n as u8)
}

// Why a hexadecimal text is no list of bytes.
#[derive(Debug, Drop, Error)]
pub enum HexFault {
    // a character that is no digit and no white space, and its place, counted from 1
    #[error("character {place} of the capture, byte 0x{found:02X}, is no hexadecimal digit")]
    NoDigit { place: u64, found: u8 },
    // a last byte of which only one digit is there
    #[error("the capture has an odd number of hexadecimal digits")]
    OddDigit,
}

// Hexadecimal text that comes in stretches: a byte's two digits may lie in two of them.
#[derive(Drop)]
pub struct HexText {
    high: Option<u8>,
    place: u64,
}

impl HexText {
    pub fn new() -> HexText {
        HexText {
            high: None,
            place: 0,
        }
    }

    // Adds the bytes that a stretch of text completes.
    pub fn read(&mut self, text: &[u8], bytes: &mut Vec<u8>) -> Result<(), Failure> {
        for c in text {
            self.place = self.place.saturating_add(1);
            if c.is_ascii_whitespace() {
                continue;
            }
            let digit = value(*c).ok_or(HexFault::NoDigit {
                place: self.place,
                found: *c,
            })?;
            match self.high.take() {
                None => self.high = Some(digit),
                Some(high) => bytes.push((high & 0x0F) << 4 | digit)?,
            }
        }
        Ok(())
    }

    // At the end of the text no digit may be left over.
    pub fn end(&self) -> Result<(), HexFault> {
        match self.high {
            None => Ok(()),
            Some(_) => Err(HexFault::OddDigit),
        }
    }
}
