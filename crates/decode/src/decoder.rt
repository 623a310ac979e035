// Bytes of a capture to lines of text.
ghost use Rattle.std.specs.Prelude.{◌<◌, ◌≤◌, length};

use super::tally::Tally;
use super::text::Text;
use super::{command, hex};
use frames::finding::{Cause, Finding};
use frames::frame::{AROUND_DATA, Frame};
use frames::reader::Reader;
use std::alloc::{AllocError, Global};

#[derive(Drop)]
pub struct Decoder {
    reader: Reader,
    tally: Tally,
    lines: Text,
}

impl Decoder {
    pub fn new() -> Decoder {
        Decoder {
            reader: Reader::new(),
            tally: Tally::new(),
            lines: Text::new(),
        }
    }

    // Gathers a line for each thing that a stretch of the capture completes, until no line more has room; answers what
    // of the stretch is left to read.
    pub fn read<'a>(&mut self, stretch: &'a [u8]) -> &'a [u8]
        ensures within { length result.now ≤ length stretch.now }
        ensures some { 0 < length stretch.now → length result.now < length stretch.now }
    {
        self.lines.clear();
        let mut rest = stretch;
        while !rest.is_empty() && self.lines.has_room() {
            let (finding, used) = self.reader.read(rest);
            rest = &rest[used..];
            self.tally.bytes = self.tally.bytes.saturating_add(used as u64);
            if let Some(finding) = &finding {
                self.note(finding);
            }
        }
        rest
    }

    // The lines that the last stretch gave.
    pub fn lines(&self) -> &[u8] {
        self.lines.as_bytes()
    }

    fn note(&mut self, finding: &Finding) {
        match finding {
            Finding::Frame(frame) => self.note_frame(frame),
            Finding::Dropped { cause, size } => self.note_drop(*cause, *size as u64),
        }
    }

    // kept: (b) by `write!` the lines of a capture of 64 MiB take 314 ms, slower than plain Rust (299 ms), which is the bar; by these digits 273.
    fn note_frame(&mut self, frame: &Frame) {
        let data = frame.data();
        let size = (data.len() + AROUND_DATA) as u64;
        self.tally.frame(frame.cmd(), size);
        self.push_place(size);
        self.lines.push(b"  frame  ");
        self.lines.push(&hex::digits(frame.cmd()));
        self.lines.push(b" ");
        self.lines.push(command::name(frame.cmd()).as_bytes());
        if !data.is_empty() {
            self.lines.push(b" ");
            self.lines.push_hex(data);
        }
        self.lines.push(b"\n");
    }

    fn note_drop(&mut self, cause: Cause, size: u64) {
        self.tally.drop(cause, size);
        self.push_place(size);
        self.lines.push(b"  drop   ");
        self.lines.push(text_of(cause).as_bytes());
        self.lines.push(b", ");
        self.lines.push(itoa::Buffer::new().format(size).as_bytes());
        self.lines.push(b" bytes\n");
    }

    // The place of the first byte of a finding of this size, which ends where the reading stands: eight hexadecimal
    // digits or, in a very long capture, sixteen.
    fn push_place(&mut self, size: u64) {
        let place = self.tally.bytes.saturating_sub(size);
        let high = (place >> 32) as u32;
        if high > 0 {
            self.lines.push(&hex::eight_digits(high));
        }
        self.lines
            .push(&hex::eight_digits((place & 0xFFFF_FFFF) as u32));
    }

    // The lines that sum the capture up.
    pub fn summary(&self, heap: Global) -> Result<String, AllocError> {
        let tally = &self.tally;
        let held = self.reader.held() as u64;
        let mut lines = String::new(heap);
        writeln!(lines, "bytes: {}", tally.bytes)?;
        writeln!(lines, "frames: {}", tally.all_frames())?;
        for (cmd, count) in (0..=u8::MAX).zip(&tally.frames) {
            if *count > 0 {
                let name = command::name(cmd);
                writeln!(lines, "  {cmd:02X} {name}: {count}")?;
            }
        }
        writeln!(lines, "drops: {}", tally.all_drops())?;
        for cause in [Cause::Length, Cause::End, Cause::Check] {
            let count = tally.drops[cause as usize];
            writeln!(lines, "  {}: {count}", text_of(cause))?;
        }
        writeln!(lines, "bytes of noise: {}", tally.noise(held))?;
        writeln!(lines, "bytes of an unfinished candidate: {held}")?;
        Ok(lines)
    }
}

fn text_of(cause: Cause) -> &'static str {
    match cause {
        Cause::Length => "L wrong length",
        Cause::End => "E no end byte",
        Cause::Check => "C wrong check value",
    }
}
