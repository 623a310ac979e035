// Reading a capture in stretches and writing what it holds.
use super::arguments::{Capture, HELP, Task, parse};
use super::decoder::Decoder;
use super::failure::Failure;
use super::hex::HexText;
use std::io::{Read, Write};
use std::{env, fs, io};

// Bytes read at a time.
const STRETCH: usize = 65536;

pub fn run(rt: &HostRuntime) -> Result<(), Failure> {
    let words = arguments_of(rt).map_err(Failure::Read)?;
    match parse(words)? {
        Task::Help => rt.print(HELP).map_err(Failure::Write),
        Task::Decode(capture) => decode(rt, capture),
    }
}

// The words behind the program's name.
fn arguments_of(rt: &HostRuntime) -> io::Result<Vec<String>> {
    Ok(env::args(rt)?.skip(1).collect(rt.alloc())?)
}

fn decode(rt: &HostRuntime, capture: Capture) -> Result<(), Failure> {
    let Capture { hex, file } = capture;
    match file {
        Some(name) if name.as_str() != "-" => {
            let mut input = fs::open(rt, name.as_str()).map_err(|e| Failure::Open(name, e))?;
            decode_all(rt, &mut input, hex)
        }
        _ => decode_all(rt, &mut rt.stdin(), hex),
    }
}

fn decode_all<R: Read>(rt: &HostRuntime, input: &mut R, hex: bool) -> Result<(), Failure> {
    let heap = rt.alloc();
    let mut decoder = Decoder::new();
    let mut digits = HexText::new();
    let mut buffer = vec![in heap; 0u8; STRETCH]?;
    let mut bytes = Vec::new(heap);
    // kept: (c) a count that is never reached: a `while let` on what comes next asks for a measure, and none falls while one waits on input.
    for _ in 0..u64::MAX {
        let stretch = next_stretch(input, &mut buffer)?;
        if stretch.is_empty() {
            break;
        }
        // kept: (d) a test at each stretch and no closure: what turns digits into bytes is asked once more at the end, and its faults are passed on.
        if hex {
            bytes.clear();
            digits.read(stretch, &mut bytes)?;
            show(rt, &mut decoder, &bytes)?;
        } else {
            show(rt, &mut decoder, stretch)?;
        }
    }
    digits.end()?;
    write_out(rt, decoder.summary(heap)?.as_bytes())
}

// What the input gives next, read into the buffer; nothing at its end.
// kept: (d) an empty stretch for the end and no Option, as in the library's `read`.
fn next_stretch<'a, R: Read>(input: &mut R, buffer: &'a mut [u8]) -> Result<&'a [u8], Failure> {
    let count = input.read(buffer).map_err(Failure::Read)?;
    Ok(&buffer[..count])
}

// Decodes a stretch, writing the lines whenever no line more has room.
fn show(rt: &HostRuntime, decoder: &mut Decoder, stretch: &[u8]) -> Result<(), Failure> {
    let mut rest = stretch;
    while !rest.is_empty() {
        rest = decoder.read(rest);
        write_out(rt, decoder.lines())?;
    }
    Ok(())
}

fn write_out(rt: &HostRuntime, text: &[u8]) -> Result<(), Failure> {
    rt.stdout().write_all(text).map_err(Failure::Write)
}
