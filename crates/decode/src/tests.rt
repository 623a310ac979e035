// Bad use, bad text and the names of all commands, which a run of the program in the gate cannot show.
use super::arguments::{BadUse, Task, parse};
use super::command::{self, NAMES};
use super::failure::Failure;
use super::hex::{HexFault, HexText};
use std::test::Fail;

#[test]
fn reads_hex_in_stretches(rt: HostRuntime) {
    let heap = rt.alloc();
    let mut bytes = Vec::new(heap);
    let mut text = HexText::new();
    assert!(rt; text.read(b"fF 0", &mut bytes).is_ok());
    assert!(rt; matches!(text.end(), Err(HexFault::OddDigit)));
    assert!(rt; text.read(b"2\n", &mut bytes).is_ok());
    assert!(rt; text.end().is_ok());
    assert!(rt; matches!(bytes.as_slice(), [0xFF, 0x02]));
    assert!(rt;
        matches!(
            text.read(b"0x", &mut bytes),
            Err(Failure::Hex(HexFault::NoDigit {
                place: 8,
                found: b'x'
            }))
        )
    );
}

#[test]
fn refuses_bad_use(rt: HostRuntime) -> Result<(), Fail> {
    let heap = rt.alloc();
    let good = vec![in heap; String::from_str(heap, "--hex")?]?;
    assert!(rt; matches!(parse(good)?, Task::Decode(_)));
    let bad = vec![in heap;
        String::from_str(heap, "--hex")?,
        String::from_str(heap, "--loud")?,
    ]?;
    assert!(rt; matches!(parse(bad), Err(BadUse::UnknownOption(_))));
    Ok(())
}

#[test]
fn finds_each_name(rt: HostRuntime) {
    for (number, name) in &NAMES {
        assert_eq!(rt; command::name(*number), *name);
    }
    let nameless = (0..=u8::MAX).filter(|number| NAMES.iter().all(|row| row.0 != *number));
    for number in nameless {
        assert_eq!(rt; command::name(number), "unknown");
    }
}
