// Examples of writing and reading.
use super::finding::Finding;
use super::reader::Reader;
use super::refusal::Refusal;
use super::writing::write;
use std::test::Fail;

const ACK: [u8; 7] = [0xFF, 0x02, 0x04, 0x06, 0x56, 0x02, 0x03];

#[test]
fn writes_and_refuses(rt: HostRuntime) {
    let mut memory = [0xEE; 9];
    assert_eq!(rt; write(&mut memory, 0x40, &[0x04, 0x00]), Ok(9));
    assert_eq!(rt;
        memory,
        [0xFF, 0x02, 0x06, 0x40, 0x04, 0x00, 0x8C, 0x2A, 0x03]
    );
    assert_eq!(rt;
        write(&mut memory, 0x40, &[0; 251]),
        Err(Refusal::DataTooLong)
    );
    assert_eq!(rt;
        write(&mut memory, 0x40, &[0; 3]),
        Err(Refusal::MemoryShort)
    );
    assert_eq!(rt;
        (Refusal::DataTooLong.number(), Refusal::MemoryShort.number()),
        (9, 10)
    );
}

#[test]
fn finds_a_frame_cut_in_two(rt: HostRuntime) -> Result<(), Fail> {
    let mut reader = Reader::new();
    let (finding, used) = reader.read(&ACK[0..4]);
    assert!(rt; finding.is_none());
    assert_eq!(rt; (used, reader.held()), (4, 4));
    let (finding, used) = reader.read(&ACK[4..]);
    assert_eq!(rt; (used, reader.held()), (3, 0));
    match finding {
        Some(Finding::Frame(frame)) => {
            assert_eq!(rt; (frame.cmd(), frame.data().len()), (0x06, 0));
            Ok(())
        },
        _ => Err(Fail::new("no frame")),
    }
}

#[test]
fn forgets_a_lone_sync(rt: HostRuntime) {
    let mut reader = Reader::new();
    let (_, _) = reader.read(&[0xFF]);
    assert_eq!(rt; reader.held(), 1);
    reader.forget();
    assert_eq!(rt; reader.held(), 0);
}
