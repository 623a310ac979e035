// Samples that run: a box around a wire, a ring that goes round, and a tape.
use crate::far_end::FarEnd;
use crate::fault_box::FaultBox;
use crate::line::Line;
use crate::refusal::Refusal;
use crate::script::Entry;
use crate::tape::Tape;
use crate::wire::Wire;

#[test]
fn a_box_around_a_wire(rt: HostRuntime) {
    let mut incoming = [0; 2];
    let mut outgoing = [0; 3];
    let mut line = FaultBox::new(Wire::new(&mut incoming, &mut outgoing));
    let script = [
        Entry {
            position: 0,
            mask: 0,
        },
        Entry {
            position: 1,
            mask: 3,
        },
    ];
    assert_eq!(rt; line.load(&script), Ok(()));
    assert_eq!(rt; line.bring(4), Ok(()));
    assert_eq!(rt; line.bring(5), Ok(()));
    assert_eq!(rt; line.take(), Some(6));
}

#[test]
fn a_ring_goes_round(rt: HostRuntime) {
    let mut outgoing = [0; 3];
    let mut line = Wire::new(&mut [], &mut outgoing);
    assert_eq!(rt; line.put(&[1, 2]), Ok(()));
    assert_eq!(rt; line.carry(), Some(1));
    assert_eq!(rt; line.put(&[3, 4]), Ok(()));
    assert_eq!(rt; line.put(&[5]), Err(Refusal::NoSpace));
    assert_eq!(rt; line.carry(), Some(2));
}

#[test]
fn a_tape_keeps_what_is_sent(rt: HostRuntime) {
    let mut tape = Tape::new(&[7, 8]);
    assert_eq!(rt; tape.take(), Some(7));
    assert_eq!(rt; tape.put(&[1, 2]), Ok(()));
    assert!(rt; tape.sent() == [1, 2].as_slice());
    tape.clear();
    assert_eq!(rt; tape.space(), 1024);
}
