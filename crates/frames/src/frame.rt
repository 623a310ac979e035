// A frame that was read: its command and its data.
ghost use Rattle.std.specs.Prelude.{◌≡◌, ◌≤◌, length};

mod parts;

// A frame begins with SYNC and STX, and ends with ETX.
pub(crate) const SYNC: u8 = 0xFF;

pub(crate) const STX: u8 = 0x02;

pub(crate) const ETX: u8 = 0x03;

// The most DATA bytes that a frame can carry.
pub const MOST_DATA: usize = 250;

// The bytes of a frame around its DATA: SYNC, STX, LENGTH, CMD, two of the check value, ETX.
pub const AROUND_DATA: usize = 7;

// How many bytes the longest frame has.
pub const LONGEST: usize = MOST_DATA + AROUND_DATA;

// What LENGTH counts besides the DATA: itself, CMD and the check value.
pub(crate) const COUNTED: usize = 4;

// The LENGTH of the longest frame.
pub(crate) const MOST_LENGTH: usize = MOST_DATA + COUNTED;

// kept: (a) no model: that of a `Copy` type may forget nothing, and a frame's data forgets the rest of its array.
#[derive(Clone, Copy)]
pub struct Frame {
    cmd: u8,
    // kept: (a) no `ArrayVec<u8, 250>`, which is not Copy, as a frame is; and no Vec, since a pulse hands frames out in fixed memory
    count: usize,
    bytes: [u8; MOST_DATA],
    ghost few: { count ≤ 250 },
    ghost whole: { length bytes ≡ 250 },
}
