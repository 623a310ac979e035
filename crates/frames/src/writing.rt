// Writing a frame into memory.
ghost use Rattle.std.specs.Prelude.{◌≡◌, ◌+◌, length as long, IfOk};
ghost use Rattle.frames.specs.Refusals.{cause as cause_of};
ghost use Rattle.frames.specs.Writing.{write_cause, Written};

use super::crc::crc;
use super::frame::{AROUND_DATA, COUNTED, ETX, MOST_DATA, STX, SYNC};
use super::refusal::Refusal;

// Writes the frame of a command and its data to the start of the memory, and answers its length.
// kept: (a) CMD and data and no `&Frame`: the call is public, and data that a frame cannot carry are refused by it.
pub fn write(memory: &mut [u8], cmd: u8, data: &[u8]) -> Result<usize, Refusal>
    ensures refused { cause_of result ≡ write_cause (long «data».now) (long memory.old) }
    ensures written { Written cmd «data».now memory.old memory.new result }
    ensures answered { IfOk result (λ n. n ≡ long «data».now + 7) }
{
    let count = data.len();
    if count > MOST_DATA {
        return Err(Refusal::DataTooLong);
    }
    if memory.len() < count + AROUND_DATA {
        return Err(Refusal::MemoryShort);
    }
    memory[0] = SYNC;
    memory[1] = STX;
    memory[2] = (count + COUNTED) as u8;
    memory[3] = cmd;
    memory[4..count + 4].copy_from_slice(data);
    let [low, high] = crc(&memory[2..count + 4]).to_le_bytes();
    memory[count + 4] = low;
    memory[count + 5] = high;
    memory[count + 6] = ETX;
    Ok(count + AROUND_DATA)
}
