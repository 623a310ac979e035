// A ring of bytes in memory that its maker hands over: no byte is moved to make room.
ghost use Rattle.std.specs.Prelude.{◌≤◌, length};

use crate::refusal::Refusal;

// The first byte stands at `head`, and `len` bytes follow one another from there, round the end of the memory.
// kept: (d) no model: its view would be a pair, the bytes held and how many can be, and each clause would take it apart.
// kept: (a) a length beside the memory: its maker hands the memory over, and no collection lies in lent memory.
// A head at the end of the memory stands for its start.
#[derive(Drop)]
pub(crate) struct Ring<'a> {
    memory: &'a mut [u8],
    head: usize,
    len: usize,
    ghost begins: { head ≤ length memory.now },
    ghost within: { len ≤ length memory.now },
}

impl<'a> Ring<'a> {
    ghost use Rattle.std.specs.Prelude.{◌≡◌, ◌+◌, ◌<◌, ◌≤◌, [], ◌∷◌, length};
    ghost use Rattle.lines.specs.Queues.{FirstOut, AllIn};
    ghost use Rattle.lines.specs.Rings.{held, ring_size};

    // An empty ring over the whole memory.
    pub(crate) fn new(memory: &'a mut [u8]) -> Self
        ensures empty { held result ≡ [] }
        ensures sized { ring_size result ≡ length memory.old }
    {
        Ring {
            memory,
            head: 0,
            len: 0,
        }
    }

    // How many more bytes the ring can hold.
    pub(crate) fn room(&self) -> usize
        ensures left { result + length (held self.now) ≡ ring_size self.now }
    {
        self.memory.len() - self.len
    }

    // The oldest byte, which is then gone, or none.
    pub(crate) fn pop(&mut self) -> Option<u8>
        ensures popped { FirstOut (held self.old) result (held self.new) }
        ensures sized { ring_size self.new ≡ ring_size self.old }
    {
        if self.len == 0 {
            return None;
        }
        let first = self.place(0);
        let oldest = self.memory[first];
        self.head = first + 1;
        self.len -= 1;
        Some(oldest)
    }

    // Adds the whole stretch behind the last byte, or refuses it whole.
    pub(crate) fn append(&mut self, bytes: &[u8]) -> Result<(), Refusal>
        ensures appended { AllIn (ring_size self.old) (held self.old) bytes.now result (held self.new) }
        ensures sized { ring_size self.new ≡ ring_size self.old }
    {
        if self.room() < bytes.len() {
            return Err(Refusal::NoSpace);
        }
        let len = self.len;
        let start = self.place(len);
        let (straight, round) = bytes.split_at(bytes.len().min(self.memory.len() - start));
        self.memory[start..start + straight.len()].copy_from_slice(straight);
        self.memory[0..round.len()].copy_from_slice(round);
        self.len += bytes.len();
        Ok(())
    }

    // Adds one byte behind the last, or refuses it: a byte that comes alone is not worth two copies of a stretch.
    pub(crate) fn push(&mut self, byte: u8) -> Result<(), Refusal>
        ensures appended { AllIn (ring_size self.old) (held self.old) (byte ∷ []) result (held self.new) }
        ensures sized { ring_size self.new ≡ ring_size self.old }
    {
        if self.room() == 0 {
            return Err(Refusal::NoSpace);
        }
        let len = self.len;
        let end = self.place(len);
        self.memory[end..end + 1].copy_from_slice(&[byte]);
        self.len += 1;
        Ok(())
    }

    // The place that `i` bytes from the head on lead to, round the end of the memory.
    fn place(&self, i: usize) -> usize
        requires { i ≤ ring_size self.now }
        ensures straight { self.now.head + i < ring_size self.now → result ≡ self.now.head + i }
        ensures round { ring_size self.now ≤ self.now.head + i → result + ring_size self.now ≡ self.now.head + i }
    {
        let to_end = self.memory.len() - self.head;
        if i < to_end {
            self.head + i
        } else {
            i - to_end
        }
    }
}
