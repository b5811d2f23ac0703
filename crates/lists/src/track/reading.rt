// Reading a track.
ghost use Rattle.std.specs.Prelude.{◌≡◌, ◌↔◌, ◌<◌, IsSome, IfOk};
ghost use Rattle.lists.specs.Tracks.{Opens, mark_in, marks_from};

use super::Track;
use octets::word_at;
use refusals::Refusal;
use std::alloc::{AllocError, Global};

impl<'a> Track<'a> {
    // Checks that the bytes are laid out as a track.
    pub fn open(bytes: &'a [u8]) -> Result<Track<'a>, Refusal>
        ensures { Opens bytes.now result }
    {
        // The pattern names the bytes of the head, and binds the marks.
        let [n0, n1, n2, n3, o0, o1, o2, o3, marks @ ..] = bytes else {
            return Err(Refusal::Track);
        };
        let count = u32::from_le_bytes([*n0, *n1, *n2, *n3]);
        let offset = u32::from_le_bytes([*o0, *o1, *o2, *o3]);
        if count > 512 || offset != 8 || marks.len() != 4 * count as usize {
            return Err(Refusal::Track);
        }
        Ok(Track { bytes, count })
    }

    // How many marks there are.
    pub fn count(&self) -> u32
        ensures { result ≡ self.now.count }
    {
        self.count
    }

    // The mark of a number, from 0.
    pub fn mark(&self, number: u64) -> Option<u32>
        ensures value { result ≡ mark_in self.now.bytes.now self.now.count number }
        ensures there { IsSome result ↔ (number < self.now.count) }
    {
        if number >= u64::from(self.count) {
            return None;
        }
        word_at(self.bytes, 8 + 4 * number as usize)
    }

    // The marks, one after the other.
    pub fn marks(&self, heap: Global) -> Result<Vec<u32>, AllocError>
        ensures { IfOk result (λ v. v.items ≡ marks_from self.now.bytes.now 0 self.now.count) }
    {
        let (words, _) = self.bytes[8..].as_chunks();
        words
            .iter()
            .map(|word| u32::from_le_bytes(*word))
            .collect(heap)
    }
}
