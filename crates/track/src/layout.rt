// The bytes of a track.
ghost use Rattle.std.specs.Prelude.{◌≡◌, ◌++◌, IfOk, OnOk};
ghost use Rattle.octets.specs.Words.{word};
ghost use Rattle.track.specs.Tracks.{track_of};

use std::alloc::{AllocError, Global};

// The low four bytes of n, which is a count too: no type says that one fits a u32.
fn put_word(bytes: &mut Vec<u8>, n: u64) -> Result<(), AllocError>
    ensures { OnOk result (bytes.new.items ≡ bytes.old.items ++ word n) }
{
    let word = n.to_le_bytes();
    bytes.extend_from_slice(&word[..4])
}

// How many marks, where the first begins, and the marks.
pub(crate) fn track_bytes(heap: Global, marks: &[u32]) -> Result<Vec<u8>, AllocError>
    ensures { IfOk result (λ v. v.items ≡ track_of marks.now) }
{
    let mut bytes = Vec::new(heap);
    put_word(&mut bytes, marks.len() as u64)?;
    put_word(&mut bytes, 8)?;
    for mark in marks {
        put_word(&mut bytes, u64::from(*mark))?;
    }
    Ok(bytes)
}
