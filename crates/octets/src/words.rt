// Words in bytes.
ghost use Rattle.std.specs.Prelude.{◌≡◌};
ghost use Rattle.octets.specs.Words.{word_in};

// The word whose low byte stands at the given place, if all its four bytes are there.
pub fn word_at(bytes: &[u8], at: usize) -> Option<u32>
    ensures { result ≡ word_in bytes.now at }
{
    let word = bytes.get(at..)?.first_chunk()?;
    Some(u32::from_le_bytes(*word))
}
