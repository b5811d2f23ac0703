// Putting bytes, numbers and their low bytes behind what a buffer holds. What finds no room is left out.
ghost use Rattle.std.specs.Prelude.{◌≡◌, [], ◌∷◌, ◌≤◌, length, min, decimal};
ghost use Rattle.octets.specs.Buffers.{joined, laid_over};
ghost use Rattle.octets.specs.Words.{low_bytes};

use super::Buffer;

impl Buffer {
    pub fn new() -> Buffer
        ensures { result ≡ [] }
    {
        Buffer {
            bytes: [0; 112],
            count: 0,
        }
    }

    pub fn as_slice(&self) -> &[u8]
        ensures value { result.now ≡ self.now }
        ensures fits { length result.now ≤ 112 }
    {
        &self.bytes[..self.count]
    }

    pub fn byte(&mut self, b: u8)
        ensures { self.new ≡ joined self.old (b ∷ []) }
    {
        self.text(&[b]);
    }

    pub fn text(&mut self, bytes: &[u8])
        ensures { self.new ≡ joined self.old bytes.now }
    {
        let n = bytes.len().min(112 - self.count);
        self.bytes[self.count..self.count + n].copy_from_slice(&bytes[..n]);
        self.count += n;
    }

    // The decimal digits of n.
    pub fn number(&mut self, n: u64)
        ensures { self.new ≡ joined self.old (decimal n) }
    {
        self.text(itoa::Buffer::new().format(n).as_bytes());
    }

    // The low N bytes of n, the lowest first; all eight where N is above 8.
    pub fn low<const N: usize>(&mut self, n: u64)
        ensures { self.new ≡ joined self.old (low_bytes N n) }
    {
        let bytes = n.to_le_bytes();
        self.text(&bytes[..N.min(8)]);
    }

    // Writes what is held over the front of the output, as far as that goes, and answers how many bytes were written.
    // What lies behind them stays as found.
    pub fn lay_over(&self, out: &mut [u8]) -> usize
        ensures value { result ≡ min (length self.now) (length out.old) }
        ensures after { out.new ≡ laid_over self.now out.old }
    {
        let bytes = self.as_slice();
        let n = bytes.len().min(out.len());
        out[..n].copy_from_slice(&bytes[..n]);
        n
    }
}
