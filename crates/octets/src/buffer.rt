// A buffer that holds up to 112 bytes: the longest book has 16 + 12 × 8, the longest line fewer.
mod writing;

use std::marker::Model;

// An array and a count, as a vector of the library would be no `Copy`.
#[derive(Clone, Copy)]
pub struct Buffer {
    bytes: [u8; 112],
    count: usize,
}

// Contracts see a buffer as the bytes that it holds. The places behind them are 0, so that the bytes held tell the whole buffer, as what is `Copy` must.
impl Model for Buffer {
    ghost use Rattle.std.specs.Prelude.{◌≡◌, ◌-◌, ◌≤◌, ◌++◌, ℕ, List, length, take, drop, replicate};
    ghost use Rattle.std.proofs.Common.{arith, ap, sym, ◌∙◌, take-append-drop, length-take-le};

    ghost Value = { List ℕ };

    ghost view = { λ b. take b.count b.bytes };

    ghost invariant = { λ b. (b.count ≤ 112) × (length b.bytes ≡ 112) × (drop b.count b.bytes ≡ replicate (112 - b.count) 0) };

    ghost inverse = { λ held. record { bytes = held ++ replicate (112 - length held) 0; count = length held } };

    ghost inverse_ok = { λ b h i. record {
      bytes = (ap (λ n. take b.count b.bytes ++ replicate (112 - n) 0) (length-take-le b.count b.bytes (omega (arith, h.0, h.1)))
          ∙ ap (λ zeros. take b.count b.bytes ++ zeros) (sym h.2) ∙ take-append-drop b.count b.bytes) i;
      count = length-take-le b.count b.bytes (omega (arith, h.0, h.1)) i;
    } };
}
