// In which form numbers name factors.
ghost use Rattle.std.specs.Prelude.{◌≡◌, ◌*◌, [], ◌∷◌, length, IfOk};
ghost use Rattle.book.specs.Forms.{width, named_calls};

use crate::fault::{Fault, Misuse};
use roots::Call;
use std::alloc::Global;

#[derive(Clone, Copy)]
pub(crate) enum Form {
    // r and f
    Seek,
    // r, f and ζ
    Adopt,
}

fn power(f: u64) -> Result<u16, Misuse>
    ensures { IfOk result (λ p. p ≡ f) }
{
    u16::try_from(f).map_err(|_| Misuse::Power { f })
}

impl Form {
    // A word that names no form is no error: it may be a number.
    pub(crate) fn named(word: &str) -> Option<Form> {
        match word {
            "seek" => Some(Form::Seek),
            "adopt" => Some(Form::Adopt),
            _ => None,
        }
    }

    // Without a name an even number of words are pairs, and any other multiple of three are triples.
    pub(crate) fn by_count(count: usize) -> Result<Form, Misuse> {
        if count % 2 == 0 {
            Ok(Form::Seek)
        } else if count % 3 == 0 {
            Ok(Form::Adopt)
        } else {
            Err(Misuse::Count)
        }
    }

    fn width(self) -> usize
        ensures { result ≡ width self }
    {
        match self {
            Form::Seek => 2,
            Form::Adopt => 3,
        }
    }

    // The call that a piece of this width names.
    fn call(self, numbers: &[u64]) -> Result<Call, Misuse>
        ensures named { IfOk result (λ call. named_calls self numbers.now ≡ call ∷ []) }
        ensures whole { IfOk result (λ _. length numbers.now ≡ width self) }
    {
        match (self, numbers) {
            (Form::Seek, &[r, f]) => Ok(Call::Seek { r, f: power(f)? }),
            (Form::Adopt, &[r, f, zeta]) => Ok(Call::Adopt {
                r,
                f: power(f)?,
                zeta,
            }),
            _ => Err(Misuse::Count),
        }
    }

    // The calls that all the numbers name; none may be left over.
    pub(crate) fn calls(self, heap: Global, numbers: &[u64]) -> Result<Vec<Call>, Fault>
        ensures named { IfOk result (λ v. v.items ≡ named_calls self numbers.now) }
        ensures whole { IfOk result (λ v. width self * length v.items ≡ length numbers.now) }
    {
        let mut calls = Vec::new(heap);
        for piece in numbers.chunks(self.width()) {
            calls.push(self.call(piece)?)?;
        }
        Ok(calls)
    }
}
