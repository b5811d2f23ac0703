// Loading a book: its records are adopted and its fourth root is given in a draft of its own, which is closed.
ghost use Rattle.std.specs.Prelude.{◌≡◌, ◌++◌, IfOk};
ghost use Rattle.roots.specs.Laws.{adopting, giving_fourth};
ghost use Rattle.books.specs.Layout.{offset};
ghost use Rattle.books.specs.Loading.{Begins, Fills, bound, bound_in, loaded, records};
ghost use Rattle.books.specs.RoundTrip.{Reached};
ghost use Rattle.books.specs.Writing.{book_of};

use crate::book::Book;
use fields::Residues;
use refusals::Refusal;
use ring::Ring;
use roots::{Draft, Plan, is_served};

// A new draft over the residues, unless the modulus is out of range or not served.
fn begin(modulus: u64) -> Result<Draft<Residues>, Refusal>
    ensures { Begins modulus result }
{
    let field = Residues::new(modulus)?;
    if !is_served(field.size()) {
        return Err(Refusal::Size);
    }
    Ok(Draft::start(field))
}

// Adopts the records in order, up to the first that is refused. By number, since record k is what stands at its own offset.
fn adopt_records(draft: &mut Draft<Residues>, book: &Book) -> Result<(), Refusal>
    ensures value { Fills draft.old (adopting (records book.now.bytes.now (offset book.now.count 0) book.now.count)) result draft.new }
    ensures field { draft.new.field ≡ draft.old.field }
{
    for k in 0..book.count() {
        let factor = book.factor(k).ok_or(Refusal::Layout)?;
        draft.adopt(factor.r, factor.f, factor.zeta)?;
    }
    Ok(())
}

// Gives the fourth root, if there is one.
fn give_fourth(draft: &mut Draft<Residues>, fourth: Option<u32>) -> Result<(), Refusal>
    ensures value { Fills draft.old (giving_fourth fourth) result draft.new }
    ensures field { draft.new.field ≡ draft.old.field }
{
    if let Some(root) = fourth {
        draft.give(u64::from(root))?;
    }
    Ok(())
}

// All that a book asks of a draft.
fn fill(draft: &mut Draft<Residues>, book: &Book) -> Result<(), Refusal>
    ensures value { Fills draft.old (adopting (records book.now.bytes.now (offset book.now.count 0) book.now.count) ++ giving_fourth book.now.fourth) result draft.new }
    ensures field { draft.new.field ≡ draft.old.field }
{
    adopt_records(draft, book)?;
    give_fourth(draft, book.fourth())
}

// The plan that a book holds, or the first refusal. What is loaded is what some list of calls leaves, and is written back in the same bytes.
pub fn load_book(bytes: &[u8]) -> Result<Plan<Residues>, Refusal>
    ensures value { bound_in result ≡ loaded bytes.now }
    ensures reached { IfOk result (λ p. Reached (bound p).0 (bound p).1) }
    ensures back { IfOk result (λ p. book_of (bound p).0 (bound p).1 ≡ bytes.now) }
{
    let book = Book::open(bytes)?;
    let mut draft = begin(u64::from(book.modulus()))?;
    fill(&mut draft, &book)?;
    Ok(draft.close())
}
