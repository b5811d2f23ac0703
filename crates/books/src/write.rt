// Writing a closed plan over residues as a book.
ghost use Rattle.std.specs.Prelude.{◌≡◌, length};
ghost use Rattle.octets.specs.Buffers.{joined};
ghost use Rattle.books.specs.Loading.{bound};
ghost use Rattle.books.specs.Output.{left_by, length_by};
ghost use Rattle.books.specs.RoundTrip.{LoadsBack};
ghost use Rattle.books.specs.Writing.{book_of, head_bytes, record_bytes, writing};

use fields::Residues;
use octets::Buffer;
use refusals::Refusal;
use ring::Ring;
use roots::{Factor, Plan, is_served};

fn put_head(buffer: &mut Buffer, modulus: u64, fourth: u64, count: u64)
    ensures { buffer.new ≡ joined buffer.old (head_bytes modulus fourth count) }
{
    buffer.low::<4>(1);
    buffer.low::<4>(modulus);
    buffer.low::<4>(fourth);
    buffer.low::<4>(count);
}

fn put_record(buffer: &mut Buffer, factor: &Factor)
    ensures { buffer.new ≡ joined buffer.old (record_bytes factor.now) }
{
    buffer.low::<2>(factor.r);
    buffer.low::<2>(u64::from(factor.f));
    buffer.low::<4>(factor.zeta);
}

// All the bytes of a plan's book: the head, where each record begins, and the records.
fn book_bytes(plan: &Plan<Residues>) -> Buffer
    ensures { result ≡ book_of (bound plan.now).0 (bound plan.now).1 }
{
    let factors = plan.factors();
    let count = factors.len() as u64;
    // in the bytes 0 stands for no fourth root
    let fourth = plan.fourth().unwrap_or(0);
    let mut buffer = Buffer::new();
    put_head(&mut buffer, plan.field().size(), fourth, count);
    for k in 0..count {
        buffer.low::<4>(16 + 4 * count + 8 * k);
    }
    for factor in factors {
        put_record(&mut buffer, factor);
    }
    buffer
}

// Writes the plan's book over the front of the output, and answers its length. What lies behind it stays as found, and a refused call writes nothing.
// The book of a plan that some list of calls has made is loaded as that plan.
pub fn write_book(plan: &Plan<Residues>, out: &mut [u8]) -> Result<usize, Refusal>
    ensures value { result ≡ length_by (writing (bound plan.now).0 (bound plan.now).1 (length out.old)) }
    ensures after { out.new ≡ left_by (writing (bound plan.now).0 (bound plan.now).1 (length out.old)) out.old }
    ensures loads { LoadsBack (bound plan.now).0 (bound plan.now).1 result out.new }
{
    if !is_served(plan.field().size()) {
        return Err(Refusal::Size);
    }
    if out.len() < 16 + 12 * plan.factors().len() {
        return Err(Refusal::Room);
    }
    Ok(book_bytes(plan).lay_over(out))
}
