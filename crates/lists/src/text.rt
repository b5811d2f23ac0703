// The texts of a list, put together in a buffer.
// Not by `write!`: its contract says what is written only where it succeeds, and not that it does, so no line would have a proved value.
ghost use Rattle.std.specs.Prelude.{◌≡◌, []};
ghost use Rattle.octets.specs.Buffers.{joined};
ghost use Rattle.books.specs.Loading.{bound};
ghost use Rattle.lists.specs.Texts.{noted, text_of_head, text_of_refused, answer_text, outcome_text, refusal_text, text_of_mark};

use fields::Residues;
use octets::Buffer;
use refusals::Refusal;
use ring::Ring;
use roots::{Answer, Plan};

// Some words and a number.
fn put(line: &mut Buffer, words: &[u8], n: u64)
    ensures { line.new ≡ joined line.old (noted words.now n) }
{
    line.text(words);
    line.number(n);
}

fn put_answer(line: &mut Buffer, answer: Answer)
    ensures { line.new ≡ joined line.old (answer_text answer) }
{
    let ((place, other), (joinings, tests)) = answer;
    put(line, b" place ", place);
    put(line, b" other ", other);
    put(line, b" joinings ", joinings);
    put(line, b" tests ", tests);
}

// The number of the refusal; for 14 also the step of rooting.
fn put_refusal(line: &mut Buffer, why: Refusal)
    ensures { line.new ≡ joined line.old (refusal_text why) }
{
    put(line, b" refused ", u64::from(why.number()));
    if let Refusal::Unlawful { step, .. } = why {
        put(line, b" step ", u64::from(step));
    }
}

fn put_outcome(line: &mut Buffer, outcome: Result<Answer, Refusal>)
    ensures { line.new ≡ joined line.old (outcome_text outcome) }
{
    match outcome {
        Ok(answer) => put_answer(line, answer),
        Err(why) => put_refusal(line, why),
    }
}

// The line of a mark: its number, the mark, and what it was rooted to.
pub(crate) fn mark_text(number: u64, mark: u64, outcome: Result<Answer, Refusal>) -> Buffer
    ensures { result ≡ joined [] (text_of_mark number mark outcome) }
{
    let mut line = Buffer::new();
    line.number(number);
    line.byte(b' ');
    line.number(mark);
    put_outcome(&mut line, outcome);
    line.byte(b'\n');
    line
}

// What a plan holds, as the head line says it.
pub(crate) fn head_text(plan: &Plan<Residues>) -> Buffer
    ensures { result ≡ joined [] (text_of_head (bound plan.now).0 (bound plan.now).1) }
{
    let mut line = Buffer::new();
    put(&mut line, b"modulus ", plan.field().size());
    put(&mut line, b" rest ", plan.rest());
    put(&mut line, b" factors ", plan.factors().len() as u64);
    line.byte(b'\n');
    line
}

// That the book or the track was refused.
pub(crate) fn refused_text(words: &[u8], why: Refusal) -> Buffer
    ensures { result ≡ joined [] (text_of_refused words.now why) }
{
    let mut line = Buffer::new();
    put(&mut line, words, u64::from(why.number()));
    line.byte(b'\n');
    line
}
