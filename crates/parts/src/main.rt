// Reads a book from standard input and prints each of its parts: where it begins, what it is, and its bytes.
#![tactic(auto)]

use books::{Book, Part};
use std::io::Read;

fn print_part(rt: &HostRuntime, part: Part) -> anyhow::Result<()> {
    let (at, name, bytes) = match part {
        Part::Head(at, bytes) => (at, "head", bytes),
        Part::Offset(at, bytes) => (at, "offset", bytes),
        Part::Record(at, bytes) => (at, "record", bytes),
    };
    print!(rt; "{at} {name}")?;
    for b in bytes {
        print!(rt; " {b:02x}")?;
    }
    println!(rt; "")?;
    Ok(())
}

fn print_parts(rt: &HostRuntime, bytes: &[u8]) -> anyhow::Result<()> {
    match Book::open(bytes) {
        Ok(book) => {
            // the head, and for each record its offset and itself; a book has at most eight
            for part in (0..17).map_while(|k| book.part(k)) {
                print_part(rt, part)?;
            }
        }
        Err(why) => println!(rt; "book refused {}", why.number())?,
    }
    Ok(())
}

fn run(rt: &HostRuntime) -> anyhow::Result<()> {
    let mut input = Vec::new(rt.alloc());
    rt.stdin().read_to_end(&mut input)?;
    print_parts(rt, input.as_slice())
}

fn main(rt: HostRuntime) -> anyhow::Result<()> {
    run(&rt)
}
