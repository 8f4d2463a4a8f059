//! Reads calls of a book of forwarded payments, each a line of named numbers (names.rt), and prints a line for each:
//! what it answers. checks/fuzz/book makes such calls at random; stdin and stdout have a payment over a middle node and
//! worked rows. Amounts are millisatoshis. `verdict` is what hooks say: 5 to hold, a failure's code, else to go on.
#![tactic(auto)]

mod answers;
mod calls;
mod ends;
mod many;
mod names;
mod node;
mod onion;
mod payments;
mod show;

use calls::call;
use node::Node;
use std::alloc::Global;
use std::io;
use std::io::{BufRead, BufReader, BufWriter, Write};

/// Calls a new node's book, and the ends of its channels, line by line.
fn run<R: BufRead + Drop, W: Write>(alloc: Global, reader: R, out: &mut W) -> io::Result<()> {
    let mut node = Box::new(alloc, Node::new(alloc)?)?;
    let mut number = 0u64;
    for line in reader.lines(alloc) {
        number = number.wrapping_add(1);
        let told = call(alloc, &mut node, number, &line?)?;
        out.write_all(told.as_bytes())?;
        out.write_all(b"\n")?;
    }
    out.flush()
}

fn main(rt: HostRuntime) -> io::Result<()> {
    let alloc = rt.alloc();
    let reader = BufReader::new(alloc, rt.reader())?;
    let mut out = BufWriter::new(alloc, io::writer(&rt))?;
    run(alloc, reader, &mut out)
}
