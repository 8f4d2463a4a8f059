//! Reads lines that drive the two links of one channel, each over a store in memory, and prints a line for each: what
//! the link answers. checks/fuzz/links makes such lines at random; stdin and stdout have openings, payments, closes,
//! strangers' messages, saves that fail, records and held payments. `end` is A, the funder's, or B. names.rt has the
//! names that each line gives a value. Amounts are millisatoshis.
//!
//! | Line | What happens |
//! |---|---|
//! | `made`, `new`, `ready` | new ends; they are connected too; the channel is ready |
//! | `again end=A` | as `new`, and this end has the store of before |
//! | `add end=A amount=5000 expiry=400 preimage=7`, .. | the end does what it is told: commands.rt has all of these |
//! | `decide end=A event=3 mark=held`, `resume ..` | it decides an event, or resumes one, by a mark of commands.rt |
//! | `deliver`, `pass` | the end takes the oldest message in flight to it; both take what there is, in turn |
//! | `front` | the oldest message in flight to the end |
//! | `give end=A bytes=0013,00x32` | the end takes these bytes, in hexadecimal; `00x32` is one part, so many times |
//! | `connect`, `up`, `drop` | the end gets a connection; both do; the end loses it |
//! | `halt`, `load` | the end halts; it comes back from its record |
//! | `fails end=A after=3 record=old`, .. `new` | the save after three others fails, and leaves that record |
//! | `record`, `store end=A bytes=..` | the SHA-256 of the record; other bytes in its place, after the channel's id |
//! | `ledger`, `shape` | what the end's record says of events and results; of its base and window |
//! | `stand`, `pending` | where the end stands; the events that it hasn't decided |
#![tactic(auto)]

mod calls;
mod channel;
mod commands;
mod end;
mod line;
mod names;
mod opening;
mod show;

use calls::call;
use std::alloc::Global;
use std::io;
use std::io::{BufRead, BufReader, BufWriter, Write};

/// Drives links line by line, from none at first.
fn run<R: BufRead + Drop, W: Write>(alloc: Global, reader: R, out: &mut W) -> io::Result<()> {
    let mut ends = Vec::new(alloc);
    let mut number = 0u64;
    for line in reader.lines(alloc) {
        number = number.wrapping_add(1);
        let told = call(alloc, &mut ends, number, &line?)?;
        out.write_all(told.as_bytes())?;
        out.write_all(b"\n")?;
    }
    out.flush()
}

fn main(rt: HostRuntime) -> io::Result<()> {
    let alloc = rt.alloc();
    let reader = BufReader::new(alloc, rt.reader())?;
    let mut out = BufWriter::new(alloc, io::writer(&rt))?;
    run(alloc, reader, &mut out)
}
