//! Nodes of one process in a row over loopback, A and B and C, and F where a line says so, driven by lines of named
//! values (names.rt). A line is printed once it has come about; one that doesn't, or is none, is the last one, and its
//! number is printed with its first fault, or with a refusal's number. So the same is printed in every schedule. stdin
//! has payments that fail and come, lost connections, failing stores, restarts, payments that wait, closes, a node of
//! three channels, full relays, and what is noted.
//!
//! | Line | What comes about |
//! |---|---|
//! | `listen accepted=30` | new nodes, of which B and C listen: C takes 30 HTLCs at once |
//! | `wants feature=40` | new nodes want this feature of their peers, or none by 0 |
//! | `offers end=A0 feature=13` | the peer of the end has offered it |
//! | `meet`, `confirm` | A opens a channel with B, and B one with C; both are confirmed, and all ends take payments |
//! | `open` | both of these |
//! | `fourth` | F listens: B opens its third channel with it, which is confirmed |
//! | `pay payer=A preimage=1` | A offers C, or C offers A, the payment of this preimage, for which the payee waits |
//! | `send payer=A payee=F preimage=1` | the same from and to A, C or F |
//! | .. `short_msat=1`, .. `unasked=1` | so much less for B than it asks; the payee doesn't wait for it |
//! | `ask payer=A preimage=1 id=0`, .. `refused=44` | the same, and A is answered by the HTLC's id, or so refused |
//! | `order end=A0 command=sign id=0`, .. | the end is ordered to `sign`, `shut`, `fee` or `forget`, and answers so |
//! | `payments payer=A preimage=2 count=10` | A offers ten payments at once, of this preimage and the next ones |
//! | `signing when=idle`, `ordered` | all nodes sign by themselves, and nobody orders it; or they don't |
//! | `alone node=B channel=2`, .. `refused=40` | this channel of the node signs by itself; there is none |
//! | `most end=A0 signed=2` | the end's count is at most so: as with `wait` |
//! | `tells end=A0 held=1` | the end's count is so, without a wait |
//! | `comes end=A0 loaded=1` | it comes to be so while nobody is connected again or asked to sign |
//! | `fill end=B0` | it is ordered until its relay is full; each order that it took is answered by its own refusal |
//! | `bury end=A0` | the end gives 257 answers: the first is forgotten |
//! | `lacks node=A channel=0 order=7` | the node has no answer to this order of its channel |
//! | `expect payee=A preimage=4` | who is paid waits for this payment |
//! | `says end=B0 verdict=hold` | its hook says so of payments that come in: `continue`, `hold`, a failure's code |
//! | `resume end=C0 held=1` | what the end holds, so many, goes on, or fails where its hook has payments fail now |
//! | `lose end=B1 way=in message=2`, `out` | message 2 from now on to the end or from it is lost with the connection |
//! | `cut end=A0` | the end shuts its connection |
//! | `part end=A0`, `join end=A0` | the same, and none is made again; one is |
//! | `reconnect node=B channel=3 refused=40` | the node connects this channel of its own, which is so refused |
//! | `burn end=B0 save=2 record=old`, `new` | save 2 from the next `pay` or `resume` on fails, and leaves that record |
//! | `spoil end=A0 record=old`, `new` | its next save fails, and leaves that record |
//! | `deny end=A0 loads=7` | its next seven loads are refused |
//! | `restart node=A` | the node starts again from its stores |
//! | `fee end=A0 rate=300`, `shut end=A0` | the end changes the feerate; it is to shut down |
//! | `close end=B2 script=51` | the end is to shut down by this script, in hexadecimal |
//! | `took end=F0 script=51` | the first `shutdown` that the end was handed tells it |
//! | `hook end=B0` | a hook is registered for the end: `hooks` counts them |
//! | `stranger end=B0 bytes=000100` | a stranger connects with the end, and writes these bytes |
//! | `hears end=A0 notice=order number=61` | what the end notes next: news.rt; its reader notes `ended` |
//! | `silent end=A0` | the end has noted nothing more |
//! | `skips end=A0` | what all have noted is passed over, up to an order that the end refuses |
//! | `looks count=100`, `stop` | so much time passes; the nodes stop |
//! | `rests count=100` | so much time passes, while nobody is connected again or asked to sign |
//! | `wait end=A0 fulfilled=1` | it counts so: gauge.rt of ln_tests_ends; `usable`, `held`, `denied` loads, .. |
//! | | .. what its summary or its node's counters tell is so: watch.rt |
//! | `shows end=A0 state=ready` | by its summary the end is so far: see watch.rt |
//! | `lists node=B` | all summaries of the node tell of each of its channels what its own tells |
//! | `trace node=A steps=10000` | from now on so many steps of the node are kept at once |
//! | `summary node=A channel=1 refused=40` | a summary of this channel of the node is so refused |
//! | `# ..` | nothing |
//!
//! An end is A0, B0, B1, B2, C0 or F0, by its node and the number of its channel there. Amounts are millisatoshis.
//! While a line waits, lost connections are made again, and all ends sign what isn't signed. A fault is due before what
//! the lines after it wait for: both who offered a payment and B, who offered it on, have seen it removed, so that
//! nothing of it is in flight.
#![tactic(auto)]

mod asking;
mod beginning;
mod ends;
mod faults;
mod hearing;
mod lines;
mod names;
mod news;
mod node;
mod reaching;
mod row;
mod words;

use crate::node::ToyNode;
use crate::row::Row;
use std::io::{BufRead, BufReader};
use std::net::{Net, TcpListener, TcpStream};
use std::process::ExitCode;
use std::sync::Wait;
use std::thread::Threads;

// Drives nodes line by line, and prints each. False where one is refused, or can't be read.
fn drive<R, L>(host: &HostRuntime, row: &mut Row<ToyNode, R>, lines: L) -> bool
where
    R: Net<Listener = TcpListener, Stream = TcpStream> + Threads + Wait + Copy + Send + 'static,
    L: BufRead + Drop,
{
    let mut number = 0u64;
    for line in lines.lines(host.alloc()) {
        number = number.wrapping_add(1);
        let Ok(line) = line else {
            return false;
        };
        let Ok(fault) = row.serve(host.alloc(), number, line.as_str()) else {
            return false;
        };
        if let Some(fault) = fault {
            let _ = println!(host; "{fault}");
            return false;
        }
        let _ = println!(host; "{line}");
    }
    true
}

// The same from the input, and stops the nodes.
fn run<R>(rt: R, host: &HostRuntime) -> bool
where
    R: Net<Listener = TcpListener, Stream = TcpStream> + Threads + Wait + Copy + Send + 'static,
{
    let Ok(lines) = BufReader::new(host.alloc(), host.reader()) else {
        return false;
    };
    let Ok(row) = Row::new(rt, host.alloc()) else {
        return false;
    };
    let mut row: Row<ToyNode, R> = row;
    let done = drive(host, &mut row, lines);
    row.stop();
    done
}

fn main(rt: HostRuntime) -> ExitCode {
    if run::<HostRuntime>(rt, &rt) {
        ExitCode::SUCCESS
    } else {
        ExitCode::FAILURE
    }
}
