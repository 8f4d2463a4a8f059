//! What ends have noted, as lines ask for it: in its order.

use crate::asking::{Wanted, must};
use crate::news::{is_of_reader, is_silent, is_told_so, take_next, tells_script};
use crate::node::Driven;
use crate::row::{LOOKS, Row};
use ln_channel::Command;
use ln_node::Notice;
use ln_refusals::Refusal;
use ln_tests_ends::End;
use std::net::{Net, TcpListener, TcpStream};
use std::sync::Wait;
use std::sync::atomic::Ordering;
use std::thread::Threads;

/// In how many looks nothing is noted where an end is silent.
const SILENCE: u64 = 60;

impl<N, R> Row<N, R>
where
    N: Driven + Drop,
    R: Net<Listener = TcpListener, Stream = TcpStream> + Threads + Wait + Copy + Send + 'static,
{
    // The next notice of an end's reader, or of another thread of its channel.
    fn next_notice(&self, end: End, of_reader: bool) -> Option<Notice> {
        take_next(&mut *self.news.lock(&self.rt), end.number, of_reader)
    }

    fn last_order(&self) -> u64 {
        self.order.load(Ordering::SeqCst)
    }

    /// What an end notes next is this.
    pub fn hears(&self, end: End, word: &str, number: u64) -> Result<(), Refusal> {
        let of_reader = is_of_reader(word)?;
        for _ in 0..LOOKS {
            if let Some(notice) = self.next_notice(end, of_reader) {
                return must(is_told_so(notice, word, number, self.last_order()));
            }
            self.look();
        }
        Err(Refusal::GaveUp)
    }

    /// An end has noted nothing that no line has asked for, and notes nothing in a while.
    pub fn is_silent(&self, end: End) -> Result<(), Refusal> {
        for _ in 0..SILENCE {
            self.look();
        }
        let news = self.news.lock(&self.rt);
        must(is_silent(news.as_slice(), end.number))
    }

    // Whether an end's next notice is that its last order was refused by 40.
    fn has_passed(&self, end: End) -> bool {
        match self.next_notice(end, false) {
            Some(notice) => is_told_so(notice, "order", 40, self.last_order()),
            None => false,
        }
    }

    /// An end refuses an order: what all have noted up to then is passed over.
    pub fn passes(&self, end: End) -> Result<(), Refusal> {
        self.asks(end, Command::Forget(0), Wanted::Refused(40))?;
        for _ in 0..LOOKS {
            self.read_all_notices();
            if self.has_passed(end) {
                self.news.lock(&self.rt).clear();
                return Ok(());
            }
            self.pause();
        }
        Err(Refusal::GaveUp)
    }

    // Whether the first `shutdown` that an end was handed tells this script; none where it was handed none.
    fn told_script(&self, end: End, script: &str) -> Option<bool> {
        let taken = self.taken.lock(&self.rt);
        tells_script(taken.as_slice(), end.number, script)
    }

    /// The first `shutdown` that an end was handed, as it was traced, tells this script.
    pub fn takes_script(&self, end: End, script: &str) -> Result<(), Refusal> {
        for _ in 0..LOOKS {
            if let Some(is_told) = self.told_script(end, script) {
                return must(is_told);
            }
            self.look();
        }
        Err(Refusal::GaveUp)
    }
}
