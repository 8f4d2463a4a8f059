//! The lines, one by one.

use crate::asking::must;
use crate::ends::ALL;
use crate::names::{COUNTS, names_of};
use crate::node::{Driven, ToyNode};
use crate::row::Row;
use crate::words::{
    BAD, at, bytes, comes_in, command, end, left, node, parties, party, saying, signing, small,
    text_at, wanted,
};
use ln_channel::Command;
use ln_named_lines::{first_fault, number_of, words_of};
use ln_refusals::Refusal;
use ln_tests_ends::{End, FEE, is_refused, wide};
use std::alloc::{AllocError, Global};
use std::net::{Net, TcpListener, TcpStream};
use std::sync::Wait;
use std::sync::atomic::Ordering;
use std::thread::Threads;

impl<N, R> Row<N, R>
where
    N: Driven + Drop,
    R: Net<Listener = TcpListener, Stream = TcpStream> + Threads + Wait + Copy + Send + 'static,
{
    // Who is paid waits for it, unless the line says otherwise.
    fn pays(&self, verb: &str, words: &[&str]) -> Result<(), Refusal> {
        let (payer, payee, block) = parties(words)?;
        let preimage = at(words, "preimage");
        if verb == "payments" {
            return self.asks_to_pay_all(payer, payee, preimage, at(words, "count"), block);
        }
        if at(words, "unasked") == 0 {
            self.expect(payee, preimage)?;
        }
        if verb == "ask" {
            return self.asks_to_pay(payer, preimage, block, wanted(words)?);
        }
        let fee = FEE.saturating_sub(at(words, "short_msat"));
        self.pay(payer, preimage, block, fee)
    }

    fn orders(&self, end: End, words: &[&str]) -> Result<(), Refusal> {
        let wanted = wanted(words)?;
        self.asks(end, command(self.alloc, words)?, wanted)
    }

    // A channel signs alone from now on, or is refused by the number that the line names.
    fn signs_alone_by(&self, node: usize, channel: usize, words: &[&str]) -> Result<(), Refusal> {
        let done = self.signs_alone(node, channel);
        match number_of(words, "refused") {
            Some(number) => must(is_refused(&done, small(number)?)),
            None => done,
        }
    }

    fn loses(&self, end: End, words: &[&str]) -> Result<(), Refusal> {
        let comes = comes_in(words)?;
        let left = self.proxy(end)?.proxy.left(comes != end.connects);
        left.store(at(words, "message"), Ordering::SeqCst);
        Ok(())
    }

    fn burns(&self, end: End, words: &[&str]) -> Result<(), Refusal> {
        let leaves_new = left(words)?;
        let gauge = self.gauge(end)?;
        gauge.leaves_new.store(leaves_new, Ordering::SeqCst);
        gauge.next_save.store(at(words, "save"), Ordering::SeqCst);
        Ok(())
    }

    // What a line has an end do that names nothing else.
    fn does(&self, verb: &str, end: End) -> Result<(), Refusal> {
        match verb {
            "cut" => self.cut(end),
            "part" => {
                self.proxy(end)?.proxy.parted.store(1, Ordering::SeqCst);
                self.cut(end)
            }
            "join" => {
                self.proxy(end)?.proxy.parted.store(0, Ordering::SeqCst);
                Ok(())
            }
            "shut" => {
                self.gauge(end)?.shuts.store(1, Ordering::SeqCst);
                Ok(())
            }
            "bury" => self.buries(end),
            "fill" => self.fill(end),
            "hook" => self.hook(end),
            "skips" => self.passes(end),
            _ => Err(BAD),
        }
    }

    // What it has an end do, or done to it.
    fn acts(&self, verb: &str, end: End, words: &[&str]) -> Result<(), Refusal> {
        match verb {
            "says" => {
                let says = saying(words)?;
                self.gauge(end)?.says.store(says, Ordering::SeqCst);
                Ok(())
            }
            "order" => self.orders(end, words),
            "resume" => self.resume(end, at(words, "held")),
            "fee" => self.insist(end, Command::Fee(wide(at(words, "rate")))),
            "close" => self.close(end, bytes(self.alloc, words, "script")?),
            "stranger" => {
                self.meets_stranger(end, bytes(self.alloc, words, "bytes")?.as_slice())
            }
            "lose" => self.loses(end, words),
            "burn" => self.burns(end, words),
            "spoil" => self.spoil(end, left(words)?),
            "deny" => self.deny(end, at(words, "loads")),
            verb => self.does(verb, end),
        }
    }

    fn counts_so(&self, verb: &str, end: End, name: &str, wanted: u64) -> Result<(), Refusal> {
        match verb {
            "most" => must(self.count(end, name)? <= wanted),
            "tells" => must(self.count(end, name)? == wanted),
            "comes" => self.comes(end, name, wanted),
            _ => self.wait(end, name, wanted),
        }
    }

    // Each count of an end is so that a line names: one at least.
    fn counts(&self, verb: &str, end: End, names: &[&str], words: &[&str]) -> Result<(), Refusal> {
        if words.len() < 2 {
            return Err(BAD);
        }
        for name in names {
            if let Some(wanted) = number_of(words, name) {
                self.counts_so(verb, end, name, wanted)?;
            }
        }
        Ok(())
    }

    // What is so of an end, or what it does.
    fn act_of_end(&self, verb: &str, end: End, words: &[&str]) -> Result<(), Refusal> {
        match verb {
            "wait" | "comes" | "tells" | "most" => self.counts(verb, end, &COUNTS, words),
            "shows" => self.wait_for(end, text_at(words, "state")),
            "hears" => self.hears(end, text_at(words, "notice"), at(words, "number")),
            "took" => self.takes_script(end, text_at(words, "script")),
            "offers" => self.offers(end, small(at(words, "feature"))?),
            "silent" => self.is_silent(end),
            verb => self.acts(verb, end, words),
        }
    }

    // What is so of a node, or of a channel of it.
    fn act_of_node(&self, verb: &str, node: usize, words: &[&str]) -> Result<(), Refusal> {
        let channel = usize::from(small(at(words, "channel"))?);
        match verb {
            "lists" => self.lists(&ALL, node),
            "trace" => self.trace(node, at(words, "steps")),
            "alone" => self.signs_alone_by(node, channel, words),
            "summary" => self.refuses(node, channel, small(at(words, "refused"))?),
            "reconnect" => self.reconnect(node, channel, small(at(words, "refused"))?),
            _ => self.lacks(node, channel, at(words, "order")),
        }
    }

    // What leaves the row as it is.
    fn act_by(&self, verb: &str, words: &[&str]) -> Result<(), Refusal> {
        match verb {
            "confirm" => self.confirm(),
            "looks" => {
                for _ in 0..at(words, "count") {
                    self.look();
                }
                Ok(())
            }
            "rests" => {
                for _ in 0..at(words, "count") {
                    self.pause();
                }
                Ok(())
            }
            "pay" | "send" | "ask" | "payments" => self.pays(verb, words),
            "expect" => {
                let (payee, _) = party(text_at(words, "payee"))?;
                self.expect(payee, at(words, "preimage"))
            }
            "lists" | "trace" | "alone" | "summary" | "reconnect" | "lacks" => {
                self.act_of_node(verb, node(words)?, words)
            }
            verb => self.act_of_end(verb, end(words)?, words),
        }
    }
}

// That the line of this number is refused.
fn refused(alloc: Global, number: u64, refusal: Refusal) -> Result<String, AllocError> {
    let refused = refusal.number();
    format!(in alloc; "line {number} refused {refused}")
}

// What is wrong with its words; None where nothing is.
fn fault_of(
    alloc: Global,
    number: u64,
    verb: &str,
    words: &[&str],
) -> Result<Option<String>, AllocError> {
    let Some(names) = names_of(verb) else {
        return Ok(Some(refused(alloc, number, BAD)?));
    };
    match first_fault(&names, words) {
        Some(fault) => Ok(Some(fault.text(alloc, number)?)),
        None => Ok(None),
    }
}

impl<R> Row<ToyNode, R>
where
    R: Net<Listener = TcpListener, Stream = TcpStream> + Threads + Wait + Copy + Send + 'static,
{
    fn act(&mut self, verb: &str, words: &[&str]) -> Result<(), Refusal> {
        match verb {
            "listen" => self.listen(small(at(words, "accepted"))?),
            "wants" => {
                self.wanted = small(at(words, "feature"))?;
                Ok(())
            }
            "meet" => self.meet(),
            "open" => {
                self.meet()?;
                self.confirm()
            }
            "fourth" => self.fourth(),
            "restart" => self.restart(node(words)?),
            "signing" => {
                self.set_signing(signing(words)?);
                Ok(())
            }
            "stop" => {
                self.stop();
                Ok(())
            }
            verb => self.act_by(verb, words),
        }
    }

    fn serve_by(
        &mut self,
        alloc: Global,
        number: u64,
        verb: &str,
        words: &[&str],
    ) -> Result<Option<String>, AllocError> {
        if let Some(fault) = fault_of(alloc, number, verb, words)? {
            return Ok(Some(fault));
        }
        match self.act(verb, words) {
            Ok(()) => Ok(None),
            Err(refusal) => Ok(Some(refused(alloc, number, refusal)?)),
        }
    }

    /// None once what the line of this number says has come about. Else what is wrong: the line's first fault, or the
    /// number by which it is refused.
    pub fn serve(
        &mut self,
        alloc: Global,
        number: u64,
        line: &str,
    ) -> Result<Option<String>, AllocError> {
        let words = words_of(alloc, line)?;
        match words.as_slice() {
            [verb, values @ ..] if *verb != "#" => self.serve_by(alloc, number, verb, values),
            _ => Ok(None),
        }
    }
}
