//! Payments that wait: an interceptor holds them, the node starts again, and a program resumes each (each wait is
//! bounded).

ghost use Rattle.std.specs.Prelude.{◌≤◌};

use super::{nodes, payment};
use crate::pair::{Driven, ToyNode, loopback, register, stopped, wait_for_use};
use ln_channel::Command;
use ln_hooks::{Call, ChannelEvent, FailureCode, Hook, HookTable, How, Verdict};
use ln_keys::{ToyKeys, ToyOnion, sha256_32};
use ln_log::Mark;
use ln_msgs::channel_id;
use ln_node::{Greeting, HeldHtlc, Node, Notice, Stored};
use ln_refusals::Refusal;
use ln_store::MemoryStore;
use ln_toy_channels::{KEYS, POLICY, TXIDS};
use std::alloc::Global;
use std::net::{Net, SocketAddr, TcpListener, TcpStream};
use std::process::Abort;
use std::sync::atomic::{AtomicU64, Ordering};
use std::sync::{Arc, Wait};
use std::test::*;
use std::thread;
use std::thread::Threads;

/// A hook that has each payment that comes in wait.
fn interceptor(alloc: Global) -> Result<Hook, Refusal> {
    let call: Call = Box::new(alloc, |event: &ChannelEvent| -> Verdict {
        match event {
            ChannelEvent::Added { own: false, .. } => Verdict::Hold,
            _ => Verdict::Continue,
        }
    })?;
    Ok(Hook::new(call))
}

/// The node of this store, which starts again. The interceptor stands in the table from the start: an event that isn't
/// decided yet is told at once.
fn restarted<R>(
    rt: R,
    alloc: Global,
    keys: ToyKeys,
    store: MemoryStore,
    address: SocketAddr,
) -> Result<ToyNode, Refusal>
where
    R: Net<Listener = TcpListener, Stream = TcpStream> + Threads + Wait + Copy + Send + 'static,
{
    let mut table = HookTable::new(alloc);
    if table.register(interceptor(alloc)?).is_err() {
        return Err(Refusal::Memory);
    }
    let mut stored = Vec::new(alloc);
    stored.push(Stored {
        keys,
        store,
        table,
        address: Some(address),
    })?;
    Node::restore(rt, alloc, ToyOnion, POLICY, Greeting::usual(alloc)?, stored)
}

/// How many blocks before its expiry a payment fails that still waits.
const MARGIN: u32 = 20;

/// Looks at what is held, as at each new block, of a height of at most 400,000,000: what times out soon fails, what was
/// approved goes on, all else waits.
fn look<R: Wait>(
    rt: &R,
    alloc: Global,
    node: &ToyNode,
    height: u32,
    approved: &[[u8; 32]],
) -> Result<(), Refusal>
    requires { height ≤ 400000000 }
{
    node.book().lock(rt).set_height(height);
    for (channel, htlc) in node.held(rt, alloc)? {
        let verdict = if htlc.expiry <= height.saturating_add(MARGIN) {
            Verdict::Fail(FailureCode::ExpiryTooSoon)
        } else if approved.contains(&htlc.hash) {
            Verdict::Continue
        } else {
            continue;
        };
        node.resume(rt, alloc, channel, htlc.number, verdict)?;
    }
    Ok(())
}

// ---- the test of it

/// How often the test looks, until it gives up.
const TURNS: u64 = 1_000_000;

/// What became of the payer's HTLCs, by id.
#[derive(Drop)]
struct Outcomes {
    all: [AtomicU64; 3],
}

/// It was fulfilled.
const FULFILLED: u64 = 1;

/// It has failed with expiry_too_soon (BOLT 4, "Failure Messages").
const TOO_SOON: u64 = 2;

/// Something else.
const OTHER: u64 = 3;

fn outcome_of(how: &How) -> u64 {
    match how {
        How::Fulfilled(_) => FULFILLED,
        How::Failed(reason) => {
            if reason.as_slice() == [0x10, 0x0e, 0, 0].as_slice() {
                TOO_SOON
            } else {
                OTHER
            }
        }
        How::Malformed(_, _) => OTHER,
    }
}

impl Outcomes {
    fn new(alloc: Global) -> Result<Arc<Outcomes>, Refusal> {
        let all = [AtomicU64::new(0), AtomicU64::new(0), AtomicU64::new(0)];
        Ok(Arc::new(alloc, Outcomes { all })?)
    }

    fn at(&self, event: &ChannelEvent) {
        if let ChannelEvent::Settled { own: true, id, how } = event {
            if *id < 3 {
                self.all[*id as usize].store(outcome_of(how), Ordering::SeqCst);
            }
        }
    }

    fn all(&self) -> [u64; 3] {
        let [first, second, third] = &self.all;
        [
            first.load(Ordering::SeqCst),
            second.load(Ordering::SeqCst),
            third.load(Ordering::SeqCst),
        ]
    }
}

/// A hook that keeps what becomes of its channel's HTLCs.
fn keeper(alloc: Global, outcomes: &Arc<Outcomes>) -> Result<Hook, Refusal> {
    let outcomes = Arc::try_clone(outcomes)?;
    let call: Call = Box::new(alloc, move |event: &ChannelEvent| -> Verdict {
        outcomes.at(event);
        Verdict::Continue
    })?;
    Ok(Hook::new(call))
}

/// The preimages of three payments.
const PREIMAGES: [[u8; 32]; 3] = [[1; 32], [2; 32], [3; 32]];

/// What the test has a node do with payments that wait: calls of `Node`, and `look`.
trait Holding: Driven {
    /// Tells its book a height, and three payments to expect.
    fn expect<R: Wait>(&self, rt: &R) -> Result<(), Refusal>;

    fn held<R: Wait>(&self, rt: &R, alloc: Global) -> Result<Vec<(usize, HeldHtlc)>, Refusal>;

    fn resume<R: Wait>(
        &self,
        rt: &R,
        alloc: Global,
        channel: usize,
        number: u64,
        verdict: Verdict,
    ) -> Result<Mark, Refusal>;

    fn look<R: Wait>(
        &self,
        rt: &R,
        alloc: Global,
        height: u32,
        approved: &[[u8; 32]],
    ) -> Result<(), Refusal>
        requires { height ≤ 400000000 };

    /// Connects its channel with the one that listens, if that does.
    fn connect_with<R>(&self, rt: &R, listening: &Self) -> Result<(), Refusal>
    where
        R: Net<Stream = TcpStream> + Wait;
}

impl Holding for ToyNode {
    fn expect<R: Wait>(&self, rt: &R) -> Result<(), Refusal> {
        let mut book = self.book().lock(rt);
        book.set_height(100);
        for preimage in PREIMAGES {
            book.expect(preimage, [8; 32], 70_000)?;
        }
        Ok(())
    }

    fn held<R: Wait>(&self, rt: &R, alloc: Global) -> Result<Vec<(usize, HeldHtlc)>, Refusal> {
        self.held(rt, alloc)
    }

    fn resume<R: Wait>(
        &self,
        rt: &R,
        alloc: Global,
        channel: usize,
        number: u64,
        verdict: Verdict,
    ) -> Result<Mark, Refusal> {
        self.resume(rt, alloc, channel, number, verdict)
    }

    fn look<R: Wait>(
        &self,
        rt: &R,
        alloc: Global,
        height: u32,
        approved: &[[u8; 32]],
    ) -> Result<(), Refusal> {
        look(rt, alloc, self, height, approved)
    }

    fn connect_with<R>(&self, rt: &R, listening: &ToyNode) -> Result<(), Refusal>
    where
        R: Net<Stream = TcpStream> + Wait,
    {
        match listening.address(0) {
            Some(address) => self.reconnect(rt, 0, address),
            None => Ok(()),
        }
    }
}

/// What a node tells as held by its notices, after others; and whether it has refused an order.
fn receive<N: Holding, R: Wait>(
    rt: &R,
    alloc: Global,
    node: &N,
    told: &mut Vec<(usize, u64)>,
) -> Result<bool, Refusal> {
    let mut refused = false;
    for (channel, notice) in node.notices(rt, alloc) {
        match notice {
            Notice::Held(number) => told.push((channel, number))?,
            Notice::OrderRefused(..) => refused = true,
            _ => {}
        }
    }
    Ok(refused)
}

/// The payer offers a payment and signs it, and the payee signs, until it has told one more as held and lists it. Where
/// it was too early to sign, it does so again: one order at a time, so that no notice is lost after more of them than
/// are kept.
fn offer<N: Holding, R: Wait>(
    rt: &R,
    alloc: Global,
    payer: &N,
    payee: &N,
    preimage: &[u8; 32],
    told: &mut Vec<(usize, u64)>,
) -> Result<(), Refusal> {
    let before = told.len();
    let mut offered = false;
    let mut is_due = true;
    for _ in 0..TURNS {
        if told.len() > before && payee.held(rt, alloc)?.len() > before {
            break;
        }
        if !offered {
            offered = payer.order(rt, 0, payment(alloc, preimage)?).is_ok();
        }
        if is_due {
            let _ = payer.order(rt, 0, Command::Sign);
            is_due = payee.order(rt, 0, Command::Sign).is_err();
        }
        thread::yield_now();
        is_due = receive(rt, alloc, payee, told)? || is_due;
    }
    Ok(())
}

/// Both sign what isn't signed, until this has become of the HTLCs. False where that doesn't come about.
fn wait_for<N: Holding, R: Wait>(
    rt: &R,
    payer: &N,
    payee: &N,
    outcomes: &Outcomes,
    wanted: [u64; 3],
) -> bool {
    for turn in 0..TURNS {
        if outcomes.all() == wanted {
            return true;
        }
        if turn % 64 == 0 {
            let _ = payer.order(rt, 0, Command::Sign);
            let _ = payee.order(rt, 0, Command::Sign);
        }
        thread::yield_now();
    }
    false
}

/// Whether these payments are what a node holds, in their order: each was told by the event of its id's number.
fn holds<N: Holding, R: Wait>(
    rt: &R,
    alloc: Global,
    node: &N,
    ids: &[u64],
) -> Result<bool, Refusal> {
    let mut expected = Vec::new(alloc);
    for id in ids {
        expected.push((
            0,
            HeldHtlc {
                channel: channel_id(&TXIDS[0], 0),
                number: *id,
                id: *id,
                amount: 70_000,
                hash: sha256_32(&PREIMAGES[(*id % 3) as usize]),
                expiry: 400,
            },
        ))?;
    }
    Ok(node.held(rt, alloc)?.as_slice() == expected.as_slice())
}

/// Whether a payment is resumed so that it is fulfilled.
fn is_fulfilled<N: Holding, R: Wait>(
    rt: &R,
    alloc: Global,
    node: &N,
    channel: usize,
    number: u64,
    verdict: Verdict,
) -> Result<bool, Refusal> {
    let mark = node.resume(rt, alloc, channel, number, verdict)?;
    Ok(matches!(mark, Mark::Fulfil(_)))
}

/// What becomes of the payer's payments is kept, and the payee's interceptor has them wait.
fn hooked<R: Wait>(
    rt: &R,
    alloc: Global,
    payer: &ToyNode,
    payee: &ToyNode,
    outcomes: &Arc<Outcomes>,
) -> Result<(), Refusal> {
    register(rt, payer, 0, keeper(alloc, outcomes)?)?;
    register(rt, payee, 0, interceptor(alloc)?)
}

/// Three payments are held, and told so; the first is resumed by this thread, and comes. What isn't held, or is being
/// resumed, or is to be held again, is refused (40).
fn begins<N: Holding, R: Wait + Abort>(
    rt: &R,
    alloc: Global,
    payer: &N,
    payee: &N,
    outcomes: &Outcomes,
) -> Result<(), Refusal> {
    payee.expect(rt)?;
    assert!(rt; wait_for_use(rt, payer, payee, true));
    let mut told = Vec::new(alloc);
    for preimage in &PREIMAGES {
        offer(rt, alloc, payer, payee, preimage, &mut told)?;
    }
    assert!(rt; told.as_slice() == [(0, 0), (0, 1), (0, 2)].as_slice());
    assert!(rt; holds(rt, alloc, payee, &[0, 1, 2])?);
    assert!(rt; is_fulfilled(rt, alloc, payee, 0, 0, Verdict::Continue)?);
    assert!(rt; holds(rt, alloc, payee, &[1, 2])?);
    for (channel, number, verdict) in [
        (0, 0, Verdict::Continue),
        (0, 1, Verdict::Hold),
        (0, 3, Verdict::Continue),
        (1, 1, Verdict::Continue),
    ] {
        let answer = is_fulfilled(rt, alloc, payee, channel, number, verdict);
        assert!(rt; answer == Err(Refusal::NotReady));
    }
    assert!(rt; holds(rt, alloc, payee, &[1, 2])?);
    assert!(rt; wait_for(rt, payer, payee, outcomes, [FULFILLED, 0, 0]));
    Ok(())
}

/// The others are still held after the restart. One is approved, and comes; one waits until its expiry is near, and
/// fails.
fn goes_on<N, R>(
    rt: &R,
    alloc: Global,
    payer: &N,
    payee: &N,
    outcomes: &Outcomes,
) -> Result<(), Refusal>
where
    N: Holding,
    R: Net<Listener = TcpListener, Stream = TcpStream> + Wait + Abort,
{
    assert!(rt; holds(rt, alloc, payee, &[1, 2])?);
    payee.expect(rt)?;
    payer.connect_with(rt, payee)?;
    payee.look(rt, alloc, 100, &[sha256_32(&PREIMAGES[1])])?;
    assert!(rt; holds(rt, alloc, payee, &[2])?);
    assert!(rt; wait_for(rt, payer, payee, outcomes, [FULFILLED, FULFILLED, 0]));
    payee.look(rt, alloc, 379, &[])?;
    assert!(rt; holds(rt, alloc, payee, &[2])?);
    payee.look(rt, alloc, 380, &[])?;
    assert!(rt; holds(rt, alloc, payee, &[])?);
    assert!(rt; wait_for(rt, payer, payee, outcomes, [FULFILLED, FULFILLED, TOO_SOON]));
    assert!(rt; holds(rt, alloc, payee, &[])?);
    Ok(())
}

/// The payee starts again from its store, and goes on.
fn restarts<R>(
    rt: R,
    alloc: Global,
    payer: &ToyNode,
    payee: ToyNode,
    outcomes: &Outcomes,
) -> Result<(), Refusal>
where
    R: Net<Listener = TcpListener, Stream = TcpStream>
        + Threads
        + Wait
        + Abort
        + Copy
        + Send
        + 'static,
{
    let [_, keys, _, _] = KEYS;
    let mut stores = payee.into_stores(rt, alloc)?;
    let Some(store) = stores.pop() else {
        return Err(Refusal::NotReady);
    };
    let payee = restarted(rt, alloc, keys, store, loopback())?;
    let done = goes_on(&rt, alloc, payer, &payee, outcomes);
    stopped(rt, payee);
    done
}

/// Opens the channel, and plays it all.
fn plays<R>(rt: R, alloc: Global) -> Result<(), Refusal>
where
    R: Net<Listener = TcpListener, Stream = TcpStream>
        + Threads
        + Wait
        + Abort
        + Copy
        + Send
        + 'static,
{
    let outcomes = Outcomes::new(alloc)?;
    let (payee, payer) = nodes(rt, alloc)?;
    let hooked = hooked(&rt, alloc, &payer, &payee, &outcomes);
    let begun = begins(&rt, alloc, &payer, &payee, &outcomes);
    let done = restarts(rt, alloc, &payer, payee, &outcomes);
    stopped(rt, payer);
    hooked?;
    begun?;
    done
}

#[test]
fn holds_and_resumes(rt: HostRuntime) -> Result<(), Fail> {
    match plays(rt, rt.alloc()) {
        Ok(()) => Ok(()),
        Err(_) => Err("refused".into()),
    }
}
