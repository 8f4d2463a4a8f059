//! Nodes in a program of yours: two open a channel over loopback, and one pays the other; then both start again, with
//! the channel that their files have, and one pays once more.
#![tactic(auto)]

use ln_bytes::{Bytes, ShortId};
use ln_channel::{Command, Config, ConnectionState, FitConfig, FitSpec, OpenSpec, Points};
use ln_forward::{Payload, Payment, Policy, write_payload};
use ln_hooks::{Call, ChannelEvent, Hook, HookTable, How, Verdict};
use ln_keys::{ToyKeys, ToyOnion, sha256_32};
use ln_log::Limits;
use ln_msgs::Records;
use ln_node::{
    Answer, ChannelState, ChannelSummary, Counters, Decided, Greeting, Node, Signing, Stored, Table,
};
use ln_refusals::Refusal;
use ln_sqlite::FileRecords;
use ln_store::RecordStore;
use ln_trace::{LoggedStore, log_trace};
use log::sink::Console;
use log::{Level, Log, Logged, info};
use std::alloc::Global;
use std::net::{Net, SocketAddr, TcpListener, TcpStream};
use std::process::ExitCode;
use std::rt::Clock;
use std::sync::atomic::{AtomicU64, Ordering};
use std::sync::{Arc, Wait};
use std::thread;
use std::thread::Threads;
use std::time::Duration;

/// Keys and onions are services that you hand in; these are toys, for tests.
type MyNode<S, H, T> = Node<ToyKeys, S, ToyOnion, H, T>;

// The seeds, the funding's id, the preimage and the secret have to be random, or yours: lnlink makes none.
const PAYER: ToyKeys = ToyKeys {
    seed: [1; 32],
    tag: [2; 32],
    peer_tag: [3; 32],
};

const PAYEE: ToyKeys = ToyKeys {
    seed: [4; 32],
    tag: [3; 32],
    peer_tag: [2; 32],
};

const TXID: [u8; 32] = [9; 32];

const PREIMAGE: [u8; 32] = [7; 32];

const SECRET: [u8; 32] = [8; 32];

/// What is paid, in millisatoshi.
const AMOUNT: u64 = 70_000;

/// How many steps of a node are kept until they are logged.
const STEPS: u64 = 10_000;

/// Where the funding output stands on the chain.
const PLACE: ShortId = ShortId {
    block: 1,
    tx: 1,
    output: 0,
};

const POLICY: Policy = Policy {
    base: 1000,
    proportional: 100,
    delta: 40,
};

const POINT: [u8; 33] = [2; 33];

/// What a side asks for: values that usual peers take.
fn config(alloc: Global) -> Config {
    Config {
        limits: Limits {
            minimum: 1,
            accepted: 30,
            in_flight: 1_000_000_000_000,
            reserve: 10_000,
        },
        chain_hash: [0; 32],
        dust_limit: 546,
        to_self_delay: 144,
        minimum_depth: 3,
        points: Points {
            funding_pubkey: POINT,
            revocation_basepoint: POINT,
            payment_basepoint: POINT,
            delayed_payment_basepoint: POINT,
            htlc_basepoint: POINT,
        },
        first: 300,
        least: 200,
        greatest: 400,
        script: Bytes::empty(alloc),
    }
}

fn fit_config(alloc: Global) -> Result<FitConfig, Refusal> {
    let config = config(alloc);
    if config.fits() && config.unusual().is_none() {
        Ok(FitConfig::new(config))
    } else {
        Err(Refusal::NotReady)
    }
}

/// The channel: 1,000,000 satoshi of the funder's.
fn fit_spec(alloc: Global) -> Result<FitSpec, Refusal> {
    let spec = OpenSpec {
        config: config(alloc),
        funding: 1_000_000,
        push: 0,
        feerate: 253,
        flags: 0,
        temporary_id: TXID,
        txid: TXID,
        output: 0,
        records: Records::empty(alloc),
    };
    if spec.fits() && spec.unusual().is_none() {
        Ok(FitSpec::new(spec))
    } else {
        Err(Refusal::NotReady)
    }
}

/// The payment. Its onion tells the payee what its invoice asks for (BOLT 4, "`payload` Format").
fn payment(alloc: Global) -> Result<Command, Refusal> {
    let asked = Payload {
        amount: Some(AMOUNT),
        expiry: Some(400),
        next: None,
        payment: Some(Payment {
            secret: SECRET,
            total: AMOUNT,
        }),
    };
    let mut payloads = Vec::new(alloc);
    payloads.push(Bytes::new(write_payload(alloc, &asked)?))?;
    let hash = sha256_32(&PREIMAGE);
    let Some(onion) = ToyOnion::make(payloads.as_slice(), &hash) else {
        return Err(Refusal::TooLong);
    };
    Ok(Command::Add {
        amount: AMOUNT,
        hash,
        expiry: 400,
        onion,
        origin: None,
    })
}

/// Logs what a node's channels hold, and what it has counted.
fn log_state<L: Log>(log: &L, channels: &[ChannelSummary], counters: &Counters) {
    for channel in channels {
        info!(*log; own = channel.own_balance, peer = channel.peer_balance; "balances");
    }
    info!(*log; taken = counters.decided(Decided::Fulfil), saves = counters.saves(); "counted");
}

/// The two nodes. Which stores `S`, hooks `H` and tables `T` they have is said in `begin` alone: what is generic is
/// proved quickly.
#[derive(Drop)]
struct Nodes<'a, S: Drop, H: Drop, T: Drop, R: Drop> {
    rt: R,
    host: &'a HostRuntime,
    payer: MyNode<S, H, T>,
    payee: MyNode<S, H, T>,
}

impl<'a, S, H, T, R> Nodes<'a, S, H, T, R>
where
    S: RecordStore + Drop + Send + 'static,
    H: Drop + Send + 'static,
    T: Table<H> + Drop + Send + 'static,
    R: Net<Listener = TcpListener, Stream = TcpStream>
        + Threads
        + Wait
        + Log
        + Copy
        + Send
        + 'static,
{
    /// Two nodes without channels.
    fn new(rt: R, host: &'a HostRuntime) -> Result<Nodes<'a, S, H, T, R>, Refusal> {
        Ok(Nodes {
            rt,
            host,
            payer: Node::new(
                host.alloc(),
                ToyOnion,
                POLICY,
                Greeting::usual(host.alloc())?,
            )?,
            payee: Node::new(
                host.alloc(),
                ToyOnion,
                POLICY,
                Greeting::usual(host.alloc())?,
            )?,
        })
    }

    /// Two nodes with the channel that their stores have a record of. The payee listens at any port.
    fn load(
        rt: R,
        host: &'a HostRuntime,
        stores: (S, S),
        tables: (T, T),
    ) -> Result<Nodes<'a, S, H, T, R>, Refusal> {
        let alloc = host.alloc();
        let (of_payer, of_payee) = stores;
        let (payers, payees) = tables;
        let payer = restored(rt, alloc, PAYER, of_payer, payers, None)?;
        match restored(rt, alloc, PAYEE, of_payee, payees, Some(any_port())) {
            Ok(payee) => Ok(Nodes {
                rt,
                host,
                payer,
                payee,
            }),
            Err(refusal) => {
                payer.stop(rt);
                Err(refusal)
            }
        }
    }

    /// The payee listens at any port, and the payer connects: channel 0 of both.
    fn open(&mut self, stores: (S, S), tables: (T, T)) -> Result<(), Refusal> {
        let (rt, alloc) = (self.rt, self.host.alloc());
        let (of_payer, of_payee) = stores;
        let (payers, payees) = tables;
        let config = fit_config(alloc)?;
        let address = self
            .payee
            .listen(rt, alloc, PAYEE, config, of_payee, payees, any_port())?;
        let spec = fit_spec(alloc)?;
        self.payer
            .connect(rt, alloc, PAYER, spec, of_payer, payers, address)
    }

    /// The payer connects to the payee again.
    fn reconnect(&self) -> Result<(), Refusal> {
        match self.payee.address(0) {
            Some(address) => self.payer.reconnect(&self.rt, 0, address),
            None => Err(Refusal::NotReady),
        }
    }

    /// Both sign by themselves, and keep their steps.
    fn set(&mut self) {
        self.payer.set_signing(Signing::WhenIdle);
        self.payee.set_signing(Signing::WhenIdle);
        self.payer.trace(STEPS);
        self.payee.trace(STEPS);
    }

    /// Whether the payer's channel is ready, and the payee is there.
    fn is_ready(&self) -> bool {
        match self.payer.summary(&self.rt, 0) {
            Ok(summary) => {
                summary.state == ChannelState::Ready
                    && summary.connection == ConnectionState::Connected
            }
            Err(_) => false,
        }
    }

    /// Confirms the channel to a node, and waits for the answer: orders that nobody waits for would hold up messages.
    fn confirm_to(&self, node: &MyNode<S, H, T>) {
        if let Ok(ticket) = node.ask(&self.rt, 0, Command::Confirm(PLACE)) {
            let _ = node.wait_for_answer(&self.rt, ticket, 60_000);
        }
    }

    /// Confirms the channel, as its chain would, until the payer can pay. Error 65: a minute has passed, or more.
    fn confirm(&self) -> Result<(), Refusal> {
        for _ in 0..60_000 {
            if self.is_ready() {
                return Ok(());
            }
            self.confirm_to(&self.payer);
            self.confirm_to(&self.payee);
            thread::sleep(self.host, Duration::from_millis(1));
        }
        Err(Refusal::GaveUp)
    }

    /// Offers the payment, and looks each millisecond for the answer, as a program does that has more to do: the id of
    /// the HTLC. Errors: by what the link refuses it; 65: a minute has passed.
    fn offer(&self) -> Result<u64, Refusal> {
        let rt = &self.rt;
        let Ok(ticket) = self.payer.ask(rt, 0, payment(self.host.alloc())?) else {
            return Err(Refusal::GaveUp);
        };
        for _ in 0..60_000 {
            match self.payer.answer(rt, ticket) {
                Answer::Pending => thread::sleep(self.host, Duration::from_millis(1)),
                Answer::Done(id) => return Ok(id),
                Answer::Refused(refusal) => return Err(refusal),
                Answer::Forgotten => break,
            }
        }
        Err(Refusal::GaveUp)
    }

    /// Pays, until `paid` tells that the payer's HTLCs up to this one are fulfilled. Error 65: a minute has passed.
    fn pay(&self, paid: &AtomicU64) -> Result<(), Refusal> {
        let rt = &self.rt;
        self.payee.book().lock(rt).set_height(100);
        self.payee.book().lock(rt).expect(PREIMAGE, SECRET, AMOUNT)?;
        self.confirm()?;
        let id = self.offer()?;
        for _ in 0..60_000 {
            if paid.load(Ordering::SeqCst) > id {
                return Ok(());
            }
            thread::sleep(self.host, Duration::from_millis(1));
        }
        Err(Refusal::GaveUp)
    }

    /// Logs what a node has done, and what it has.
    fn report(&self, name: &str, node: &MyNode<S, H, T>) {
        let (log, alloc) = (self.rt.span(name), self.host.alloc());
        log_trace(&log, &node.traced(&self.rt, alloc));
        if let Ok(channels) = node.channels(&self.rt, alloc) {
            log_state(&log, &channels, node.counters());
        }
    }

    /// Where the channel is there, pays; then stops both nodes.
    fn play(self, begun: Result<(), Refusal>, hook: H, paid: &AtomicU64) -> Result<(), Refusal> {
        let mut done = begun;
        let _ = self.payer.register_hook(&self.rt, 0, hook);
        if done.is_ok() {
            done = self.pay(paid);
        }
        self.report("payer", &self.payer);
        self.report("payee", &self.payee);
        let Nodes {
            rt,
            payer,
            payee,
            ..
        } = self;
        payer.stop(rt);
        payee.stop(rt);
        done
    }
}

/// A node that starts again with the channel that its store has a record of.
fn restored<S, H, T, R>(
    rt: R,
    alloc: Global,
    keys: ToyKeys,
    store: S,
    table: T,
    address: Option<SocketAddr>,
) -> Result<MyNode<S, H, T>, Refusal>
where
    S: RecordStore + Drop + Send + 'static,
    H: Drop + Send + 'static,
    T: Table<H> + Drop + Send + 'static,
    R: Net<Listener = TcpListener, Stream = TcpStream> + Threads + Wait + Copy + Send + 'static,
{
    let mut stored = Vec::new(alloc);
    stored.push(Stored {
        keys,
        store,
        table,
        address,
    })?;
    Node::restore(rt, alloc, ToyOnion, POLICY, Greeting::usual(alloc)?, stored)
}

/// Makes both nodes, with the channel that their stores have or with a new one, and plays. Whether it was there.
fn run<S, H, T, R>(
    rt: R,
    host: &HostRuntime,
    stores: (S, S),
    tables: (T, T),
    hook: H,
    paid: &AtomicU64,
) -> Result<bool, Refusal>
where
    S: RecordStore + Drop + Send + 'static,
    H: Drop + Send + 'static,
    T: Table<H> + Drop + Send + 'static,
    R: Net<Listener = TcpListener, Stream = TcpStream>
        + Threads
        + Wait
        + Log
        + Copy
        + Send
        + 'static,
{
    let (mut of_payer, of_payee) = stores;
    if of_payer.ids(host.alloc())?.is_empty() {
        let mut nodes: Nodes<'_, S, H, T, R> = Nodes::new(rt, host)?;
        nodes.set();
        let begun = nodes.open((of_payer, of_payee), tables);
        nodes.play(begun, hook, paid)?;
        return Ok(false);
    }
    let mut nodes: Nodes<'_, S, H, T, R> = Nodes::load(rt, host, (of_payer, of_payee), tables)?;
    nodes.set();
    let begun = nodes.reconnect();
    nodes.play(begun, hook, paid)?;
    Ok(true)
}

/// Records in two files, whose saves are logged, and a hook that tells which of the payer's payments are fulfilled.
/// Whether the files had the channel.
fn begin<R>(rt: R, host: &HostRuntime) -> Result<bool, Refusal>
where
    R: Net<Listener = TcpListener, Stream = TcpStream>
        + Threads
        + Wait
        + Log
        + Clock
        + Copy
        + Send
        + 'static,
{
    let alloc = host.alloc();
    let paid = Arc::new(alloc, AtomicU64::new(0))?;
    let count = Arc::try_clone(&paid)?;
    let call: Call = Box::new(alloc, move |event: &ChannelEvent| -> Verdict {
        if let ChannelEvent::Settled {
            id,
            how: How::Fulfilled(_),
            ..
        } = event
        {
            count.store(id.saturating_add(1), Ordering::SeqCst);
        }
        Verdict::Continue
    })?;
    let payers = LoggedStore::new(FileRecords::open(host, "payer.db")?, rt);
    let payees = LoggedStore::new(FileRecords::open(host, "payee.db")?, rt);
    let tables = (HookTable::new(alloc), HookTable::new(alloc));
    run::<LoggedStore<FileRecords, R>, Hook, HookTable, R>(
        rt,
        host,
        (payers, payees),
        tables,
        Hook::new(call),
        &paid,
    )
}

/// Any port of this machine.
fn any_port() -> SocketAddr {
    SocketAddr::from(([127, 0, 0, 1], 0))
}

/// Starts both nodes, pays and stops them, and does so again over the same files.
fn start_twice<R>(rt: R, host: &HostRuntime) -> Result<(), Refusal>
where
    R: Net<Listener = TcpListener, Stream = TcpStream>
        + Threads
        + Wait
        + Log
        + Clock
        + Copy
        + Send
        + 'static,
{
    for _ in 0..2 {
        let channel = if begin(rt, host)? { "loaded" } else { "new" };
        let _ = println!(host; "paid {AMOUNT} over the {channel} channel");
    }
    Ok(())
}

/// Logs on the standard error; with `Level::Trace` it logs messages, too.
fn main(rt: HostRuntime) -> ExitCode {
    let logged = Logged::new(rt, Level::Debug, Console(rt));
    match start_twice(logged, &rt) {
        Ok(()) => ExitCode::SUCCESS,
        Err(refusal) => {
            let _ = eprintln!(&rt; "{refusal}");
            ExitCode::FAILURE
        }
    }
}
