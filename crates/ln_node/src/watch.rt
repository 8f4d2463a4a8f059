//! What is told of a node to who watches it.

use crate::node::Node;
use crate::trace::Trace;
use ln_keys::{ChannelKeys, Onion};
use ln_msgs::Init;
use ln_node_loops::Table;
use ln_refusals::Refusal;
use ln_store::RecordStore;
use ln_watch::{ChannelSummary, Counters};
use std::alloc::Global;
use std::io::{Read, Write};
use std::net::OpenStream;
use std::sync::Wait;

impl<K, S, O, H, T, W> Node<K, S, O, H, T, W>
where
    K: ChannelKeys + Drop + Send + 'static,
    S: RecordStore + Drop + Send + 'static,
    O: Onion + Copy + Drop + Send + 'static,
    H: Drop + Send + 'static,
    T: Table<H> + Drop + Send + 'static,
    W: Read + Write + OpenStream + Drop + Send + 'static,
{
    ghost use Rattle.std.specs.Prelude.{◌≡◌, ◌≤◌, ◌<◌, length, Err, IfOk, IfErr};
    ghost use Rattle.std.specs.List.{All};
    ghost use Rattle.ln_refusals.specs.declared.refusal.Refusal.TheVariants as refusal;
    ghost use Rattle.ln_watch.specs.Summary.{IsSummary};
    ghost use Rattle.ln_node.specs.Node.{channel_count};

    /// What is told of a channel: a copy of the summary that its worker made after its last turn. It is that of its
    /// link at one moment, also of one that is being opened, fails or has halted; it doesn't wait for a turn. An order
    /// is answered once the summary of its turn is made. Takes memory.
    ///
    /// Errors: 40 where there is no such channel; 60 where there is no memory for the copy, or there was none after
    /// that turn.
    pub fn summary<R: Wait>(&self, rt: &R, channel: usize) -> Result<ChannelSummary, Refusal>
        ensures is_that_of_a_link { IfOk result IsSummary }
        ensures refuses_where_there_is_none { channel_count self.now ≤ channel → result ≡ Err refusal.NotReady }
        ensures fails_for_memory_alone { channel < channel_count self.now → IfErr result (λ e. e ≡ refusal.Memory) }
    {
        match self.channels.get(channel) {
            None => Err(Refusal::NotReady),
            Some(channel) => channel.access.watch.summary(rt),
        }
    }

    /// What is told of all channels, in their order, each as `summary` tells it. Takes memory.
    ///
    /// Error: 60 where there is none, or there was none for one of them.
    pub fn channels<R: Wait>(&self, rt: &R, alloc: Global) -> Result<Vec<ChannelSummary>, Refusal>
        ensures are_those_of_links { IfOk result (λ all. All IsSummary all.items) }
        ensures are_of_all { IfOk result (λ all. length all.items ≡ channel_count self.now) }
        ensures fails_for_memory_alone { IfErr result (λ e. e ≡ refusal.Memory) }
    {
        let mut all = Vec::new(alloc);
        for channel in &self.channels {
            all.push(channel.access.watch.summary(rt)?)?;
        }
        Ok(all)
    }

    /// The init by which the peer of a channel has greeted last, as it came: what it offers. None before it has. A node
    /// refuses a peer by it where its `Greeting` wants what the peer lacks, and its user by `hang_up`. Takes memory.
    ///
    /// Errors: 40 where there is no such channel; 60.
    pub fn peer_init<R: Wait>(
        &self,
        rt: &R,
        alloc: Global,
        channel: usize,
    ) -> Result<Option<Init>, Refusal>
        ensures refuses_where_there_is_none { channel_count self.now ≤ channel → result ≡ Err refusal.NotReady }
        ensures fails_for_memory_alone { channel < channel_count self.now → IfErr result (λ e. e ≡ refusal.Memory) }
    {
        let Some(channel) = self.channels.get(channel) else {
            return Err(Refusal::NotReady);
        };
        Ok(channel.access.peer.init(rt, alloc)?)
    }

    /// How often it has done what since it was made. Takes no memory.
    pub fn counters(&self) -> &Counters {
        self.common.notices.monitor.tally.counters()
    }

    /// Traces from now on, and keeps up to so many steps of all channels until `traced` fetches them: messages that
    /// links take and hand out, saves, and notices. Later ones are lost and counted, and no thread waits. Where that is
    /// 0, as at first, none is traced, which costs a test a step. Takes no memory.
    pub fn trace(&self, most: u64) {
        self.common.notices.monitor.traces.keep(most);
    }

    /// What was traced since this was called last, the oldest first. A step of a turn is there after the turn. Takes no
    /// memory.
    pub fn traced<R: Wait>(&self, rt: &R, alloc: Global) -> Trace {
        self.common.notices.monitor.traces.take(rt, alloc)
    }
}
