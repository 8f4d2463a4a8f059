//! The calls of a routing node as C makes them: each is one of ln_host_node's, on a node that C keeps by a handle.

ghost use Rattle.std.specs.Prelude.{◌≡◌, ◌≢◌, ◌⊎◌, pos, IsSome, IsNone, Some, IfOk, IfErr};
ghost use Rattle.lnlink_c.specs.Answers.{answer_number};

use crate::held_node::HeldNode;
use crate::{HANDLE, code, code_of, copied, host_code};
use ln_host::HostRefusal;
use ln_host_node::HostNode;
use ln_refusals::Refusal;
use std::alloc::Global;

// Puts a node that was made into a handle.
fn put(alloc: Global, made: Result<HostNode, Refusal>, out: &mut HeldNode) -> i32
    ensures kept { result ≢ pos 0 → out.new ≡ out.old }
    ensures held { result ≡ pos 0 → IfOk made (λ n. out.new.value ≡ Some n) }
    ensures refused { IfErr made (λ e. result ≡ pos (answer_number e)) }
    ensures fails_for_memory_alone { IfOk made (λ n. (result ≡ pos 0) ⊎ (result ≡ pos 60)) }
{
    match made {
        Err(refusal) => code_of(refusal),
        Ok(node) => match Box::new(alloc, node) {
            Ok(node) => {
                *out = HeldNode::of(node);
                0
            }
            Err(_) => code_of(Refusal::Memory),
        },
    }
}

/// A node of what its host saved: `HostNode::load`.
#[unsafe(no_mangle)]
pub extern "C" fn lnl0_node_load(
    alloc: Global,
    out: &mut HeldNode,
    settings: &[u8],
    records: &[u8],
) -> i32
    ensures held { IsSome out.old.value → result ≡ pos 83 }
    ensures kept { result ≢ pos 0 → out.new ≡ out.old }
{
    if out.is_there() {
        return HANDLE;
    }
    put(alloc, HostNode::load(alloc, settings, records), out)
}

/// Frees the node, where there is one, and leaves a handle that holds nothing.
#[unsafe(no_mangle)]
pub extern "C" fn lnl0_node_free(alloc: Global, node: &mut HeldNode)
    ensures { IsNone node.new.value }
{
    if node.is_there() {
        drop(node.take().into_box(alloc));
    }
}

// A channel's number, where it was made.
fn numbered(made: Result<usize, HostRefusal>, channel: &mut usize) -> i32
    ensures kept { result ≢ pos 0 → channel.new ≡ channel.old }
    ensures number { IfOk made (λ n. (result ≡ pos 0) × (channel.new ≡ n)) }
{
    match made {
        Ok(number) => {
            *channel = number;
            0
        }
        Err(refusal) => host_code(Err(refusal)),
    }
}

/// A channel of a funder: `HostNode::open`.
#[unsafe(no_mangle)]
pub extern "C" fn lnl0_node_open(
    alloc: Global,
    node: &mut HeldNode,
    spec: &[u8],
    first_point: &[u8],
    channel: &mut usize,
) -> i32
    ensures held { IsNone node.old.value → result ≡ pos 83 }
    ensures kept { result ≢ pos 0 → channel.new ≡ channel.old }
{
    if !node.is_there() {
        return HANDLE;
    }
    numbered(node.get().open(alloc, spec, first_point), channel)
}

/// A channel of a fundee: `HostNode::accept`.
#[unsafe(no_mangle)]
pub extern "C" fn lnl0_node_accept(
    alloc: Global,
    node: &mut HeldNode,
    config: &[u8],
    first_point: &[u8],
    channel: &mut usize,
) -> i32
    ensures held { IsNone node.old.value → result ≡ pos 83 }
    ensures kept { result ≢ pos 0 → channel.new ≡ channel.old }
{
    if !node.is_there() {
        return HANDLE;
    }
    numbered(node.get().accept(alloc, config, first_point), channel)
}

/// Names the funding of a channel: `HostNode::fund`.
#[unsafe(no_mangle)]
pub extern "C" fn lnl0_node_fund(
    node: &mut HeldNode,
    channel: usize,
    txid: &[u8],
    output: u16,
) -> i32
    ensures held { IsNone node.old.value → result ≡ pos 83 }
{
    if !node.is_there() {
        return HANDLE;
    }
    host_code(node.get().fund(channel, txid, output))
}

/// There is a connection: `HostNode::connect`.
#[unsafe(no_mangle)]
pub extern "C" fn lnl0_node_connect(alloc: Global, node: &mut HeldNode, channel: usize) -> i32
    ensures held { IsNone node.old.value → result ≡ pos 83 }
{
    if !node.is_there() {
        return HANDLE;
    }
    host_code(node.get().connect(alloc, channel))
}

/// The connection is lost: `HostNode::disconnect`.
#[unsafe(no_mangle)]
pub extern "C" fn lnl0_node_disconnect(alloc: Global, node: &mut HeldNode, channel: usize) -> i32
    ensures held { IsNone node.old.value → result ≡ pos 83 }
{
    if !node.is_there() {
        return HANDLE;
    }
    code(node.get().disconnect(alloc, channel))
}

/// The question about a message: `HostNode::question`.
#[unsafe(no_mangle)]
pub extern "C" fn lnl0_node_question(
    alloc: Global,
    node: &mut HeldNode,
    channel: usize,
    message: &[u8],
    out: &mut [u8],
    len: &mut usize,
) -> i32
    ensures held { IsNone node.old.value → result ≡ pos 83 }
    ensures kept { result ≢ pos 0 → out.new ≡ out.old }
{
    if !node.is_there() {
        return HANDLE;
    }
    copied(node.get().question(alloc, channel, message), out, len)
}

/// A message, with the answer to the question about it: `HostNode::message`.
#[unsafe(no_mangle)]
pub extern "C" fn lnl0_node_message(
    alloc: Global,
    node: &mut HeldNode,
    channel: usize,
    message: &[u8],
    answer: &[u8],
) -> i32
    ensures held { IsNone node.old.value → result ≡ pos 83 }
{
    if !node.is_there() {
        return HANDLE;
    }
    host_code(node.get().message(alloc, channel, message, answer))
}

/// A command: `HostNode::command`.
#[unsafe(no_mangle)]
pub extern "C" fn lnl0_node_command(
    alloc: Global,
    node: &mut HeldNode,
    channel: usize,
    command: &[u8],
) -> i32
    ensures held { IsNone node.old.value → result ≡ pos 83 }
{
    if !node.is_there() {
        return HANDLE;
    }
    code(node.get().command(alloc, channel, command))
}

/// Each channel signs that owes a signature: `HostNode::sign`.
#[unsafe(no_mangle)]
pub extern "C" fn lnl0_node_sign(alloc: Global, node: &mut HeldNode) -> i32
    ensures held { IsNone node.old.value → result ≡ pos 83 }
{
    if !node.is_there() {
        return HANDLE;
    }
    node.get().sign(alloc);
    0
}

/// The block height: `HostNode::set_height`.
#[unsafe(no_mangle)]
pub extern "C" fn lnl0_node_height(node: &mut HeldNode, height: u32) -> i32
    ensures held { IsNone node.old.value → result ≡ pos 83 }
{
    if !node.is_there() {
        return HANDLE;
    }
    code(node.get().set_height(height))
}

/// A payment is waited for: `HostNode::expect`.
#[unsafe(no_mangle)]
pub extern "C" fn lnl0_node_expect(
    node: &mut HeldNode,
    preimage: &[u8],
    secret: &[u8],
    amount_msat: u64,
) -> i32
    ensures held { IsNone node.old.value → result ≡ pos 83 }
{
    if !node.is_there() {
        return HANDLE;
    }
    host_code(node.get().expect(preimage, secret, amount_msat))
}

/// The next item: `HostNode::next`. It is shown where the buffer has it.
#[unsafe(no_mangle)]
pub extern "C" fn lnl0_node_next(
    alloc: Global,
    node: &mut HeldNode,
    out: &mut [u8],
    len: &mut usize,
) -> i32
    ensures held { IsNone node.old.value → result ≡ pos 83 }
    ensures kept { result ≢ pos 0 → out.new ≡ out.old }
{
    if !node.is_there() {
        return HANDLE;
    }
    let node = node.get();
    let answer = copied(node.next(alloc), out, len);
    if answer == 0 {
        node.shown();
    }
    answer
}

/// A batch is saved: `HostNode::saved`.
#[unsafe(no_mangle)]
pub extern "C" fn lnl0_node_saved(node: &mut HeldNode, batch: u64) -> i32
    ensures held { IsNone node.old.value → result ≡ pos 83 }
{
    if !node.is_there() {
        return HANDLE;
    }
    code(node.get().saved(batch))
}

/// What is blank in a message is filled: `HostNode::fill`.
#[unsafe(no_mangle)]
pub extern "C" fn lnl0_node_fill(
    alloc: Global,
    node: &mut HeldNode,
    channel: usize,
    message: u64,
    filling: &[u8],
) -> i32
    ensures held { IsNone node.old.value → result ≡ pos 83 }
{
    if !node.is_there() {
        return HANDLE;
    }
    host_code(node.get().fill(alloc, channel, message, filling))
}

/// A message has left: `HostNode::sent`.
#[unsafe(no_mangle)]
pub extern "C" fn lnl0_node_sent(node: &mut HeldNode, channel: usize, message: u64) -> i32
    ensures held { IsNone node.old.value → result ≡ pos 83 }
{
    if !node.is_there() {
        return HANDLE;
    }
    code(node.get().sent(channel, message))
}

/// What was found in an onion: `HostNode::onion`.
#[unsafe(no_mangle)]
pub extern "C" fn lnl0_node_onion(
    alloc: Global,
    node: &mut HeldNode,
    hash: &[u8],
    onion: &[u8],
    found: &[u8],
) -> i32
    ensures held { IsNone node.old.value → result ≡ pos 83 }
{
    if !node.is_there() {
        return HANDLE;
    }
    host_code(node.get().onion(alloc, hash, onion, found))
}

/// What is done about an event: `HostNode::verdict`.
#[unsafe(no_mangle)]
pub extern "C" fn lnl0_node_verdict(
    alloc: Global,
    node: &mut HeldNode,
    channel: usize,
    event: u64,
    verdict: &[u8],
) -> i32
    ensures held { IsNone node.old.value → result ≡ pos 83 }
{
    if !node.is_there() {
        return HANDLE;
    }
    host_code(node.get().verdict(alloc, channel, event, verdict))
}

/// What is done about an HTLC that is held: `HostNode::resume`.
#[unsafe(no_mangle)]
pub extern "C" fn lnl0_node_resume(
    alloc: Global,
    node: &mut HeldNode,
    channel: usize,
    event: u64,
    verdict: &[u8],
) -> i32
    ensures held { IsNone node.old.value → result ≡ pos 83 }
{
    if !node.is_there() {
        return HANDLE;
    }
    host_code(node.get().resume(alloc, channel, event, verdict))
}

/// The HTLCs that are held: `HostNode::held`.
#[unsafe(no_mangle)]
pub extern "C" fn lnl0_node_held(
    alloc: Global,
    node: &mut HeldNode,
    out: &mut [u8],
    len: &mut usize,
) -> i32
    ensures held { IsNone node.old.value → result ≡ pos 83 }
    ensures kept { result ≢ pos 0 → out.new ≡ out.old }
{
    if !node.is_there() {
        return HANDLE;
    }
    copied(node.get().held(alloc), out, len)
}

/// Where a channel stands: `HostNode::look`.
#[unsafe(no_mangle)]
pub extern "C" fn lnl0_node_look(
    alloc: Global,
    node: &mut HeldNode,
    channel: usize,
    out: &mut [u8],
    len: &mut usize,
) -> i32
    ensures held { IsNone node.old.value → result ≡ pos 83 }
    ensures kept { result ≢ pos 0 → out.new ≡ out.old }
{
    if !node.is_there() {
        return HANDLE;
    }
    copied(node.get().look(alloc, channel), out, len)
}

/// What a commitment is worth: `HostNode::view`.
#[unsafe(no_mangle)]
pub extern "C" fn lnl0_node_view(
    alloc: Global,
    node: &mut HeldNode,
    channel: usize,
    which: u8,
    out: &mut [u8],
    len: &mut usize,
) -> i32
    ensures held { IsNone node.old.value → result ≡ pos 83 }
    ensures kept { result ≢ pos 0 → out.new ≡ out.old }
{
    if !node.is_there() {
        return HANDLE;
    }
    copied(node.get().view(alloc, channel, which), out, len)
}
