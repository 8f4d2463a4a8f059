//! The library for C: each call is one of ln_library's, on a link that C keeps by a handle, or one of ln_host_node's,
//! on a node (node.rt).
//!
//! A call answers 0, or the number of what went wrong: a refusal's, 80 `ASKS`, 81 `ANSWER`, 82 `SHORT` or 83 `HANDLE`.
//! In the second byte stands the peer's rule of 44, or whose data is lost of 34. What C may do wrong with a pointer is
//! answered in bindings/glue/lnlink.c.
#![tactic(auto)]

ghost use Rattle.std.specs.Prelude.{◌≡◌, ◌≢◌, ◌⊎◌, length, pos, IsSome, IsNone, Some, IfOk, IfErr};
ghost use Rattle.lnlink_c.specs.Answers.{answer_number, done_number, host_number, host_done_number, Copies};

mod held;
mod held_node;
mod node;

pub use held::Held;
pub use held_node::HeldNode;
use ln_host::{HostLink, HostRefusal};
use ln_refusals::{LostData, Refusal};
use std::alloc::Global;

/// The buffer is too short.
const SHORT: i32 = 82;

/// The handle holds nothing where a link is needed, or one where none may be.
const HANDLE: i32 = 83;

// The number of a refusal, and in the second byte the peer's rule that 44 carries, or whose data is lost by 34.
fn code_of(refusal: Refusal) -> i32
    ensures { result ≡ pos (answer_number refusal) }
{
    let detail = match refusal {
        Refusal::PeerLimit(rule) => i32::from(rule.number()) * 256,
        Refusal::ReestablishNumber(LostData::Own) => 256,
        Refusal::ReestablishNumber(LostData::Peer) => 512,
        _ => 0,
    };
    detail + i32::from(refusal.number())
}

fn code(done: Result<(), Refusal>) -> i32
    ensures { result ≡ pos (done_number done) }
{
    match done {
        Ok(()) => 0,
        Err(refusal) => code_of(refusal),
    }
}

fn host_code(done: Result<(), HostRefusal>) -> i32
    ensures { result ≡ pos (host_done_number done) }
{
    match done {
        Ok(()) => 0,
        Err(HostRefusal::Refused(refusal)) => code_of(refusal),
        Err(HostRefusal::Asks) => 80,
        Err(HostRefusal::Answer) => 81,
    }
}

// Puts a link that was made into a handle.
fn put(alloc: Global, made: Result<HostLink, HostRefusal>, out: &mut Held) -> i32
    ensures kept { result ≢ pos 0 → out.new ≡ out.old }
    ensures held { result ≡ pos 0 → IfOk made (λ h. out.new.value ≡ Some h) }
    ensures refused { IfErr made (λ e. result ≡ pos (host_number e)) }
    ensures fails_for_memory_alone { IfOk made (λ h. (result ≡ pos 0) ⊎ (result ≡ pos 60)) }
{
    match made {
        Err(refusal) => host_code(Err(refusal)),
        Ok(link) => match Box::new(alloc, link) {
            Ok(link) => {
                *out = Held::of(link);
                0
            }
            Err(_) => code_of(Refusal::Memory),
        },
    }
}

// Copies bytes to the start of `out`, where there is room for all of them; `len` says how many there are.
fn copied(bytes: Result<Vec<u8>, Refusal>, out: &mut [u8], len: &mut usize) -> i32
    ensures copies { IfOk bytes (λ v. Copies v.items result out.old out.new) }
    ensures counts { IfOk bytes (λ v. len.new ≡ length v.items) }
    ensures refused { IfErr bytes (λ e. (result ≡ pos (answer_number e)) × (out.new ≡ out.old) × (len.new ≡ len.old)) }
    ensures short { result ≢ pos 0 → out.new ≡ out.old }
{
    match bytes {
        Err(refusal) => code_of(refusal),
        Ok(bytes) => {
            *len = bytes.len();
            if out.len() < bytes.len() {
                return SHORT;
            }
            out[..bytes.len()].copy_from_slice(bytes.as_slice());
            0
        }
    }
}

/// A new link of a funder: `ln_library::open`.
#[unsafe(no_mangle)]
pub extern "C" fn lnl0_open(alloc: Global, out: &mut Held, spec: &[u8], first_point: &[u8]) -> i32
    ensures held { IsSome out.old.value → result ≡ pos 83 }
    ensures kept { result ≢ pos 0 → out.new ≡ out.old }
{
    if out.is_there() {
        return HANDLE;
    }
    put(alloc, ln_library::open(alloc, spec, first_point), out)
}

/// A new link of a fundee: `ln_library::accept`.
#[unsafe(no_mangle)]
pub extern "C" fn lnl0_accept(
    alloc: Global,
    out: &mut Held,
    config: &[u8],
    first_point: &[u8],
) -> i32
    ensures held { IsSome out.old.value → result ≡ pos 83 }
    ensures kept { result ≢ pos 0 → out.new ≡ out.old }
{
    if out.is_there() {
        return HANDLE;
    }
    put(alloc, ln_library::accept(alloc, config, first_point), out)
}

fn loaded(alloc: Global, saved: &[u8]) -> Result<HostLink, HostRefusal> {
    Ok(ln_library::load(alloc, saved)?)
}

/// The link that comes back from what its host saved: `ln_library::load`.
#[unsafe(no_mangle)]
pub extern "C" fn lnl0_load(alloc: Global, out: &mut Held, saved: &[u8]) -> i32
    ensures held { IsSome out.old.value → result ≡ pos 83 }
    ensures kept { result ≢ pos 0 → out.new ≡ out.old }
{
    if out.is_there() {
        return HANDLE;
    }
    put(alloc, loaded(alloc, saved), out)
}

/// Frees the link, where there is one, and leaves a handle that holds nothing.
#[unsafe(no_mangle)]
pub extern "C" fn lnl0_free(alloc: Global, link: &mut Held)
    ensures { IsNone link.new.value }
{
    if link.is_there() {
        drop(link.take().into_box(alloc));
    }
}

/// Names the funding: `ln_library::fund`.
#[unsafe(no_mangle)]
pub extern "C" fn lnl0_fund(link: &mut Held, txid: &[u8], output: u16) -> i32
    ensures held { IsNone link.old.value → result ≡ pos 83 }
{
    if !link.is_there() {
        return HANDLE;
    }
    host_code(ln_library::fund(link.get(), txid, output))
}

/// There is a connection: `HostLink::connect`.
#[unsafe(no_mangle)]
pub extern "C" fn lnl0_connect(alloc: Global, link: &mut Held) -> i32
    ensures held { IsNone link.old.value → result ≡ pos 83 }
{
    if !link.is_there() {
        return HANDLE;
    }
    code(link.get().connect(alloc))
}

/// The connection is lost: `HostLink::disconnect`.
#[unsafe(no_mangle)]
pub extern "C" fn lnl0_disconnect(link: &mut Held) -> i32
    ensures held { IsNone link.old.value → result ≡ pos 83 }
{
    if !link.is_there() {
        return HANDLE;
    }
    link.get().disconnect();
    0
}

/// The question about a message: `ln_library::question`.
#[unsafe(no_mangle)]
pub extern "C" fn lnl0_question(
    alloc: Global,
    link: &mut Held,
    message: &[u8],
    out: &mut [u8],
    len: &mut usize,
) -> i32
    ensures held { IsNone link.old.value → result ≡ pos 83 }
    ensures kept { result ≢ pos 0 → out.new ≡ out.old }
{
    if !link.is_there() {
        return HANDLE;
    }
    copied(ln_library::question(alloc, link.get(), message), out, len)
}

/// A message, with the answer to the question about it: `ln_library::message`.
#[unsafe(no_mangle)]
pub extern "C" fn lnl0_message(alloc: Global, link: &mut Held, message: &[u8], answer: &[u8]) -> i32
    ensures held { IsNone link.old.value → result ≡ pos 83 }
{
    if !link.is_there() {
        return HANDLE;
    }
    host_code(ln_library::message(alloc, link.get(), message, answer))
}

/// A command: `ln_library::command`.
#[unsafe(no_mangle)]
pub extern "C" fn lnl0_command(alloc: Global, link: &mut Held, command: &[u8]) -> i32
    ensures held { IsNone link.old.value → result ≡ pos 83 }
{
    if !link.is_there() {
        return HANDLE;
    }
    code(ln_library::command(alloc, link.get(), command))
}

/// What stands first in the line: `ln_library::next`. It is shown where the buffer has it.
#[unsafe(no_mangle)]
pub extern "C" fn lnl0_next(alloc: Global, link: &mut Held, out: &mut [u8], len: &mut usize) -> i32
    ensures held { IsNone link.old.value → result ≡ pos 83 }
    ensures kept { result ≢ pos 0 → out.new ≡ out.old }
{
    if !link.is_there() {
        return HANDLE;
    }
    let link = link.get();
    let answer = copied(ln_library::next(alloc, link), out, len);
    if answer == 0 {
        link.show();
    }
    answer
}

/// It is dealt with: `ln_library::done`.
#[unsafe(no_mangle)]
pub extern "C" fn lnl0_done(alloc: Global, link: &mut Held, answer: &[u8]) -> i32
    ensures held { IsNone link.old.value → result ≡ pos 83 }
{
    if !link.is_there() {
        return HANDLE;
    }
    host_code(ln_library::done(alloc, link.get(), answer))
}

/// Where the link stands: `ln_library::look`.
#[unsafe(no_mangle)]
pub extern "C" fn lnl0_look(alloc: Global, link: &mut Held, out: &mut [u8], len: &mut usize) -> i32
    ensures held { IsNone link.old.value → result ≡ pos 83 }
    ensures kept { result ≢ pos 0 → out.new ≡ out.old }
{
    if !link.is_there() {
        return HANDLE;
    }
    copied(ln_library::look(alloc, link.get()), out, len)
}

/// What a commitment is worth: `ln_library::view`.
#[unsafe(no_mangle)]
pub extern "C" fn lnl0_view(
    alloc: Global,
    link: &mut Held,
    which: u8,
    out: &mut [u8],
    len: &mut usize,
) -> i32
    ensures held { IsNone link.old.value → result ≡ pos 83 }
    ensures kept { result ≢ pos 0 → out.new ≡ out.old }
{
    if !link.is_there() {
        return HANDLE;
    }
    copied(ln_library::view(alloc, link.get(), which), out, len)
}

/// An `init`: `ln_library::init`.
#[unsafe(no_mangle)]
pub extern "C" fn lnl0_init(
    alloc: Global,
    features: &[u8],
    chains: &[u8],
    out: &mut [u8],
    len: &mut usize,
) -> i32
    ensures kept { result ≢ pos 0 → out.new ≡ out.old }
{
    copied(ln_library::init(alloc, features, chains), out, len)
}

/// Whether a peer's `init` asks for no other even bit: `ln_library::check_init`.
#[unsafe(no_mangle)]
pub extern "C" fn lnl0_check_init(alloc: Global, message: &[u8], known: &[u16]) -> i32 {
    code(ln_library::check_init(alloc, message, known))
}

/// Whether a peer's `init` names no network but one of these: `ln_library::shares_chain`.
#[unsafe(no_mangle)]
pub extern "C" fn lnl0_shares_chain(alloc: Global, message: &[u8], chains: &[u8]) -> i32 {
    code(ln_library::shares_chain(alloc, message, chains))
}

/// The answer to a ping: `ln_library::pong`.
#[unsafe(no_mangle)]
pub extern "C" fn lnl0_pong(alloc: Global, message: &[u8], out: &mut [u8], len: &mut usize) -> i32
    ensures kept { result ≢ pos 0 → out.new ≡ out.old }
{
    copied(ln_library::pong(alloc, message), out, len)
}

/// The channel that a message is for: `ln_library::channel`.
#[unsafe(no_mangle)]
pub extern "C" fn lnl0_channel(
    alloc: Global,
    message: &[u8],
    out: &mut [u8],
    len: &mut usize,
) -> i32
    ensures kept { result ≢ pos 0 → out.new ≡ out.old }
{
    copied(ln_library::channel(alloc, message), out, len)
}

/// What a message says: `ln_library::print`.
#[unsafe(no_mangle)]
pub extern "C" fn lnl0_print(alloc: Global, message: &[u8], out: &mut [u8], len: &mut usize) -> i32
    ensures kept { result ≢ pos 0 → out.new ≡ out.old }
{
    copied(ln_library::print(alloc, message), out, len)
}
