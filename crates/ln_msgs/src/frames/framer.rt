//! Messages of a stream that comes in pieces.

ghost use Rattle.std.specs.Prelude.{◌≡◌, List, [], ◌++◌, ◌≤◌, ℕ, drop, vec_len, map, IfOk, IfErr};
ghost use Rattle.ln_msgs.specs.Messages.Message.{Heard};
ghost use Rattle.ln_msgs.specs.Messages.Typed.{heard};
ghost use Rattle.ln_msgs.specs.Frames.Framer.{Fed, HearsFront, HasHeard, Runs, Call, unfed, came, answered};
ghost use Rattle.ln_msgs.specs.Frames.Frame.{Hears, EndsHearing};

use crate::codec::decoding::decode;
use crate::codec::encoding::LONGEST_MESSAGE;
use crate::frames::frame::next_frame;
use crate::messages::message::Incoming;
use ln_bytes::Fault;
use std::alloc::Global;
use std::marker::Model;

/// Takes the bytes of a connection in pieces, and answers the messages whose frames are whole.
///
/// A frame is two bytes of length, the highest first, and a message of that many bytes. Between calls a framer
/// holds the bytes of at most one frame that isn't whole yet, 65,536 at most, whatever came before.
#[derive(Drop)]
pub struct Framer {
    held: Vec<u8>,
    fault: Option<Fault>,
}

/// The most bytes that a frame has which isn't whole: one fewer than its length and the longest message.
const MOST_HELD: usize = 1 + LONGEST_MESSAGE;

impl Model for Framer {
    ghost use Rattle.ln_msgs.specs.Frames.Framer.{Fed};

    ghost Value = { Fed };

    ghost view = { λ f. record { held = f.held.items; fault = f.fault } };
}

/// The messages of the whole frames at the front of some bytes, how many bytes these frames
/// took, and the fault of the frame after them.
#[derive(Drop)]
struct WholeFrames {
    messages: Vec<Incoming>,
    taken: usize,
    fault: Option<Fault>,
}

impl Framer {
    ghost use Rattle.std.specs.Prelude.{◌≡◌, ◌≢◌, [], ◌++◌, map, None, IfOk, IfErr};
    ghost use Rattle.ln_msgs.specs.Messages.Typed.{heard};
    ghost use Rattle.ln_msgs.specs.Frames.Framer.{unfed, HearsFront, HasHeard, Answers, Finds, Refuses};

    /// A framer that nothing came to yet. Takes no memory.
    pub fn new(alloc: Global) -> Framer
        ensures { result ≡ unfed }
    {
        Framer {
            held: Vec::new(alloc),
            fault: None,
        }
    }

    /// Takes the next bytes of the stream, and answers the messages that are whole now, in their order.
    ///
    /// The bytes may be cut anywhere; those after the last whole frame are held until the rest of it comes. Where
    /// messages stand before a frame that can't be read, this call answers them and the next call the fault. A
    /// framer that found a fault answers it at each call from then on, and looks at no further byte.
    ///
    /// Takes memory for the bytes held and the piece together, and for the messages. A call that hears a message or
    /// is refused memory cuts its buffer to 65,536 bytes, or leaves it where the allocator can't; one that finds a
    /// fault gives it back. So a long piece leaves no long buffer, and pieces that are no message yet leave one of
    /// less than twice that length.
    ///
    /// Errors: 1 to 6 and 8, the first fault of a message (`decode`). 60 where there is no memory: then nothing has
    /// changed, and the same bytes may be fed again.
    pub fn feed(&mut self, alloc: Global, piece: &[u8]) -> Result<Vec<Incoming>, Fault>
        ensures answers_what_is_whole { IfOk result (λ messages. Answers self.old piece.now
            (map heard messages.items) self.new) }
        ensures refuses_a_fault_or_for_memory { IfErr result (λ f. Refuses self.old piece.now f self.new) }
    {
        if let Some(fault) = self.fault {
            return Err(fault);
        }
        let before = self.held.len();
        self.held.extend_from_slice(piece)?;
        match read_whole_frames(alloc, &self.held) {
            Ok(read) => self.keep(read),
            Err(fault) => {
                self.held.truncate(before);
                self.held.shrink_to(MOST_HELD);
                Err(fault)
            }
        }
    }

    /// Keeps what is left after the messages that were heard, and answers these.
    fn keep(&mut self, read: WholeFrames) -> Result<Vec<Incoming>, Fault>
        requires hears_the_front { HearsFront self.old.held (map heard read.messages.items)
            read.taken read.fault }
        requires has_no_fault { self.old.fault ≡ None }
        ensures answers_what_was_heard { IfOk result (λ messages. HasHeard self.old.held (map heard messages.items)
            self.new × (map heard messages.items ≡ [] → self.new.fault ≡ None)) }
        ensures tells_the_fault { IfErr result (λ f. HasHeard self.old.held [] self.new × (self.new.fault ≡ Some f)) }
    {
        let WholeFrames {
            messages,
            taken,
            fault,
        } = read;
        let Some(fault) = fault else {
            drop_front(&mut self.held, taken);
            return Ok(messages);
        };
        self.held.clear();
        self.held.shrink_to_fit();
        self.fault = Some(fault);
        if messages.is_empty() {
            return Err(fault);
        }
        Ok(messages)
    }
}

/// Drops so many bytes from the front, and the room for more than a frame.
fn drop_front(bytes: &mut Vec<u8>, count: usize)
    requires { count ≤ vec_len bytes.old }
    ensures { bytes.new.items ≡ drop count bytes.old.items }
{
    if count == 0 {
        return;
    }
    let left = bytes.len() - count;
    bytes.as_mut_slice().copy_within(count.., 0);
    bytes.truncate(left);
    bytes.shrink_to(MOST_HELD);
}

/// Reads the whole frames at the front of the bytes, up to the first fault. The only error is 60.
fn read_whole_frames(alloc: Global, bytes: &[u8]) -> Result<WholeFrames, Fault>
    ensures hears_the_front { IfOk result (λ h. HearsFront bytes.now (map heard h.messages.items) h.taken h.fault) }
    ensures fails_for_memory_alone { IfErr result (λ f. f ≡ Fault.Memory) }
{
    let mut messages = Vec::new(alloc);
    let mut rest = bytes;
    'frames: while let Some((message, after)) = next_frame(rest) {
        match decode(alloc, message) {
            Ok(incoming) => messages.push(incoming)?,
            Err(Fault::Memory) => return Err(Fault::Memory),
            Err(fault) => {
                return Ok(WholeFrames {
                    messages,
                    taken: bytes.len() - rest.len(),
                    fault: Some(fault),
                });
            }
        }
        rest = after;
    }
    Ok(WholeFrames {
        messages,
        taken: bytes.len() - rest.len(),
        fault: None,
    })
}

/// However a stream is cut into pieces, a framer that it is fed to answers the same messages: those of the bytes
/// that came, up to the first fault.
pub fn any_pieces()
    ensures has_heard_what_came { (calls : List Call) (fed : Fed) → Runs unfed calls fed
        → HasHeard (came calls) (answered calls) fed }
    ensures has_answered_no_others { (calls : List Call) (fed : Fed) (hs : List Heard) (front rest : List ℕ)
        → Runs unfed calls fed → Hears hs front → EndsHearing rest → came calls ≡ front ++ rest → answered calls ≡ hs }
{}
