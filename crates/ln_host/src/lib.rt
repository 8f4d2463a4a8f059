//! A link whose host brings keys, disk and sockets: what it asks before a message, what it leaves blank in what it
//! sends, and the line in which records stand before what they cover.
#![tactic(auto)]

mod answer;
mod blank;
mod filling;
mod greeting;
mod host_link;
mod keys;
mod laws;
mod line;
mod question;
mod record;
mod seen;

pub use answer::{Answer, HostRefusal, answer_of};
pub use blank::{Blank, ClosingTerms, blank_of};
pub use filling::{Filling, fill, filling_at};
pub use greeting::{channel_of, init_with, pong_to};
pub use host_link::HostLink;
pub use keys::HostKeys;
pub use laws::{hosted_lines_are_lines, saved_before_sent};
pub use line::{Head, Line, Outgoing, Told};
pub use question::{Question, question_about};
pub use record::{HeldSignatures, HostRecord, PeerSecret};
pub use seen::{Seen, seen_in};
