//! The latest connection of a worker.

use ln_msgs::{Counted, write_out};
use ln_refusals::Refusal;
use std::io::Write;

/// A writer of a connection that can be closed.
pub trait Closes: Write {
    /// What is left of one that was closed. Code that knows no more of a writer has it by `close` alone.
    type Closed: Drop;

    /// Closes the connection, as far as that can be done. What was written stays.
    fn close(self) -> Self::Closed;
}

/// What bytes are handed to.
pub(crate) trait Carries {
    ghost use Rattle.ln_node_loops.specs.Connection.{Latest, Delivers};

    /// What is known of the latest connection.
    ghost connection: { Self → Latest };

    /// Writes the bytes and flushes, where there are some. Where no connection is open nothing is written.
    fn deliver(&mut self, bytes: &[u8]) -> Result<(), Refusal>
        ensures { Delivers bytes.now result (connection self.old) (connection self.new) };
}

impl<W: Write> Carries for Counted<W> {
    ghost use Rattle.ln_node_loops.specs.Connection.{Open, connection_of};

    ghost connection = { λ w. Open (connection_of W.contents w) };

    fn deliver(&mut self, bytes: &[u8]) -> Result<(), Refusal> {
        if bytes.is_empty() {
            return Ok(());
        }
        match write_out(bytes, self) {
            Ok(()) => {}
            Err(_) => return Err(Refusal::Io),
        }
        match self.flush() {
            Ok(()) => Ok(()),
            Err(_) => Err(Refusal::Io),
        }
    }
}

/// The latest connection of a worker. Nothing is written where none is open.
#[derive(Drop)]
pub enum Wire<W: Closes + Drop> {
    /// There was none yet.
    NoneYet,
    /// It is open: its writer.
    Open(Counted<W>),
    /// It was closed.
    Closed(W::Closed),
}

impl<W: Closes + Drop> Carries for Wire<W> {
    ghost use Rattle.ln_node_loops.specs.Wire.{connection_at};

    ghost connection = { λ w. connection_at W.contents w };

    fn deliver(&mut self, bytes: &[u8]) -> Result<(), Refusal> {
        match self {
            Wire::NoneYet | Wire::Closed(_) => Ok(()),
            Wire::Open(writer) => writer.deliver(bytes),
        }
    }
}

impl<W: Closes + Drop> Wire<W> {
    ghost use Rattle.std.specs.Prelude.{◌≡◌};
    ghost use Rattle.ln_node_loops.specs.Connection.{closed};
    ghost use Rattle.ln_node_loops.specs.Wire.{connection_at};

    /// Closes it, where it is open.
    pub fn close(self) -> Wire<W>
        ensures { connection_at W.contents result ≡ closed (connection_at W.contents self) }
    {
        match self {
            Wire::NoneYet => Wire::NoneYet,
            Wire::Open(writer) => Wire::Closed(writer.into_inner().close()),
            Wire::Closed(closed) => Wire::Closed(closed),
        }
    }
}
