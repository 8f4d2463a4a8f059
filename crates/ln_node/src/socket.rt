//! Connections.

use ln_node_loops::Closes;
use std::io;
use std::io::{Read, Write};
use std::net::{OpenStream, Shutdown, TcpStream};

/// One direction of a connection. Its `W` is what the node's handle connects by (`Net::Stream`).
#[derive(Drop)]
pub struct Socket<W: Drop = TcpStream> {
    stream: W,
}

impl<W: Drop> Socket<W> {
    /// A direction of this connection. Takes no memory.
    pub fn new(stream: W) -> Socket<W> {
        Socket { stream }
    }
}

impl<W: Read + Drop> Read for Socket<W> {
    fn read(&mut self, bytes: &mut [u8]) -> io::Result<usize> {
        self.stream.read(bytes)
    }
}

impl<W: Write + Drop> Write for Socket<W> {
    fn write(&mut self, bytes: &[u8]) -> io::Result<usize> {
        self.stream.write(bytes)
    }

    fn flush(&mut self) -> io::Result<()> {
        self.stream.flush()
    }
}

impl<W: Write + OpenStream + Drop> Closes for Socket<W> {
    type Closed = ();

    fn close(self) {
        let _ = self.stream.shutdown(Shutdown::Both);
    }
}
