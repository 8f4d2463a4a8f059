//! A handle whose connections turn each bit of what passes: a transport of a program's own, as encryption would be.

use std::io;
use std::io::{Read, Write};
use std::net::{Net, OpenListener, OpenStream, Shutdown, SocketAddr, TcpListener, TcpStream};
use std::os::fd::{AsRawFd, RawFd};
use std::sync::Wait;
use std::thread::Threads;

/// The handle.
#[derive(Clone, Copy)]
pub(crate) struct Veil<R> {
    /// The one that has the network.
    pub(crate) rt: R,
}

/// A connection.
#[derive(Drop)]
pub(crate) struct VeiledStream {
    stream: TcpStream,
}

/// What listens for them.
#[derive(Drop)]
pub(crate) struct VeiledListener {
    listener: TcpListener,
}

impl<R: Wait> Wait for Veil<R> {}

impl<R: Threads> Threads for Veil<R> {}

impl<R: Net<Listener = TcpListener, Stream = TcpStream>> Net for Veil<R> {
    type Stream = VeiledStream;

    type Listener = VeiledListener;

    fn bind(&self, address: SocketAddr) -> io::Result<VeiledListener> {
        let listener = self.rt.bind(address)?;
        Ok(VeiledListener { listener })
    }

    fn connect(&self, address: SocketAddr) -> io::Result<VeiledStream> {
        let stream = self.rt.connect(address)?;
        Ok(VeiledStream { stream })
    }
}

impl Read for VeiledStream {
    fn read(&mut self, bytes: &mut [u8]) -> io::Result<usize> {
        let count = self.stream.read(bytes)?;
        for byte in bytes[..count].iter_mut() {
            *byte = !*byte;
        }
        Ok(count)
    }
}

impl Write for VeiledStream {
    fn write(&mut self, bytes: &[u8]) -> io::Result<usize> {
        let mut turned = [0u8; 1024];
        let count = bytes.len().min(1024);
        for i in 0..count {
            turned[i] = !bytes[i];
        }
        self.stream.write(&turned[..count])
    }

    fn flush(&mut self) -> io::Result<()> {
        self.stream.flush()
    }
}

impl OpenStream for VeiledStream {
    fn shutdown(&self, how: Shutdown) -> io::Result<()> {
        self.stream.shutdown(how)
    }

    fn set_nodelay(&self, nodelay: bool) -> io::Result<()> {
        self.stream.set_nodelay(nodelay)
    }

    fn try_clone(&self) -> io::Result<VeiledStream> {
        let stream = self.stream.try_clone()?;
        Ok(VeiledStream { stream })
    }
}

impl AsRawFd for VeiledStream {
    fn as_raw_fd(&self) -> RawFd {
        self.stream.as_raw_fd()
    }
}

impl OpenListener for VeiledListener {
    type Stream = VeiledStream;

    fn accept(&self) -> io::Result<(VeiledStream, SocketAddr)> {
        let (stream, address) = self.listener.accept()?;
        Ok((VeiledStream { stream }, address))
    }

    fn local_addr(&self) -> io::Result<SocketAddr> {
        self.listener.local_addr()
    }
}

impl AsRawFd for VeiledListener {
    fn as_raw_fd(&self) -> RawFd {
        self.listener.as_raw_fd()
    }
}
