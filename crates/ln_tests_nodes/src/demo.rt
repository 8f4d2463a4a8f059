//! What ln_demo plays, over loopback: over TCP, and over connections of another kind.

use crate::veil::Veil;
use ln_demo::demo;
use ln_msgs::Counted;
use ln_refusals::Refusal;
use std::alloc::Global;
use std::io::{Read, Write};
use std::net::{Net, OpenStream};
use std::sync::Wait;
use std::thread::Threads;

const PRINTED: &str = "paid 5000000\nfee 1500\nclosed 2\n";

/// Whether this is what it prints over the connections of a handle.
fn is_printed<C, R>(rt: R, alloc: Global, text: &str) -> Result<bool, Refusal>
where
    C: Read + Write + OpenStream + Drop + Send + 'static,
    R: Net<Stream = C> + Threads + Wait + Copy + Send + 'static,
    R::Listener: Send + 'static,
{
    let mut writer = Counted::new(Vec::with_capacity(alloc, text.len())?);
    demo(rt, alloc, &mut writer)?;
    Ok(writer.get_ref().as_slice() == text.as_bytes())
}

#[test]
fn demo_over_tcp(rt: HostRuntime) -> Result<(), Refusal> {
    assert!(rt; is_printed(rt, rt.alloc(), PRINTED)?);
    Ok(())
}

#[test]
fn demo_over_veiled_connections(rt: HostRuntime) -> Result<(), Refusal> {
    assert!(rt; is_printed(Veil { rt }, rt.alloc(), PRINTED)?);
    Ok(())
}
