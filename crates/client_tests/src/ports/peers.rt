//! Other ends of connections, in this process: what one sends stands in the socket before anybody reads it, so that nothing blocks.
use crate::asserts::expect_same;
use std::alloc::Global;
use std::io::{Read, Write};
use std::net::{Net, OpenStream, Shutdown};
use std::process::Abort;

/// A connection to the port on which these bytes were sent; its writing half is ended behind them, or not.
pub(crate) fn caller<R: Net + Abort>(rt: &R, port: u16, bytes: &[u8], ends: bool) -> R::Stream {
    let stream = jdwp_port::connect(rt, port).expect(rt, "a connection");
    says(rt, stream, bytes, ends)
}

/// The same connection, behind these bytes.
pub(crate) fn says<S: Write + OpenStream + Drop>(
    rt: &impl Abort,
    mut stream: S,
    bytes: &[u8],
    ends: bool,
) -> S {
    stream.write_all(bytes).expect(rt, "all is written");
    stream.flush().expect(rt, "all is sent");
    if ends {
        stream.shutdown(Shutdown::Write).expect(rt, "an end");
    }
    stream
}

/// Up to the end, which comes without an error, exactly these bytes are read from the connection.
pub(crate) fn reads<S: Read + Drop>(rt: &impl Abort, alloc: Global, mut stream: S, bytes: &[u8]) {
    let mut all = Vec::new(alloc);
    stream.read_to_end(&mut all).expect(rt, "all is read");
    expect_same(rt, &all.as_slice(), &bytes);
}
