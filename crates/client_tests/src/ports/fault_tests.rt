//! Ports that can't be used, and what is told of them.
use crate::asserts::expect_same;
use jdwp_port::{PortFault, bind, connect};
use std::io;
use std::io::ErrorKind;
use std::net::Net;
use std::process::Abort;

/// A port's error, and what is told of it.
static FAULTS: [(u16, ErrorKind, &str); 6] = [
    (
        8000,
        ErrorKind::ConnectionRefused,
        "port 8000: connection refused",
    ),
    (8000, ErrorKind::AddrInUse, "port 8000: address in use"),
    (80, ErrorKind::PermissionDenied, "port 80: not allowed"),
    (
        65535,
        ErrorKind::AddrNotAvailable,
        "port 65535: address not available",
    ),
    (1, ErrorKind::TimedOut, "port 1: timed out"),
    (1, ErrorKind::OutOfMemory, "no memory"),
];

/// This is told of the fault.
fn is_told<R: AllocGlobal + Abort>(rt: &R, fault: &PortFault, text: &str) {
    let found = format!(in rt.alloc(); "{fault}").expect(rt, "memory");
    expect_same(rt, &found.as_str(), &text);
}

#[test]
fn faults_are_told_with_their_port(rt: HostRuntime) {
    for &(port, kind, text) in FAULTS.iter() {
        is_told(&rt, &PortFault::of_port(port, io::Error::from(kind)), text);
    }
}

/// This port can't be used, for this cause.
fn is_unusable<R: AllocGlobal + Abort>(rt: &R, fault: &PortFault, port: u16, cause: &str) {
    let text = format!(in rt.alloc(); "port {port}: {cause}").expect(rt, "memory");
    is_told(rt, fault, text.as_str());
}

/// A port where somebody listens can't be taken.
fn is_in_use<R: Net + AllocGlobal + Abort>(rt: &R) -> u16 {
    let listener = bind(rt, 0).expect(rt, "a port");
    let port = listener.port();
    match bind(rt, port) {
        Ok(_) => panic!(rt; "a port is taken twice"),
        Err(fault) => is_unusable(rt, &fault, port, "address in use"),
    }
    port
}

/// A port where nobody listens can't be reached.
fn is_refused<R: Net + AllocGlobal + Abort>(rt: &R, port: u16) {
    match connect(rt, port) {
        Ok(_) => panic!(rt; "a port is reached where nobody listens"),
        Err(fault) => is_unusable(rt, &fault, port, "connection refused"),
    }
}

#[test]
fn ports_that_are_taken_or_free_are_refused(rt: HostRuntime) {
    let port = is_in_use(&rt);
    is_refused(&rt, port);
}
