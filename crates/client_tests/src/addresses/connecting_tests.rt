//! What is asked of the network, and of a connection as it begins.
use crate::addresses::fakes::{Asked, Network, Record};
use crate::asserts::expect_same;
use jdwp_client::Options;
use jdwp_client_port::{ConnectFault, connect};
use jdwp_debugger::Order;
use std::alloc::Global;
use std::net::{Ipv4Addr, Ipv6Addr, SocketAddr, ToSocketAddrs};
use std::process::Abort;

/// The addresses that the name has.
fn named() -> [SocketAddr; 2] {
    [
        SocketAddr::from((Ipv6Addr::LOCALHOST, 8000)),
        SocketAddr::from((Ipv4Addr::new(10, 0, 0, 1), 8000)),
    ]
}

/// How a connection to an address fails where so many are refused, and what was asked.
fn connects<A: ToSocketAddrs>(
    rt: &impl Abort,
    alloc: Global,
    address: A,
    refuses: u32,
) -> (Option<ConnectFault>, Vec<Asked>) {
    let record = Record::new(Vec::new(alloc), refuses);
    let addresses = named();
    let network = Network {
        record: &record,
        addresses: &addresses,
    };
    let fault = connect(alloc, &network, &record, address, Options::new(Order::One)).err();
    (fault, record.asked().expect(rt, "what was asked"))
}

#[test]
fn addresses_of_both_kinds_are_reached(rt: HostRuntime) {
    let [six, four] = named();
    for (text, at) in [("10.0.0.1:8000", four), ("[::1]:8000", six)] {
        let (fault, asked) = connects(&rt, rt.alloc(), text, 0);
        let want = [Asked::Connect(at), Asked::NoDelay(true), Asked::Clone];
        expect_same(&rt, &fault.is_none(), &true);
        expect_same(&rt, &asked.as_slice(), &want.as_slice());
    }
}

#[test]
fn the_addresses_of_a_name_are_tried_in_order(rt: HostRuntime) {
    let [six, four] = named();
    let (fault, asked) = connects(&rt, rt.alloc(), ("target", 8000), 1);
    let want = [
        Asked::Lookup,
        Asked::Connect(six),
        Asked::Connect(four),
        Asked::NoDelay(true),
        Asked::Clone,
    ];
    expect_same(&rt, &fault.is_none(), &true);
    expect_same(&rt, &asked.as_slice(), &want.as_slice());
}

#[test]
fn the_last_address_is_told_with_its_cause(rt: HostRuntime) {
    let [_, four] = named();
    let (fault, _) = connects(&rt, rt.alloc(), "target:8000", 2);
    match fault {
        Some(ConnectFault::Unreachable(at, error)) => {
            expect_same(&rt, &(at, error.raw_os_error()), &(four, Some(111)));
        }
        _ => expect_same(&rt, &"another fault", &"Unreachable"),
    }
    let (fault, asked) = connects(&rt, rt.alloc(), "target", 0);
    let is_unknown = match fault {
        Some(ConnectFault::Unknown(_)) => true,
        _ => false,
    };
    expect_same(&rt, &(is_unknown, asked.len()), &(true, 0));
}
