//! Waits with a limit of time.
use crate::addresses::fakes::{Asked, Network, Record};
use crate::asserts::expect_same;
use jdwp_client::{Awaited, ClientError, Loss, Options};
use jdwp_client_port::connect;
use jdwp_debugger::Order;
use std::time::Duration;

/// That a read waits for so many milliseconds at most.
const fn timeout(millis: u64) -> Asked {
    Asked::Timeout(Some(Duration::from_millis(millis)))
}

/// A wait is limited as a whole, though something comes at each of its reads. Behind it the session is lost, and what came is there.
#[test]
fn a_wait_is_limited_as_a_whole(rt: HostRuntime) {
    let record = Record::new(Vec::new(rt.alloc()), 0);
    let network = Network {
        record: &record,
        addresses: &[],
    };
    let options = Options::new(Order::Apart);
    let client = connect(rt.alloc(), &network, &record, "10.0.0.1:8000", options);
    let mut client = Box::new(rt.alloc(), client.expect(&rt, "a client")).expect(&rt, "memory");
    expect_same(&rt, &client.attach().is_ok(), &true);
    let late = ClientError::TooLate(Awaited::EventOf(99), Loss::ByRead);
    expect_same(&rt, &client.wait_for_within(99, 200).err(), &Some(late));
    expect_same(&rt, &client.is_open(), &false);
    let mut events = 0u32;
    for _ in 0..8u32 {
        if client.try_event().is_some() {
            events = events.saturating_add(1);
        }
    }
    expect_same(&rt, &events, &4u32);
    expect_same(
        &rt,
        &client.next_event_within(1).err(),
        &Some(ClientError::Closed),
    );
    let want = [timeout(200), timeout(140), timeout(80), timeout(20)];
    let asked = record.asked().expect(&rt, "what was asked");
    expect_same(&rt, &asked.get(3..), &Some(want.as_slice()));
}
