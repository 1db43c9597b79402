//! A session over a connection of this machine, in one process: what the other end sends stands in the socket before the client reads it.
use crate::addresses::packets::{BEGINNING, COUNT};
use crate::asserts::expect_same;
use jdwp_client::{Awaited, ClientError, Loss, Options};
use jdwp_client_port::connect;
use jdwp_command::answers::one_int;
use jdwp_command::thread_reference;
use jdwp_debugger::{Order, Ticket};
use jdwp_value::ObjectId;
use std::io::Write;
use std::net::{OpenListener, TcpListener};

const THREAD: ObjectId = ObjectId(1);

#[test]
fn a_session_over_a_connection(rt: HostRuntime) {
    let listener = TcpListener::bind(&rt, ("127.0.0.1", 0)).expect(&rt, "a port");
    let at = listener.local_addr().expect(&rt, "its address");
    let options = Options::new(Order::Apart);
    let client = connect(rt.alloc(), &rt, &rt, at, options).expect(&rt, "a client");
    let mut client = Box::new(rt.alloc(), client).expect(&rt, "memory");
    let (mut far, _) = listener.accept().expect(&rt, "the other end");
    far.write_all(&BEGINNING).expect(&rt, "it is written");
    expect_same(&rt, &client.attach_within(5000).is_ok(), &true);
    far.write_all(&COUNT).expect(&rt, "it is written");
    let count = thread_reference::suspend_count(rt.alloc(), THREAD).expect(&rt, "memory");
    let answer = client.ask_within(count, 5000).ok();
    expect_same(&rt, &answer.and_then(|answer| one_int(&answer)), &Some(3));
    // Nothing more comes, and the connection stays.
    let count = thread_reference::suspend_count(rt.alloc(), THREAD).expect(&rt, "memory");
    let ticket = client.send(count).ok();
    expect_same(&rt, &ticket, &Some(Ticket(2)));
    let late = ClientError::TooLate(Awaited::Answer(Ticket(2)), Loss::ByRead);
    expect_same(&rt, &client.wait_within(Ticket(2), 20).err(), &Some(late));
    expect_same(&rt, &client.lost(), &[Ticket(2)].as_slice());
}
