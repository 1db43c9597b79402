//! A debugger in forty lines: `frames_at HOST:PORT CLASS` stops a program where a method of a class is entered, and prints the frames there.
#![tactic(auto)]

use anyhow::{Context, Result, bail};
use milunovesk::client::Options;
use milunovesk::commands::{event_request, thread_reference, virtual_machine};
use milunovesk::events::Event;
use milunovesk::replies::FrameEntry;
use milunovesk::{EventKind, Modifier, Order, Policy, connect};
use std::env;

fn main(rt: HostRuntime) -> Result<()> {
    let alloc = rt.alloc();
    let words = env::args(&rt)?.collect::<Vec<String>>(alloc)?;
    let [_, address, class] = words.as_slice() else {
        bail!("frames_at HOST:PORT CLASS");
    };
    let options = Options::new(Order::Apart);
    let client = connect(alloc, &rt, &rt, address.as_str(), options)?;
    let mut client = Box::new(alloc, client)?;
    client.attach()?;
    let modifiers = vec![in alloc; Modifier::ClassMatch(class.clone()?)]?;
    let entry = event_request::set(alloc, EventKind::MethodEntry, Policy::All, modifiers)?;
    let request = client.ask_for(entry)?;
    client.ask(virtual_machine::resume(alloc))?;
    let composite = client.wait_for(request)?;
    let event = composite.events().first().context("no event")?;
    let event = Event::of_fields(alloc, event.fields())?;
    let thread = event.and_then(|it| it.thread()).context("no thread")?;
    let name: String = client.ask_for(thread_reference::name(alloc, thread)?)?;
    println!(rt; "{name} is suspended: {}", client.is_held(thread))?;
    let frames: Vec<FrameEntry> = client.ask_for(thread_reference::frames(alloc, thread, 0, -1)?)?;
    for frame in &frames {
        println!(rt; "{:?}", frame.location)?;
    }
    client.dispose()?;
    Ok(())
}
