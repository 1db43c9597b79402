//! The lines that tell what a debugger knows.
ghost use Rattle.std.specs.Prelude.{◌≡◌, ◌++◌, ℤ, ℕ, List, IfOk, OnOk, flat_map, map};
ghost use Rattle.std.specs.String.{string_bytes};
ghost use Rattle.jdwp_mirror.specs.declared.threads.Known as declared;
ghost use Rattle.jdwp_mirror.specs.Mirror.{Kept};
ghost use Rattle.jdwp_attach.specs.Telling.{PutsNamed, TellsKnown, TellsMirror, TellsNamed, named_line, request_line, summary, thread_line};

use crate::tell::lines::{least_line, request_line, thread_line};
use jdwp_debugger::{Debugger, Known, Mirror, Order};
use jdwp_value::ObjectId;
use jdwp_wire::NoMemory;
use std::alloc::Global;

/// What is told of what a debugger knows: its mirror, where the target sends each packet as it acts; where it sends replies and events by
/// threads of their own, what is surely so of each thread that was named, by rising id, and then the event requests by rising id.
///
/// # Errors
/// `NoMemory` where an allocation was refused.
pub fn known_text(alloc: Global, debugger: &Debugger) -> Result<String, NoMemory>
    ensures { IfOk result (λ text. TellsKnown debugger.now (string_bytes text)) }
{
    match debugger.order() {
        Order::One => mirror_text(alloc, debugger.mirror()),
        Order::Apart => named_text(alloc, debugger),
    }
}

/// What is told of the threads that were named, and of the event requests.
fn named_text(alloc: Global, debugger: &Debugger) -> Result<String, NoMemory>
    ensures { IfOk result (λ text. TellsNamed debugger.now (string_bytes text)) }
{
    let mut requests = summaries(alloc, debugger.mirror())?;
    requests.sort_by_key(|request| request.0)?;
    let mut text = String::new(alloc);
    put_named(alloc, debugger, &mut text)?;
    put_requests(alloc, &requests, &mut text)?;
    Ok(text)
}

/// Puts a line for each of the threads that were named.
fn put_named(alloc: Global, debugger: &Debugger, text: &mut String) -> Result<(), NoMemory>
    ensures { OnOk result (PutsNamed debugger.now (string_bytes text.old) (string_bytes text.new)) }
{
    let Some(threads) = debugger.named_threads() else {
        return Ok(());
    };
    for thread in threads {
        text.push_str(&named_line(alloc, debugger, thread)?)?;
    }
    Ok(())
}

/// The line of a thread that was named; nothing of any other.
fn named_line(alloc: Global, debugger: &Debugger, thread: ObjectId) -> Result<String, NoMemory>
    ensures { IfOk result (λ line. string_bytes line ≡ named_line debugger.now thread.0) }
{
    if debugger.is_named(thread) {
        least_line(alloc, debugger, thread)
    } else {
        Ok(String::new(alloc))
    }
}

/// What is told of a mirror: its threads by rising id, and then the event requests by rising id.
///
/// # Errors
/// `NoMemory` where an allocation was refused.
pub fn mirror_text(alloc: Global, mirror: &Mirror) -> Result<String, NoMemory>
    ensures { IfOk result (λ text. TellsMirror mirror.now (string_bytes text)) }
{
    let mut threads = known_threads(alloc, mirror)?;
    threads.sort_by_key(|thread| thread.id.0)?;
    let mut requests = summaries(alloc, mirror)?;
    requests.sort_by_key(|request| request.0)?;
    let mut text = String::new(alloc);
    put_threads(alloc, &threads, &mut text)?;
    put_requests(alloc, &requests, &mut text)?;
    Ok(text)
}

/// The threads that a mirror knows.
fn known_threads(alloc: Global, mirror: &Mirror) -> Result<Vec<Known>, NoMemory>
    ensures { IfOk result (λ threads. threads.items ≡ mirror.now.threads) }
{
    let threads = mirror.known().collect::<Vec<Known>>(alloc)?;
    Ok(threads)
}

/// The id, the kind and the policy of each event request.
fn summaries(alloc: Global, mirror: &Mirror) -> Result<Vec<(i32, u8, u8)>, NoMemory>
    ensures { IfOk result (λ summaries. summaries.items ≡ map summary mirror.now.requests) }
{
    let mut summaries = Vec::new(alloc);
    for request in mirror.requests() {
        summaries.push((request.id(), request.kind(), request.policy()))?;
    }
    Ok(summaries)
}

/// Puts a line for each of the threads.
fn put_threads(alloc: Global, threads: &[Known], text: &mut String) -> Result<(), NoMemory>
    ensures { OnOk result (string_bytes text.new ≡ string_bytes text.old ++ flat_map thread_line
        threads.now) }
{
    for thread in threads {
        text.push_str(&thread_line(alloc, thread)?)?;
    }
    Ok(())
}

/// Puts a line for each of the event requests.
fn put_requests(
    alloc: Global,
    requests: &[(i32, u8, u8)],
    text: &mut String,
) -> Result<(), NoMemory>
    ensures { OnOk result (string_bytes text.new ≡ string_bytes text.old ++ flat_map request_line
        requests.now) }
{
    for request in requests {
        text.push_str(&request_line(alloc, *request)?)?;
    }
    Ok(())
}
