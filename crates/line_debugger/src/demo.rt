//! A target in the same process, as a pipe: a look at the debugger without a machine at an address.
ghost use Rattle.milunovesk.specs.Target.Options.{LivesWithin};
ghost use Rattle.milunovesk.specs.Wire.Limits.{standard_limits};

use anyhow::Context;
use milunovesk::client::{Client, Options};
use milunovesk::{Machine, ObjectId, Order, ScriptMachine, Streams, Target, TargetOptions, Turn};
use std::alloc::Global;
use std::cell::RefCell;
use std::io;
use std::io::{ErrorKind, Read, Write};
use std::rc::Rc;

/// The thread that steps.
const THREAD: ObjectId = ObjectId(1);

/// How many rounds a read makes at most until bytes wait to leave.
const ROUNDS: u32 = 10_000;

/// A half of the pipe: what is written is fed to the target, and what is read is what the target sends.
#[derive(Drop)]
pub struct Half<M: Machine + Drop>(Rc<RefCell<Target<M>>>);

/// Both halves of a pipe as one.
pub type Both<M> = Streams<Half<M>, Half<M>>;

impl<M: Machine + Drop> Read for Half<M> {
    fn read(&mut self, buffer: &mut [u8]) -> io::Result<usize> {
        let mut guard = self.0.try_borrow_mut()?;
        let target = &mut *guard;
        for _ in 0..ROUNDS {
            let count = target.take(buffer);
            if count > 0 || !target.is_open() {
                return Ok(count);
            }
            advance(target)?;
        }
        Ok(0)
    }
}

impl<M: Machine + Drop> Write for Half<M> {
    fn write(&mut self, bytes: &[u8]) -> io::Result<usize> {
        let mut guard = self.0.try_borrow_mut()?;
        Ok(guard.feed(bytes))
    }

    fn flush(&mut self) -> io::Result<()> {
        Ok(())
    }
}

/// The target handles a message, or, where none has come, its thread makes a step.
fn advance<M: Machine + Drop>(target: &mut Target<M>) -> io::Result<()> {
    let failed = match target.turn() {
        Ok(Turn::Nothing) => target.step(THREAD).is_err(),
        Ok(_) => false,
        Err(_) => true,
    };
    if failed {
        return Err(io::Error::from(ErrorKind::InvalidData));
    }
    Ok(())
}

/// A client of a target over the machine that a script describes.
///
/// # Errors
/// A fault of the script; want of memory.
pub fn demo(alloc: Global, script: &str) -> anyhow::Result<Box<Client<Both<ScriptMachine>>>> {
    let options = TargetOptions::new(true, 65_535).context("a limit that there may be")?;
    let machine = ScriptMachine::read(alloc, script)?;
    demo_over(alloc, machine, options)
}

/// The same over this machine.
fn demo_over<M: Machine + Drop>(
    alloc: Global,
    machine: M,
    options: TargetOptions,
) -> anyhow::Result<Box<Client<Both<M>>>>
    requires { LivesWithin M.meaning standard_limits machine }
{
    let mut target = Target::new(alloc, machine, options)?;
    target.accept();
    let reader = Rc::new(alloc, RefCell::new(target))?;
    let writer = reader.clone()?;
    let pipe = Streams::new(Half(reader), Half(writer));
    let client = Client::new(alloc, pipe, Options::new(Order::Apart))?;
    Ok(Box::new(alloc, client)?)
}
