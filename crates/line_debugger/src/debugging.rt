//! A debugger over a client.
use anyhow::{Context, Result, bail};
use milunovesk::client::{Client, ReplyError};
use milunovesk::commands::{event_request, method, reference_type, virtual_machine};
use milunovesk::events::Event;
use milunovesk::replies::{ClassEntry, LineTable, MethodEntry};
use milunovesk::{
    Composite, EventKind, Location, MethodId, Modifier, ObjectId, Pipe, Policy, ReferenceTypeId,
    StepDepth, StepSize, TypeTag,
};
use std::alloc::Global;

/// What is said of a place that is none.
const NO_PLACE: &str = "a place is a class and a line, as in: stop at Main:7";

/// A debugger of one program: a client, and the thread that stopped last.
#[derive(Drop)]
pub struct LineDebugger<P: Pipe> {
    pub(crate) alloc: Global,
    pub(crate) client: Box<Client<P>>,
    stopped: Option<ObjectId>,
}

impl<P: Pipe + Drop> LineDebugger<P> {
    /// A debugger whose session has begun: it waits for the target's answer to the handshake.
    ///
    /// # Errors
    /// Those of `Client::attach`.
    pub fn begin(alloc: Global, mut client: Box<Client<P>>) -> Result<LineDebugger<P>> {
        client.attach()?;
        Ok(LineDebugger {
            alloc,
            client,
            stopped: None,
        })
    }

    /// Does what a command line asks, and tells it in lines.
    ///
    /// # Errors
    /// A line that is no command's; what a command does not find; an error code that the target answers; those of the client.
    pub fn answer(&mut self, line: &str) -> Result<String> {
        match line {
            "where" => return self.frames_text(-1),
            "locals" => return self.variables_text(),
            "threads" => return self.threads_text(),
            "cont" => self.go()?,
            "step" => self.step(StepDepth::Into)?,
            "next" => self.step(StepDepth::Over)?,
            "quit" => drop(self.client.dispose()?),
            _ => return self.stop_at(line),
        }
        if !self.client.is_open() {
            return Ok(String::new(self.alloc));
        }
        self.frames_text(1)
    }

    /// The thread that stopped.
    ///
    /// # Errors
    /// Where none has.
    pub fn thread(&self) -> Result<ObjectId> {
        self.stopped.context("no thread has stopped: `stop at CLASS:LINE` and `cont` come first")
    }

    /// Sets a breakpoint at each place of `stop at CLASS:LINE`. Where there is no such class yet, the program runs until it is prepared.
    fn stop_at(&mut self, line: &str) -> Result<String> {
        let (class, line) = place_of(line)?;
        self.go_until_prepared(class)?;
        if !self.set_at(class, line)? {
            bail!("no class of this name has code of line {line}");
        }
        Ok(format!(in self.alloc; "  set at {class}:{line}\n")?)
    }

    /// Lets the program run until a class of this name is prepared, where none is.
    fn go_until_prepared(&mut self, class: &str) -> Result<()> {
        if self.classes(class)?.iter().any(is_prepared) {
            return Ok(());
        }
        let pattern = String::from_str(self.alloc, class)?;
        self.request(EventKind::ClassPrepare, Modifier::ClassMatch(pattern))?;
        self.go()
    }

    /// Sets a breakpoint at a line in each class of this name, and says whether any has code of it.
    fn set_at(&mut self, class: &str, line: i32) -> Result<bool> {
        let classes = self.classes(class)?;
        let mut is_set = false;
        for entry in &classes {
            is_set |= self.set_in(entry.id, line)?;
        }
        Ok(is_set)
    }

    /// The classes of this name, as `Lapp/Main;` is the signature of `app.Main`.
    fn classes(&mut self, class: &str) -> Result<Vec<ClassEntry>> {
        let path = class.replace(self.alloc, '.', "/")?;
        let signature = format!(in self.alloc; "L{path};")?;
        let command = virtual_machine::classes_by_signature(self.alloc, signature.as_str())?;
        Ok(self.client.ask_for(command)?)
    }

    /// Sets a breakpoint in each method of a class that has code of this line, and says whether any has.
    fn set_in(&mut self, class: ReferenceTypeId, line: i32) -> Result<bool> {
        let methods = self.methods(class)?;
        let mut is_set = false;
        for entry in &methods {
            is_set |= self.set_in_method(class, entry.id, line)?;
        }
        Ok(is_set)
    }

    /// Sets a breakpoint in a method that has code of this line, and says whether it has.
    fn set_in_method(
        &mut self,
        class: ReferenceTypeId,
        method: MethodId,
        line: i32,
    ) -> Result<bool> {
        let table = self.lines(class, method)?;
        let Some(index) = table.and_then(|table| table.code_index_of(line)) else {
            return Ok(false);
        };
        let place = Location::At {
            tag: TypeTag::Class,
            class,
            method,
            index,
        };
        self.request(EventKind::Breakpoint, Modifier::LocationOnly(place))?;
        Ok(true)
    }

    /// The methods of a class.
    ///
    /// # Errors
    /// Those of `Client::ask_for`.
    pub fn methods(&mut self, class: ReferenceTypeId) -> Result<Vec<MethodEntry>> {
        let command = reference_type::methods(self.alloc, class)?;
        Ok(self.client.ask_for(command)?)
    }

    /// The line table of a method; None where the target has none, as of a native one.
    ///
    /// # Errors
    /// Those of `Client::ask_for`.
    pub fn lines(&mut self, class: ReferenceTypeId, of: MethodId) -> Result<Option<LineTable>> {
        let command = method::line_table(self.alloc, class, of)?;
        match self.client.ask_for(command) {
            Ok(table) => Ok(Some(table)),
            Err(ReplyError::Target(_)) => Ok(None),
            Err(error) => Err(error.into()),
        }
    }

    /// Asks for events that suspend all threads, and gives the request's id.
    fn request(&mut self, kind: EventKind, modifier: Modifier) -> Result<i32> {
        let modifiers = vec![in self.alloc; modifier]?;
        let command = event_request::set(self.alloc, kind, Policy::All, modifiers)?;
        Ok(self.client.ask_for(command)?)
    }

    /// Lets all threads run until one stops.
    fn go(&mut self) -> Result<()> {
        self.stopped = None;
        self.client.ask(virtual_machine::resume(self.alloc))?;
        for _ in 0..u64::MAX {
            let composite = self.client.next_event()?;
            self.stopped = self.stopped_by(&composite)?;
            if self.stopped.is_some() {
                break;
            }
        }
        Ok(())
    }

    /// The thread that a composite stopped: that of an event which was asked for.
    fn stopped_by(&self, composite: &Composite) -> Result<Option<ObjectId>> {
        for event in composite.events() {
            match Event::of_fields(self.alloc, event.fields())? {
                Some(event) if event.request() != 0 => return Ok(event.thread()),
                _ => {}
            }
        }
        Ok(None)
    }

    /// Lets the thread that stopped run to another line, into calls or over them, or until another stops.
    fn step(&mut self, depth: StepDepth) -> Result<()> {
        let step = Modifier::Step {
            thread: self.thread()?,
            size: StepSize::Line.number(),
            depth: depth.number(),
        };
        let request = self.request(EventKind::SingleStep, step)?;
        self.go()?;
        let clear = event_request::clear(self.alloc, EventKind::SingleStep, request)?;
        self.client.ask(clear)?;
        Ok(())
    }
}

/// The class and the line of `stop at CLASS:LINE`.
fn place_of(line: &str) -> Result<(&str, i32)> {
    let place = line.strip_prefix("stop at ").context(
        "stop at CLASS:LINE, cont, step, next, where, locals, threads, quit",
    )?;
    let (class, line) = place.split_once(':').context(NO_PLACE)?;
    Ok((class, line.parse::<i32>().context(NO_PLACE)?))
}

/// Whether a class is prepared: its status has the bit 2.
fn is_prepared(class: &ClassEntry) -> bool {
    class.status & 2 == 2
}
