//! What a debugger shows where a thread has stopped.
ghost use Rattle.std.specs.Prelude.{◌↔◌, IsTrue};
ghost use Rattle.line_debugger.specs.Places.{IsValidAt};

use crate::debugging::LineDebugger;
use anyhow::{Context, Result, bail};
use milunovesk::commands::{
    method, reference_type, stack_frame, string_reference, thread_reference, virtual_machine,
};
use milunovesk::replies::{FrameEntry, VariableEntry, VariableTable};
use milunovesk::{Location, MethodId, ObjectId, ObjectTag, Pipe, ReferenceTypeId, Tag, Value};
use std::fmt::Write;

impl<P: Pipe + Drop> LineDebugger<P> {
    /// The frames of the thread that stopped, so many at most from the newest on; all at -1.
    fn frames(&mut self, most: i32) -> Result<Vec<FrameEntry>> {
        let command = thread_reference::frames(self.alloc, self.thread()?, 0, most)?;
        Ok(self.client.ask_for(command)?)
    }

    /// The same frames, in a line each, as `app/Main.run:7`, with the line 0 where the target knows none.
    ///
    /// # Errors
    /// Where no thread has stopped, or a frame is at no place in code; those of `Client::ask_for`.
    pub fn frames_text(&mut self, most: i32) -> Result<String> {
        let frames = self.frames(most)?;
        let mut text = String::new(self.alloc);
        self.push_frames(&frames, &mut text)?;
        Ok(text)
    }

    /// Appends a line for each frame.
    fn push_frames(&mut self, frames: &[FrameEntry], text: &mut String) -> Result<()> {
        for frame in frames {
            let (class, method, index) = code_of(frame)?;
            let line = self.line_of(class, method, index)?;
            self.push_place(class, method, line, text)?;
        }
        Ok(())
    }

    /// The line of a code index; 0 where the target knows none.
    fn line_of(&mut self, class: ReferenceTypeId, of: MethodId, index: u64) -> Result<i32> {
        let table = self.lines(class, of)?;
        Ok(table.and_then(|table| table.line_at(index)).unwrap_or(0))
    }

    /// Appends a place in code as a line.
    fn push_place(
        &mut self,
        class: ReferenceTypeId,
        of: MethodId,
        line: i32,
        text: &mut String,
    ) -> Result<()> {
        let command = reference_type::signature(self.alloc, class)?;
        let signature: String = self.client.ask_for(command)?;
        let methods = self.methods(class)?;
        let method = methods.iter().find(|entry| entry.id == of);
        let name = method.map_or("", |entry| entry.name.as_str());
        let class = class_name(signature.as_str());
        writeln!(text, "  {class}.{name}:{line}")?;
        Ok(())
    }

    /// The variables that are valid where the thread stopped, in a line each, with their values.
    ///
    /// # Errors
    /// Those of `frames_text`; where the target knows no variables of the method.
    pub fn variables_text(&mut self) -> Result<String> {
        let frames = self.frames(1)?;
        let mut text = String::new(self.alloc);
        for frame in &frames {
            self.push_variables(frame, &mut text)?;
        }
        Ok(text)
    }

    /// Appends a line for each variable that is valid where a frame stands.
    fn push_variables(&mut self, frame: &FrameEntry, text: &mut String) -> Result<()> {
        let (class, of, index) = code_of(frame)?;
        let command = method::variable_table(self.alloc, class, of)?;
        let table: VariableTable = self.client.ask_for(command)?;
        for entry in &table.slots {
            if is_valid_at(entry, index) {
                self.push_variable(frame, entry, text)?;
            }
        }
        Ok(())
    }

    /// Appends a variable's name and its value as a line.
    fn push_variable(
        &mut self,
        frame: &FrameEntry,
        of: &VariableEntry,
        text: &mut String,
    ) -> Result<()> {
        let name = of.name.as_str();
        let value = self.value(frame, of)?;
        writeln!(text, "  {name} = {value}")?;
        Ok(())
    }

    /// The value of a variable in words: a number, a text in quotes, or the id of an object.
    fn value(&mut self, frame: &FrameEntry, of: &VariableEntry) -> Result<String> {
        let slots = [(of.slot, tag_of(of.signature.as_str()))];
        let command = stack_frame::get_values(self.alloc, self.thread()?, frame.id, &slots)?;
        let values: Vec<Value> = self.client.ask_for(command)?;
        self.value_text(values.first().context("no value")?)
    }

    /// A value in words.
    fn value_text(&mut self, value: &Value) -> Result<String> {
        let alloc = self.alloc;
        match value {
            Value::Object(object) if object.tag == ObjectTag::String => {
                let command = string_reference::value(alloc, object.id)?;
                let text: String = self.client.ask_for(command)?;
                Ok(format!(in alloc; "{:?}", text.as_str())?)
            }
            Value::Object(object) => Ok(format!(in alloc; "object {}", object.id.0)?),
            Value::Int(bits) => Ok(format!(in alloc; "{}", bits.cast_signed())?),
            value => Ok(format!(in alloc; "{value:?}")?),
        }
    }

    /// The threads that live, in a line each: its name, and whether it is surely suspended.
    ///
    /// # Errors
    /// Those of `Client::ask_for`.
    pub fn threads_text(&mut self) -> Result<String> {
        let command = virtual_machine::all_threads(self.alloc);
        let threads: Vec<ObjectId> = self.client.ask_for(command)?;
        let mut text = String::new(self.alloc);
        for thread in &threads {
            self.push_thread(*thread, &mut text)?;
        }
        Ok(text)
    }

    /// Appends a thread's name and how it stands as a line.
    fn push_thread(&mut self, thread: ObjectId, text: &mut String) -> Result<()> {
        let command = thread_reference::name(self.alloc, thread)?;
        let name: String = self.client.ask_for(command)?;
        let state = match self.client.is_held(thread) {
            true => "suspended",
            false => "runs",
        };
        writeln!(text, "  {name} {state}")?;
        Ok(())
    }
}

/// The class, the method and the code index of a frame.
///
/// # Errors
/// Where it is at no place in code.
fn code_of(frame: &FrameEntry) -> Result<(ReferenceTypeId, MethodId, u64)> {
    match frame.location {
        Location::At {
            class,
            method,
            index,
            ..
        } => Ok((class, method, index)),
        Location::Null => bail!("the thread that stopped is at no place in code"),
    }
}

/// Whether a variable is valid at a code index: from its first one on, for so many.
#[tactic(auto, using(std::proofs::lemmas::Int::ints))]
fn is_valid_at(of: &VariableEntry, index: u64) -> bool
    ensures { IsTrue result ↔ IsValidAt of.now index }
{
    let first = i128::from(of.code_index);
    let index = i128::from(index);
    first <= index && index < first + i128::from(of.length)
}

/// The name of the class of a signature, as `app/Main` of `Lapp/Main;`.
fn class_name(signature: &str) -> &str {
    let name = signature.strip_prefix('L').unwrap_or(signature);
    name.strip_suffix(';').unwrap_or(name)
}

/// The tag under which a variable of this signature is asked: its first character's.
fn tag_of(signature: &str) -> Tag {
    let first = signature.as_bytes().first().copied().unwrap_or(b'L');
    Tag::of_byte(first).unwrap_or(Tag::Object(ObjectTag::Object))
}
