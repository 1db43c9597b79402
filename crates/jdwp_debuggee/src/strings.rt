//! VirtualMachine.CreateString (JDWP specification, "VirtualMachine").
ghost use Rattle.std.specs.Prelude.{◌≡◌, ◌+◌, ◌≤◌, length, IfOk, IfErr, IsTrue, OnErr, OnOk};
ghost use Rattle.jdwp_wire.specs.Limits.{least_packet_limit};
ghost use Rattle.jdwp_layout.specs.CommandNumbers as commands;
ghost use Rattle.jdwp_action.specs.AnswerPackets.{EncodesAnswer};
ghost use Rattle.jdwp_debuggee.specs.Debuggees.{at_moment};
ghost use Rattle.jdwp_debuggee.specs.Effects.{string_made};
ghost use Rattle.jdwp_debuggee.specs.Sending.{IsSent, sent_bytes};
ghost use Rattle.jdwp_debuggee.specs.StepParts.{number_of};
ghost use Rattle.jdwp_debuggee.specs.Strings.{makes_string, object_alone, text_in};
ghost use Rattle.jdwp_machine.specs.Laws.{takes_memory};

use crate::debuggee::Debuggee;
use crate::reply::{Reply, Sent};
use jdwp_layout::numbers::{CREATE_STRING, VIRTUAL_MACHINE};
use jdwp_layout::{Answer, Data, Datum, Scalar};
use jdwp_machine::{Machine, Query};
use jdwp_value::ObjectId;
use jdwp_wire::NoMemory;

/// Whether a question makes a string.
pub(crate) fn makes_string(query: &Query) -> bool
    ensures { result ≡ makes_string query.now }
{
    query.set == VIRTUAL_MACHINE && query.number == CREATE_STRING
}

/// The text that data are, if they are one, else none.
pub(crate) fn text_in(content: &Data) -> &str
    ensures { result.now ≡ text_in content.now }
{
    match content.items() {
        [Datum::One(Scalar::String(text))] => text,
        _ => "",
    }
}

/// The object that data are, if they are one.
fn object_alone(content: &Data) -> Option<ObjectId>
    ensures { number_of result ≡ object_alone content.now }
{
    match content.items() {
        [Datum::One(Scalar::ObjectId(object))] => Some(*object),
        _ => None,
    }
}

impl<M: Machine> Debuggee<M> {
    /// Makes an object that is a string of this text, and answers its id. No suspend count moves and no thread steps: the state stays.
    ///
    /// # Errors
    /// `NoMemory` where an allocation was refused; where the machine refuses the command, it takes no memory. Then nothing has changed.
    pub fn make_string(&mut self, text: &str) -> Result<Sent, NoMemory>
        ensures after { OnOk result (self.new ≡ at_moment
            (string_made M.meaning self.old.moment text.now).after self.old) }
        ensures value { IfOk result (λ sent. IsSent (M.meaning.sizes self.old.moment.machine)
            (string_made M.meaning self.old.moment text.now).answer sent) }
        ensures encoded { IfOk result (λ _. EncodesAnswer
            (M.meaning.sizes self.old.moment.machine) commands.CREATE_STRING.set
            commands.CREATE_STRING.number
            (string_made M.meaning self.old.moment text.now).answer) }
        ensures fits { IfOk result (λ sent. least_packet_limit ≤ self.old.settings.limits.packet
            → 11 + length (sent_bytes (M.meaning.sizes self.old.moment.machine) sent)
            ≤ self.old.settings.limits.packet) }
        ensures err { OnErr result (self.new ≡ self.old) }
        // A refusal by the machine takes no memory.
        ensures memory { IfErr result (λ _. IsTrue (takes_memory
            (M.meaning.made_answer self.old.moment.machine text.now))) }
    {
        match self.machine.make_string(text)? {
            Answer::Error(error) => Ok(Sent::Short(Reply::Refused(error))),
            Answer::Data(content) => match object_alone(&content) {
                Some(object) => Ok(Sent::Object(object)),
                None => unreachable!(),
            },
        }
    }
}
