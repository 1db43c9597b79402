//! The commands that ask the machine or list the live threads, and StackFrame.SetValues (JDWP specification, "Protocol Details").
ghost use Rattle.std.specs.Prelude.{◌≡◌, ℕ, ◌+◌, ◌≤◌, ◌∷◌, [], List, Result, length, map, false, true, Some, unwrap_or, IfOk, IfErr, IsTrue, OnErr};
ghost use Rattle.jdwp_wire.specs.ErrorCodes.{ILLEGAL_ARGUMENT};
ghost use Rattle.jdwp_wire.specs.Limits.{least_packet_limit};
ghost use Rattle.jdwp_wire.specs.Reading.{Fails};
ghost use Rattle.jdwp_wire.specs.declared.data_fault.DataFault.{DataFault};
ghost use Rattle.jdwp_wire.specs.declared.data_fault.DataFault.TheVariants.{NoMemory as WantOfMemory};
ghost use Rattle.jdwp_action.specs.Actions as action;
ghost use Rattle.jdwp_action.specs.Actions.{Command};
ghost use Rattle.jdwp_debuggee.specs.Answers.{all_threads, bounded, query_of};
ghost use Rattle.jdwp_debuggee.specs.Debuggees.{CarriesOut};
ghost use Rattle.jdwp_debuggee.specs.Effects.{does};
ghost use Rattle.jdwp_debuggee.specs.InvocationLaws.{IsRefused};
ghost use Rattle.jdwp_debuggee.specs.Invoking.{DoesNotRead, answer_asked, data_in, invoked, invoked_by, invoking_thread};
ghost use Rattle.jdwp_debuggee.specs.StepParts.{number_of};
ghost use Rattle.jdwp_debuggee.specs.Replies.{reply_meaning};
ghost use Rattle.jdwp_action.specs.AnswerPackets.{AreWritable, EncodesAnswer, EncodesReply, IsWritable};
ghost use Rattle.jdwp_action.specs.RowLayouts.{row_reply};
ghost use Rattle.jdwp_debuggee.specs.Sending.{IsSent, sent_bytes, sent_error, short_refused};
ghost use Rattle.jdwp_debuggee.specs.Strings.{makes_string};
ghost use Rattle.jdwp_debuggee.specs.Wants.{ReadsOrAsks, is_live, is_suspended};
ghost use Rattle.jdwp_layout.specs.CommandNumbers as commands;
ghost use Rattle.jdwp_layout.specs.CommandTable.{row_at};
ghost use Rattle.jdwp_layout.specs.Writes.{data_canonical};
ghost use Rattle.jdwp_layout.specs.Meanings.{DatumMeaning, Many, Object, raw_bytes};
ghost use Rattle.jdwp_layout.specs.Shapes.{ItemShape, shape};
ghost use Rattle.jdwp_layout.specs.Invocations.{invocation_request};
ghost use Rattle.jdwp_machine.specs.Laws.{takes_memory};

use crate::debuggee::Debuggee;
use crate::reply::{Reply, Sent};
use crate::settings::Settings;
use jdwp_action::reply_layout;
use jdwp_layout::invocation::request_layout;
use jdwp_layout::numbers::{ALL_THREADS, VIRTUAL_MACHINE};
use jdwp_layout::{Answer, Data, Datum, Layout, Scalar, read, write};
use jdwp_machine::{Machine, Query, is_among};
use jdwp_value::{FrameId, ObjectId, Value};
use jdwp_wire::{DataFault, ErrorCode, IdSizes, NoMemory};
use std::alloc::Global;

/// The data of a reply as they are written: in the layout of their row's reply, and bytes, which a raw row's are, as they are.
///
/// # Errors
/// `NoMemory` where an allocation was refused.
fn written(
    alloc: Global,
    set: u8,
    number: u8,
    sizes: &IdSizes,
    content: &Data,
) -> Result<Vec<u8>, NoMemory>
    requires { AreWritable sizes.now (row_reply (row_at set number)) content.now }
    ensures value { IfOk result (λ bytes. bytes.items ≡ data_canonical sizes.now content.now) }
    ensures encoded { IfOk result (λ _.
        EncodesReply sizes.now (row_reply (row_at set number)) content.now) }
{
    let Some(layout) = reply_layout(set, number) else {
        return match content.raw() {
            Some(bytes) => Ok(Vec::from_slice(alloc, bytes)?),
            None => unreachable!(),
        };
    };
    let mut bytes = Vec::new(alloc);
    match write(&layout, sizes, content.items(), &mut bytes) {
        Ok(()) => Ok(bytes),
        Err(DataFault::NoMemory) => Err(NoMemory),
        Err(
            DataFault::Short(_)
            | DataFault::Extra(_)
            | DataFault::BadTag
            | DataFault::NegativeCount
            | DataFault::NotUtf8
            | DataFault::BadSize
            | DataFault::IdTooWide,
        ) => unreachable!(),
    }
}

/// An answer to a command of this set and number, ready to be sent; `INTERNAL` where it is longer than a packet.
///
/// # Errors
/// `NoMemory` where an allocation was refused, and only where the answer has data.
fn sent(
    alloc: Global,
    settings: &Settings,
    set: u8,
    number: u8,
    sizes: &IdSizes,
    answer: Answer,
) -> Result<Sent, NoMemory>
    requires { IsWritable sizes.now set number answer }
    ensures value { IfOk result (λ sent.
        IsSent sizes.now (bounded settings.now sizes.now answer) sent) }
    ensures encoded { IfOk result (λ sent. EncodesAnswer sizes.now set number
        (bounded settings.now sizes.now answer)) }
    ensures fits { IfOk result (λ sent. least_packet_limit ≤ settings.now.limits.packet
        → 11 + length (sent_bytes sizes.now sent) ≤ settings.now.limits.packet) }
    ensures memory { IfErr result (λ _. IsTrue (takes_memory answer)) }
{
    let content = match answer {
        Answer::Error(error) => return Ok(Sent::Short(Reply::Refused(error))),
        Answer::Data(content) => content,
    };
    let bytes = written(alloc, set, number, sizes, &content)?;
    if bytes.len() + 11 > settings.limits().packet() as usize {
        return Ok(Sent::Short(Reply::Refused(ErrorCode::INTERNAL)));
    }
    Ok(Sent::Written(bytes))
}

impl<M: Machine> Debuggee<M> {
    /// A question for the machine that is about no thread, or an invocation of a method by one: `ILLEGAL_ARGUMENT` where the data of an
    /// invocation do not read, `INVALID_THREAD` where its thread is not alive, `THREAD_NOT_SUSPENDED` where no event stopped it. No suspend
    /// count moves and no thread steps by it.
    ///
    /// # Errors
    /// `NoMemory` where an allocation was refused; where the machine refuses the command, it takes no memory, and nor does an invocation
    /// whose data do not read.
    pub fn ask(&self, alloc: Global, query: &Query) -> Result<Sent, NoMemory>
        ensures value { IfOk result (λ sent. IsSent (M.meaning.sizes self.now.moment.machine)
            (answer_asked M.meaning self.now.settings self.now.moment query.now
            (invocation_request query.now.set query.now.number)) sent) }
        ensures encoded { IfOk result (λ sent.
            EncodesAnswer (M.meaning.sizes self.now.moment.machine) query.now.set query.now.number
            (answer_asked M.meaning self.now.settings self.now.moment query.now
            (invocation_request query.now.set query.now.number))) }
        ensures fits { IfOk result (λ sent. least_packet_limit ≤ self.now.settings.limits.packet
            → 11 + length (sent_bytes (M.meaning.sizes self.now.moment.machine) sent)
            ≤ self.now.settings.limits.packet) }
        // No suspend count moves and no thread steps: the moment stays, but where a string is made.
        ensures stays { (c : Command) → makes_string (query_of c) ≡ false
            → (does M.meaning self.now.settings self.now.moment c action.Ask).after
            ≡ self.now.moment }
        // When an invocation is refused, and with which error.
        ensures refused { IfOk result (λ sent. (shapes : List ItemShape)
            → invocation_request query.now.set query.now.number ≡ Some shapes
            → IsRefused M.meaning self.now.moment query.now
            (data_in (M.meaning.sizes self.now.moment.machine) shapes query.now.content)
            (sent_error sent)) }
        // A refusal by the machine takes no memory.
        ensures memory { IfErr result (λ _. ReadsOrAsks M.meaning self.now.moment.machine query.now
            (invocation_request query.now.set query.now.number)) }
    {
        let sizes = self.machine.sizes();
        match request_layout(query.set, query.number) {
            Some(layout) => self.ask_invocation(alloc, query, &layout, &sizes),
            None => self.ask_machine(alloc, query),
        }
    }

    /// An invocation whose data have this layout, where these are the widths of ids.
    ///
    /// # Errors
    /// `NoMemory` where an allocation was refused, and only where its data read.
    fn ask_invocation(
        &self,
        alloc: Global,
        query: &Query,
        layout: &Layout,
        sizes: &IdSizes,
    ) -> Result<Sent, NoMemory>
        requires { sizes.now ≡ M.meaning.sizes self.now.moment.machine }
        ensures value { IfOk result (λ sent. IsSent (M.meaning.sizes self.now.moment.machine)
            (invoked M.meaning self.now.settings self.now.moment query.now
            (data_in (M.meaning.sizes self.now.moment.machine) (shape layout.now)
            query.now.content)) sent) }
        ensures encoded { IfOk result (λ sent.
            EncodesAnswer (M.meaning.sizes self.now.moment.machine) query.now.set query.now.number
            (invoked M.meaning self.now.settings self.now.moment query.now
            (data_in (M.meaning.sizes self.now.moment.machine) (shape layout.now)
            query.now.content))) }
        ensures fits { IfOk result (λ sent. least_packet_limit ≤ self.now.settings.limits.packet
            → 11 + length (sent_bytes (M.meaning.sizes self.now.moment.machine) sent)
            ≤ self.now.settings.limits.packet) }
        ensures memory { IfErr result (λ _. ReadsOrAsks M.meaning self.now.moment.machine query.now
            (Some (shape layout.now))) }
    {
        match read(alloc, layout, sizes, bytes_of(&query.content)) {
            Ok(items) => {
                let content = Data::new(items);
                let thread = invoking_thread(&content);
                let asked = Query {
                    set: query.set,
                    number: query.number,
                    content,
                };
                self.invoke(alloc, thread, &asked)
            }
            Err(fault) => unreadable(fault),
        }
    }

    /// An invocation by this thread, with its data.
    ///
    /// # Errors
    /// `NoMemory` where an allocation was refused.
    fn invoke(
        &self,
        alloc: Global,
        thread: Option<ObjectId>,
        query: &Query,
    ) -> Result<Sent, NoMemory>
        ensures value { IfOk result (λ sent. IsSent (M.meaning.sizes self.now.moment.machine)
            (invoked_by M.meaning self.now.settings self.now.moment query.now
            (number_of thread)) sent) }
        ensures encoded { IfOk result (λ sent.
            EncodesAnswer (M.meaning.sizes self.now.moment.machine) query.now.set query.now.number
            (invoked_by M.meaning self.now.settings self.now.moment query.now
            (number_of thread))) }
        ensures fits { IfOk result (λ sent. least_packet_limit ≤ self.now.settings.limits.packet
            → 11 + length (sent_bytes (M.meaning.sizes self.now.moment.machine) sent)
            ≤ self.now.settings.limits.packet) }
    {
        let Some(thread) = thread else {
            return Ok(Sent::Short(Reply::Refused(ErrorCode::ILLEGAL_ARGUMENT)));
        };
        if !self.threads.is_live(thread) {
            return Ok(Sent::Short(Reply::Refused(ErrorCode::INVALID_THREAD)));
        }
        if !is_among(thread, &self.stopped) {
            return Ok(Sent::Short(Reply::Refused(ErrorCode::THREAD_NOT_SUSPENDED)));
        }
        self.ask_machine(alloc, query)
    }

    /// A question that the machine is asked as it is.
    ///
    /// # Errors
    /// `NoMemory` where an allocation was refused; where the machine refuses the command, it takes no memory.
    fn ask_machine(&self, alloc: Global, query: &Query) -> Result<Sent, NoMemory>
        ensures value { IfOk result (λ sent. IsSent (M.meaning.sizes self.now.moment.machine)
            (bounded self.now.settings (M.meaning.sizes self.now.moment.machine)
            (M.meaning.query self.now.moment.machine query.now)) sent) }
        ensures encoded { IfOk result (λ sent.
            EncodesAnswer (M.meaning.sizes self.now.moment.machine) query.now.set query.now.number
            (bounded self.now.settings (M.meaning.sizes self.now.moment.machine)
            (M.meaning.query self.now.moment.machine query.now))) }
        ensures fits { IfOk result (λ sent. least_packet_limit ≤ self.now.settings.limits.packet
            → 11 + length (sent_bytes (M.meaning.sizes self.now.moment.machine) sent)
            ≤ self.now.settings.limits.packet) }
        // A refusal by the machine takes no memory.
        ensures memory { IfErr result (λ _.
            IsTrue (takes_memory (M.meaning.query self.now.moment.machine query.now))) }
    {
        let answer = self.machine.query(query)?;
        let sizes = self.machine.sizes();
        sent(
            alloc,
            &self.settings,
            query.set,
            query.number,
            &sizes,
            answer,
        )
    }

    /// A question about a thread; `INVALID_THREAD` where it is not alive.
    ///
    /// # Errors
    /// `NoMemory` where an allocation was refused, and only where the thread is alive; where the machine refuses the command, it takes
    /// no memory.
    pub fn ask_thread(
        &self,
        alloc: Global,
        thread: ObjectId,
        query: &Query,
    ) -> Result<Sent, NoMemory>
        ensures value { IfOk result (λ sent. (c : Command) → query_of c ≡ query.now
            → IsSent (M.meaning.sizes self.now.moment.machine)
            (does M.meaning self.now.settings self.now.moment c (action.AskThread thread.0)).answer
            sent) }
        ensures encoded { IfOk result (λ sent. (c : Command) → query_of c ≡ query.now
            → EncodesAnswer (M.meaning.sizes self.now.moment.machine) c.set c.number
            (does M.meaning self.now.settings self.now.moment c
            (action.AskThread thread.0)).answer) }
        ensures fits { IfOk result (λ sent. least_packet_limit ≤ self.now.settings.limits.packet
            → 11 + length (sent_bytes (M.meaning.sizes self.now.moment.machine) sent)
            ≤ self.now.settings.limits.packet) }
        // A refusal by the machine takes no memory.
        ensures memory { IfErr result (λ _.
            IsTrue (takes_memory (M.meaning.query self.now.moment.machine query.now))) }
        ensures lives { IfErr result (λ _. is_live self.now.moment.state thread.0 ≡ true) }
    {
        match self.threads.count(thread) {
            None => Ok(Sent::Short(Reply::Refused(ErrorCode::INVALID_THREAD))),
            Some(_) => self.ask_machine(alloc, query),
        }
    }

    /// A question about the frames of a thread; `INVALID_THREAD` where it is not alive, `THREAD_NOT_SUSPENDED` where it runs.
    ///
    /// # Errors
    /// `NoMemory` where an allocation was refused, and only where the thread is suspended; where the machine refuses the command, it
    /// takes no memory.
    pub fn ask_frames(
        &self,
        alloc: Global,
        thread: ObjectId,
        query: &Query,
    ) -> Result<Sent, NoMemory>
        ensures value { IfOk result (λ sent. (c : Command) → query_of c ≡ query.now
            → IsSent (M.meaning.sizes self.now.moment.machine)
            (does M.meaning self.now.settings self.now.moment c (action.AskFrames thread.0)).answer
            sent) }
        ensures encoded { IfOk result (λ sent. (c : Command) → query_of c ≡ query.now
            → EncodesAnswer (M.meaning.sizes self.now.moment.machine) c.set c.number
            (does M.meaning self.now.settings self.now.moment c
            (action.AskFrames thread.0)).answer) }
        ensures fits { IfOk result (λ sent. least_packet_limit ≤ self.now.settings.limits.packet
            → 11 + length (sent_bytes (M.meaning.sizes self.now.moment.machine) sent)
            ≤ self.now.settings.limits.packet) }
        // A refusal by the machine takes no memory.
        ensures memory { IfErr result (λ _.
            IsTrue (takes_memory (M.meaning.query self.now.moment.machine query.now))) }
        ensures suspended { IfErr result (λ _. is_suspended self.now.moment.state thread.0 ≡ true) }
    {
        match self.threads.count(thread) {
            None => Ok(Sent::Short(Reply::Refused(ErrorCode::INVALID_THREAD))),
            Some(0) => Ok(Sent::Short(Reply::Refused(ErrorCode::THREAD_NOT_SUSPENDED))),
            Some(_) => self.ask_machine(alloc, query),
        }
    }

    /// StackFrame.SetValues: these slots of a frame of a suspended thread are written; `INVALID_THREAD` where it is not alive,
    /// `THREAD_NOT_SUSPENDED` where it runs, else the machine's refusal.
    ///
    /// # Errors
    /// `NoMemory` where an allocation was refused, and only where the thread is suspended; where the machine refuses the command, it
    /// takes no memory. Then nothing has changed.
    pub fn set_slots(
        &mut self,
        thread: ObjectId,
        frame: FrameId,
        values: &[(i32, Value)],
    ) -> Result<Reply, NoMemory>
        ensures ok { IfOk result (λ reply.
            CarriesOut M.meaning (action.SetSlots thread.0 frame.0 values.now) self.old self.new
            (reply_meaning reply)) }
        ensures err { OnErr result (self.new ≡ self.old) }
        // A refusal by the machine takes no memory.
        ensures memory { IfErr result (λ _.
            IsTrue (takes_memory (M.meaning.write_answer self.old.moment.machine thread.0 frame.0
            values.now))) }
        ensures suspended { IfErr result (λ _. is_suspended self.old.moment.state thread.0 ≡ true) }
    {
        match self.threads.count(thread) {
            None => Ok(Reply::Refused(ErrorCode::INVALID_THREAD)),
            Some(0) => Ok(Reply::Refused(ErrorCode::THREAD_NOT_SUSPENDED)),
            Some(_) => match self.machine.write_slots(thread, frame, values)? {
                Answer::Data(_) => Ok(Reply::Done),
                Answer::Error(error) => Ok(Reply::Refused(error)),
            },
        }
    }

    /// VirtualMachine.AllThreads: the live threads by rising id; `INTERNAL` where they are longer than a packet.
    ///
    /// # Errors
    /// `NoMemory` where an allocation was refused, and only where there are no more threads than a packet has bytes.
    pub fn ask_all_threads(&self, alloc: Global) -> Result<Sent, NoMemory>
        ensures value { IfOk result (λ sent. IsSent (M.meaning.sizes self.now.moment.machine)
            (bounded self.now.settings (M.meaning.sizes self.now.moment.machine)
            (all_threads self.now.moment.state)) sent) }
        ensures encoded { IfOk result (λ sent.
            EncodesAnswer (M.meaning.sizes self.now.moment.machine) commands.ALL_THREADS.set
            commands.ALL_THREADS.number (bounded self.now.settings
            (M.meaning.sizes self.now.moment.machine) (all_threads self.now.moment.state))) }
        ensures fits { IfOk result (λ sent. least_packet_limit ≤ self.now.settings.limits.packet
            → 11 + length (sent_bytes (M.meaning.sizes self.now.moment.machine) sent)
            ≤ self.now.settings.limits.packet) }
        ensures memory { IfErr result (λ _. length self.now.moment.state.threads
            ≤ self.now.settings.limits.packet) }
    {
        if self.threads.len() > self.settings.limits().packet() as usize {
            return Ok(Sent::Short(Reply::Refused(ErrorCode::INTERNAL)));
        }
        let rising = self.threads.rising(alloc)?;
        let answer = Answer::Data(listed(alloc, &rising)?);
        let sizes = self.machine.sizes();
        sent(
            alloc,
            &self.settings,
            VIRTUAL_MACHINE,
            ALL_THREADS,
            &sizes,
            answer,
        )
    }
}

/// What an invocation is answered whose data do not read for this fault.
///
/// # Errors
/// `NoMemory` where that is the fault.
fn unreadable(fault: DataFault) -> Result<Sent, NoMemory>
    ensures memory { IfErr result (λ _. fault ≡ WantOfMemory) }
    ensures value { IfOk result (λ sent. sent ≡ short_refused ILLEGAL_ARGUMENT) }
    ensures found { (found : Result (List DatumMeaning) DataFault) → Fails fault found
        → IfOk result (λ _. DoesNotRead found) }
{
    match fault {
        DataFault::NoMemory => Err(NoMemory),
        DataFault::Short(_)
        | DataFault::Extra(_)
        | DataFault::BadTag
        | DataFault::NegativeCount
        | DataFault::NotUtf8
        | DataFault::BadSize
        | DataFault::IdTooWide => { Ok(Sent::Short(Reply::Refused(ErrorCode::ILLEGAL_ARGUMENT))) }
    }
}

/// The bytes of data that are not read, or none.
fn bytes_of(content: &Data) -> &[u8]
    ensures { result.now ≡ unwrap_or (raw_bytes content.now) [] }
{
    content.raw().unwrap_or(&[])
}

/// The thread that is to invoke a method, which stands second in the data.
fn invoking_thread(content: &Data) -> Option<ObjectId>
    ensures { number_of result ≡ invoking_thread content.now }
{
    match content.items() {
        [_, Datum::One(Scalar::ObjectId(thread)), ..] => Some(*thread),
        _ => None,
    }
}

/// The data of a list of these threads.
fn listed(alloc: Global, threads: &[u64]) -> Result<Data, NoMemory>
    ensures { IfOk result (λ content. content ≡ Many (map (λ (t : ℕ).
        Object t ∷ []) threads.now) ∷ []) }
{
    let mut entries = Vec::new(alloc);
    for thread in threads {
        let entry = vec![in alloc; Scalar::ObjectId(ObjectId(*thread))]?;
        entries.push(entry)?;
    }
    let items = vec![in alloc; Datum::Many(entries)]?;
    Ok(Data::new(items))
}
