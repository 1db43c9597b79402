//! A client that keeps frames.
ghost use Rattle.std.specs.Prelude.{◌≡◌, ◌∷◌, [], IfErr, IfOk, MatchOption, None, Ok, Some, false, is_some, true};

use crate::changing::do_frames_last;
use crate::kept::{forget, forget_changed, forget_freed, is_lasting, keep, place_of};
use jdwp_client::{Client, ClientError};
use jdwp_command::thread_reference;
use jdwp_debugger::{Command, Ticket};
use jdwp_end::Pipe;
use jdwp_event::Composite;
use jdwp_layout::Answer;
use jdwp_value::ObjectId;
use jdwp_wire::IdSizes;
use std::alloc::Global;
use std::marker::Model;

/// A client with the frames that it read of threads, from the first frame to the last.
///
/// Its session is had through it. What is kept of a thread is forgotten as a command is asked that may change it, whether that is sent or not,
/// and behind each call after which the thread is not held, or such a command is unanswered: so what is kept is what each call since it was read
/// keeps (`laws::keeps_what_each_call_keeps`), and a target of this layer would answer the same now (`laws::frames_stay_true`).
#[derive(Drop)]
pub struct FrameClient<P: Pipe> {
    alloc: Global,
    client: Client<P>,
    kept: Vec<(ObjectId, Answer)>,
}

impl<P: Pipe> Model for FrameClient<P> {
    ghost use Rattle.jdwp_frames.specs.Frames as frames;

    ghost Value = { frames.FrameClient P };

    ghost view = { λ c. record { client = c.client; kept = c.kept.items } };
}

impl<P: Pipe + Drop> FrameClient<P> {
    ghost use Rattle.jdwp_client.specs.Clients.{AsksFor, FailsToAsk, FailsToSend, FailsToWait, GivesAnswer, GivesEvent, GivesFirst, Sends, Stops, WaitsTo, ended, lacks_event, lacks_events, lacks_sizes, with_events};
    ghost use Rattle.jdwp_client.specs.Keeping.{has_request};
    ghost use Rattle.jdwp_frames.specs.Frames.{Asks, FailsToAskFrames, FailsToRead, Reads, kept_by, still_true};

    /// Of a client; nothing is kept.
    pub fn new(alloc: Global, client: Client<P>) -> FrameClient<P>
        ensures { result ≡ record { client = client; kept = [] } }
    {
        FrameClient {
            alloc,
            client,
            kept: Vec::new(alloc),
        }
    }

    /// The client itself.
    pub fn client(&self) -> &Client<P>
        ensures { result.now ≡ self.now.client }
    {
        &self.client
    }

    /// The client itself, without what is kept.
    pub fn into_client(self) -> Client<P>
        ensures { result ≡ self.client }
    {
        let FrameClient { client, .. } = self;
        client
    }

    /// As `Client::attach`.
    ///
    /// # Errors
    /// Those of `Client::attach`.
    pub fn attach(&mut self) -> Result<IdSizes, ClientError>
        ensures ok { IfOk result (λ sizes. WaitsTo P.story lacks_sizes self.old.client self.new.client
            × (self.new.client.debugger.sizes ≡ Some sizes)) }
        ensures err { IfErr result (λ e. Stops P.story lacks_sizes self.old.client e self.new.client) }
        ensures kept { self.new.kept ≡ kept_by None self.new.client.debugger self.old.kept }
    {
        let attached = self.client.attach();
        forget_freed(&mut self.kept, self.client.debugger());
        attached
    }

    /// Sends a command, as `Client::send`.
    ///
    /// # Errors
    /// Those of `Client::send`.
    pub fn send(&mut self, command: Command) -> Result<Ticket, ClientError>
        ensures ok { IfOk result (λ ticket. Sends P.story command ticket.0 self.old.client
            self.new.client) }
        ensures err { IfErr result (λ e. FailsToSend P.story command self.old.client e
            self.new.client) }
        ensures kept { self.new.kept
            ≡ kept_by (Some command) self.new.client.debugger self.old.kept }
    {
        forget_changed(&mut self.kept, &command);
        let sent = self.client.send(command);
        forget_freed(&mut self.kept, self.client.debugger());
        sent
    }

    /// Waits for the answer to a command that was sent, as `Client::wait`.
    ///
    /// # Errors
    /// Those of `Client::wait`.
    pub fn wait(&mut self, ticket: Ticket) -> Result<Answer, ClientError>
        ensures ok { IfOk result (λ answer. GivesAnswer P.story ticket.0 self.old.client answer
            self.new.client) }
        ensures err { IfErr result (λ e. FailsToWait P.story ticket self.old.client e
            self.new.client) }
        ensures kept { self.new.kept ≡ kept_by None self.new.client.debugger self.old.kept }
    {
        let answer = self.client.wait(ticket);
        forget_freed(&mut self.kept, self.client.debugger());
        answer
    }

    /// Asks a command, as `Client::ask`.
    ///
    /// # Errors
    /// Those of `Client::ask`.
    pub fn ask(&mut self, command: Command) -> Result<Answer, ClientError>
        ensures ok { IfOk result (λ answer. AsksFor P.story command self.old.client answer
            self.new.client) }
        ensures err { IfErr result (λ e. FailsToAsk P.story command self.old.client e
            self.new.client) }
        ensures kept { self.new.kept
            ≡ kept_by (Some command) self.new.client.debugger self.old.kept }
    {
        forget_changed(&mut self.kept, &command);
        let answer = self.client.ask(command);
        forget_freed(&mut self.kept, self.client.debugger());
        answer
    }

    /// The first event that came and was not taken, as `Client::try_event`: nothing is read.
    pub fn try_event(&mut self) -> Option<Composite>
        ensures event { MatchOption result ((self.old.client.events ≡ [])
            × (self.new.client ≡ self.old.client)) (λ c.
            (self.old.client.events ≡ c ∷ self.new.client.events)
            × (self.new.client ≡ with_events self.new.client.events self.old.client)) }
        ensures kept { self.new.kept ≡ self.old.kept }
    {
        self.client.try_event()
    }

    /// The next event, as `Client::next_event`.
    ///
    /// # Errors
    /// Those of `Client::next_event`.
    pub fn next_event(&mut self) -> Result<Composite, ClientError>
        ensures ok { IfOk result (λ c. GivesFirst P.story self.old.client c self.new.client) }
        ensures err { IfErr result (λ e. Stops P.story lacks_events self.old.client e
            self.new.client) }
        ensures kept { self.new.kept ≡ kept_by None self.new.client.debugger self.old.kept }
    {
        let event = self.client.next_event();
        forget_freed(&mut self.kept, self.client.debugger());
        event
    }

    /// The next event of a request, as `Client::wait_for`.
    ///
    /// # Errors
    /// Those of `Client::wait_for`.
    pub fn wait_for(&mut self, request: i32) -> Result<Composite, ClientError>
        ensures ok { IfOk result (λ c. GivesEvent P.story (has_request request) self.old.client c
            self.new.client) }
        ensures err { IfErr result (λ e. Stops P.story (lacks_event (has_request request))
            self.old.client e self.new.client) }
        ensures kept { self.new.kept ≡ kept_by None self.new.client.debugger self.old.kept }
    {
        let event = self.client.wait_for(request);
        forget_freed(&mut self.kept, self.client.debugger());
        event
    }

    /// The connection is given up, as `Client::close`.
    pub fn close(&mut self)
        ensures client { self.new.client ≡ ended self.old.client }
        ensures kept { self.new.kept ≡ kept_by None self.new.client.debugger self.old.kept }
    {
        self.client.close();
        forget_freed(&mut self.kept, self.client.debugger());
    }

    /// Whether frames of a thread are kept and still true: the thread is held, and no command is unanswered that may change them; and each call
    /// since they were read keeps them.
    pub fn is_still_true(&self, thread: ObjectId) -> bool
        ensures { result ≡ still_true thread.0 self.now }
    {
        do_frames_last(self.client.debugger(), thread) && place_of(&self.kept, thread).is_some()
    }

    /// The frames of a thread that are kept, where they are still true: the data of the answer to Frames. Nothing is asked.
    pub fn frames(&self, thread: ObjectId) -> Option<&Answer>
        ensures { is_some result ≡ still_true thread.0 self.now }
    {
        if !do_frames_last(self.client.debugger(), thread) {
            return None;
        }
        let place = place_of(&self.kept, thread)?;
        Some(&self.kept[place].1)
    }

    /// Sees that the frames of a thread are kept, and asks for them only where those that are kept are not still true. None where they are kept;
    /// else the answer: it is an error, or as it was asked for or as it came the thread was not held, or a command was unanswered that may
    /// change it.
    ///
    /// # Errors
    /// Those of `Client::ask`. Nothing is kept of the thread then.
    pub fn read_frames(&mut self, thread: ObjectId) -> Result<Option<Answer>, ClientError>
        ensures again { still_true thread.0 self.old ≡ true → (result ≡ Ok None)
            × (self.new ≡ self.old) }
        ensures ok { IfOk result (λ left. still_true thread.0 self.old ≡ false
            → Reads P.story thread self.old left self.new) }
        ensures err { IfErr result (λ e. FailsToRead P.story thread self.old e self.new) }
    {
        if self.is_still_true(thread) {
            return Ok(None);
        }
        forget(&mut self.kept, thread);
        self.ask_for_frames(thread)
    }

    /// Asks for the frames of a thread, of which nothing is kept, and keeps them where they last.
    ///
    /// # Errors
    /// As those of `read_frames`.
    fn ask_for_frames(&mut self, thread: ObjectId) -> Result<Option<Answer>, ClientError>
        ensures ok { IfOk result (λ left. Asks P.story thread self.old left self.new) }
        ensures err { IfErr result (λ e. FailsToAskFrames P.story thread self.old e self.new) }
    {
        self.kept.reserve(1)?;
        let command = thread_reference::frames(self.alloc, thread, 0, -1)?;
        let lasted = do_frames_last(self.client.debugger(), thread);
        let answer = self.client.ask(command);
        forget_freed(&mut self.kept, self.client.debugger());
        let lasts = do_frames_last(self.client.debugger(), thread);
        match answer {
            Ok(answer) => {
                let keeps = is_lasting(lasted, lasts, &answer);
                Ok(keep(&mut self.kept, thread, answer, keeps))
            }
            Err(error) => Err(error),
        }
    }
}
