//! Calls of a client, within the limit of time that a plan sets, where it sets one.
ghost use Rattle.std.specs.Prelude.{IfErr, IfOk};
ghost use Rattle.jdwp_client.specs.declared.errors.Awaited.TheVariants as awaited;
ghost use Rattle.jdwp_client.specs.Clients.{AsksFor, FailsToAsk, GivesFirst, Stops, lacks_events, lacks_sizes};
ghost use Rattle.jdwp_plan_run.specs.Asking.{Attaches};
ghost use Rattle.jdwp_plan_run.specs.Calls.{Calls, FailsCall};

use jdwp_client::{Client, ClientError, LimitedPipe};
use jdwp_debugger::Command;
use jdwp_event::Composite;
use jdwp_layout::Answer;
use jdwp_wire::IdSizes;

/// Waits until the session has begun.
pub(crate) fn attach<P: LimitedPipe + Drop>(
    client: &mut Client<P>,
    timeout: Option<u32>,
) -> Result<IdSizes, ClientError>
    ensures ok { IfOk result (λ sizes. Calls P.story timeout
        (Attaches P.story sizes) client.old client.new) }
    ensures err { IfErr result (λ e. FailsCall P.story timeout awaited.Beginning
        (Stops P.story lacks_sizes) client.old e client.new) }
{
    match timeout {
        Some(milliseconds) => client.attach_within(u64::from(milliseconds)),
        None => client.attach(),
    }
}

/// Asks a command, and waits for its answer.
pub(crate) fn ask<P: LimitedPipe + Drop>(
    client: &mut Client<P>,
    timeout: Option<u32>,
    command: Command,
) -> Result<Answer, ClientError>
    ensures ok { IfOk result (λ answer. Calls P.story timeout (λ old new.
        AsksFor P.story command old answer new) client.old client.new) }
    ensures err { IfErr result (λ e. FailsCall P.story timeout awaited.Reply
        (FailsToAsk P.story command) client.old e client.new) }
{
    match timeout {
        Some(milliseconds) => client.ask_within(command, u64::from(milliseconds)),
        None => client.ask(command),
    }
}

/// Waits for the next composite.
pub(crate) fn next_event<P: LimitedPipe + Drop>(
    client: &mut Client<P>,
    timeout: Option<u32>,
) -> Result<Composite, ClientError>
    ensures ok { IfOk result (λ c. Calls P.story timeout (λ old new.
        GivesFirst P.story old c new) client.old client.new) }
    ensures err { IfErr result (λ e. FailsCall P.story timeout awaited.Event
        (Stops P.story lacks_events) client.old e client.new) }
{
    match timeout {
        Some(milliseconds) => client.next_event_within(u64::from(milliseconds)),
        None => client.next_event(),
    }
}
