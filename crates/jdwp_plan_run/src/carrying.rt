//! Lines, one at a time.
ghost use Rattle.std.specs.Prelude.{◌≡◌, ◌-◌, [], None, Some, false, string_bytes, IfErr, OnOk};
ghost use Rattle.std.specs.Option.{option_map};
ghost use Rattle.jdwp_layout.specs.Meanings.{scalar_meaning};
ghost use Rattle.jdwp_show.specs.DataText as shown;
ghost use Rattle.jdwp_plan_run.specs.declared.stop.Stop.TheVariants as stop;
ghost use Rattle.jdwp_plan_run.specs.Expecting.{ItemStops};
ghost use Rattle.jdwp_plan_run.specs.Runs.{AskLineStops, Asks, EventStops, EventsStop, LineDoes, LineStops, TakesEvent, TakesEvents, TellsKnownOf, one_more};
ghost use Rattle.jdwp_plan_run.specs.RunsKept.{BindsIn, BindsText, TellsAnswer, TellsEvent, TellsText, running, telling};
ghost use Rattle.jdwp_plan_run.specs.Tellings.{PrintStops, event_line, printed, reply_line};

use crate::asking::answer_to;
use crate::calls::next_event;
use crate::expecting::{expect, expect_held, item_of};
use crate::stop::Stop;
use crate::telling::{Told, print, print_answer, print_event, told_answer, told_event};
use jdwp_attach::known_text;
use jdwp_client::{Client, LimitedPipe};
use jdwp_end::Pipe;
use jdwp_event::Composite;
use jdwp_layout::{Answer, Scalar};
use jdwp_plan::{Path, PlanLine, Values, scalar_text};
use std::alloc::Global;

/// What a run keeps between its lines.
#[derive(Debug, Drop)]
pub(crate) struct Run {
    pub values: Values,
    /// What was told last.
    pub told: Option<Told>,
    /// How many composites were told.
    pub composites: u32,
    /// How many milliseconds a call of the client may wait.
    pub timeout: Option<u32>,
    pub may_end: bool,
}

impl Run {
    /// Nothing is bound, told or limited.
    pub fn new(alloc: Global) -> Run
        ensures { result ≡ record {
          values = [];
          told = None;
          composites = 0;
          timeout = None;
          may_end = false;
        } }
    {
        Run {
            values: Values::new(alloc),
            told: None,
            composites: 0,
            timeout: None,
            may_end: false,
        }
    }
}

/// Carries a line out.
pub(crate) fn carry_out<P: LimitedPipe + Drop, W: Pipe>(
    alloc: Global,
    client: &mut Client<P>,
    out: &mut W,
    run: &mut Run,
    line: &PlanLine,
) -> Result<(), Stop>
    ensures ok { OnOk result (LineDoes P.story line.now
        (running client.old run.old (W.story out.old))
        (running client.new run.new (W.story out.new))) }
    ensures err { IfErr result (λ why. LineStops P.story line.now
        (running client.old run.old (W.story out.old)) why client.new) }
{
    match line {
        PlanLine::Nothing => Ok(()),
        PlanLine::Version => Ok(()),
        PlanLine::Ask { set, number, data } => {
            carry_ask(alloc, client, out, run, *set, *number, data)
        }
        PlanLine::Let { name, path } => bind(alloc, run, name.as_str(), *path),
        PlanLine::Expect(text) => expect(alloc, &run.values, &run.told, text.as_str()),
        PlanLine::ExpectHeld(text) => {
            expect_held(alloc, client.debugger(), &run.values, text.as_str(), true)
        }
        PlanLine::ExpectFree(text) => {
            expect_held(alloc, client.debugger(), &run.values, text.as_str(), false)
        }
        PlanLine::Timeout(milliseconds) => {
            run.timeout = Some(*milliseconds);
            Ok(())
        }
        PlanLine::Events(count) => take_until(alloc, client, out, run, *count),
        PlanLine::WaitEvent => take_event(alloc, client, out, run),
        PlanLine::Mirror => tell_known(alloc, client, out, run),
        PlanLine::MayEnd => {
            run.may_end = true;
            Ok(())
        }
    }
}

/// Asks a command, waits for its answer, and tells it.
fn carry_ask<P: LimitedPipe + Drop, W: Pipe>(
    alloc: Global,
    client: &mut Client<P>,
    out: &mut W,
    run: &mut Run,
    set: u8,
    number: u8,
    text: &Option<String>,
) -> Result<(), Stop>
    ensures ok { OnOk result (Asks P.story set number (option_map string_bytes text.now)
        (running client.old run.old (W.story out.old))
        (running client.new run.new (W.story out.new))) }
    ensures err { IfErr result (λ why. AskLineStops P.story set number
        (option_map string_bytes text.now) (running client.old run.old (W.story out.old))
        why client.new) }
{
    match answer_to(alloc, client, run.timeout, &run.values, set, number, text) {
        Ok(answer) => tell_answer(alloc, out, run, set, number, answer),
        Err(stop) => Err(stop),
    }
}

/// Tells the answer to a command.
fn tell_answer<W: Pipe>(
    alloc: Global,
    out: &mut W,
    run: &mut Run,
    set: u8,
    number: u8,
    answer: Answer,
) -> Result<(), Stop>
    ensures ok { OnOk result (TellsAnswer set number answer run.old (W.story out.old) run.new
        (W.story out.new)) }
    ensures err { IfErr result PrintStops }
{
    match told_answer(alloc, answer) {
        Ok(told) => show_answer(alloc, out, run, set, number, told),
        Err(_) => Err(Stop::NoMemory),
    }
}

/// The same of an answer of which this is told.
fn show_answer<W: Pipe>(
    alloc: Global,
    out: &mut W,
    run: &mut Run,
    set: u8,
    number: u8,
    told: Told,
) -> Result<(), Stop>
    ensures ok { OnOk result ((run.new ≡ record run.old { told = Some told })
        × (W.story out.new ≡ printed (reply_line set number told.text.items) (W.story out.old))) }
    ensures err { IfErr result PrintStops }
{
    match print_answer(alloc, out, set, number, told.text.as_slice()) {
        Ok(()) => {
            run.told = Some(told);
            Ok(())
        }
        Err(stop) => Err(stop),
    }
}

/// Binds the item at a path to a name.
fn bind(alloc: Global, run: &mut Run, name: &str, path: Path) -> Result<(), Stop>
    ensures ok { OnOk result (BindsIn name.now path run.old run.new) }
    ensures err { IfErr result (ItemStops path (option_map telling run.old.told)) }
{
    match item_of(alloc, &run.told, path) {
        Ok(item) => bind_item(alloc, run, name, item),
        Err(stop) => Err(stop),
    }
}

/// Binds an item to a name.
fn bind_item(alloc: Global, run: &mut Run, name: &str, item: Scalar) -> Result<(), Stop>
    ensures ok { OnOk result (BindsText name.now (shown.scalar_text (scalar_meaning item)) run.old
        run.new) }
    ensures err { IfErr result (λ why. why ≡ stop.NoMemory) }
{
    match scalar_text(alloc, item) {
        Ok(text) => bind_text(alloc, run, name, text),
        Err(_) => Err(Stop::NoMemory),
    }
}

/// Binds a text to a name.
fn bind_text(alloc: Global, run: &mut Run, name: &str, text: Vec<u8>) -> Result<(), Stop>
    ensures ok { OnOk result (BindsText name.now text.items run.old run.new) }
    ensures err { IfErr result (λ why. why ≡ stop.NoMemory) }
{
    match Vec::from_slice(alloc, name.as_bytes()) {
        Ok(name) => bind_both(run, name, text),
        Err(_) => Err(Stop::NoMemory),
    }
}

/// The same of a name of its own.
fn bind_both(run: &mut Run, name: Vec<u8>, text: Vec<u8>) -> Result<(), Stop>
    ensures ok { OnOk result (BindsText name.items text.items run.old run.new) }
    ensures err { IfErr result (λ why. why ≡ stop.NoMemory) }
{
    match run.values.bind(name, text) {
        Ok(()) => Ok(()),
        Err(_) => Err(Stop::NoMemory),
    }
}

/// Waits for the next composite, and tells it.
fn take_event<P: LimitedPipe + Drop, W: Pipe>(
    alloc: Global,
    client: &mut Client<P>,
    out: &mut W,
    run: &mut Run,
) -> Result<(), Stop>
    ensures ok { OnOk result (TakesEvent P.story (running client.old run.old (W.story out.old))
        (running client.new run.new (W.story out.new))) }
    ensures err { IfErr result (λ why. EventStops P.story
        (running client.old run.old (W.story out.old)) why client.new) }
{
    match next_event(client, run.timeout) {
        Ok(composite) => tell_event(alloc, out, run, composite),
        Err(error) => Err(Stop::Client(error)),
    }
}

/// Tells a composite.
fn tell_event<W: Pipe>(
    alloc: Global,
    out: &mut W,
    run: &mut Run,
    composite: Composite,
) -> Result<(), Stop>
    ensures ok { OnOk result (TellsEvent composite run.old (W.story out.old) run.new
        (W.story out.new)) }
    ensures err { IfErr result PrintStops }
{
    match told_event(alloc, composite) {
        Ok(told) => show_event(alloc, out, run, told),
        Err(_) => Err(Stop::NoMemory),
    }
}

/// The same of one of which this is told.
fn show_event<W: Pipe>(alloc: Global, out: &mut W, run: &mut Run, told: Told) -> Result<(), Stop>
    ensures ok { OnOk result ((run.new ≡ record run.old {
      told = Some told;
      composites = one_more run.old.composites;
    }) × (W.story out.new ≡ printed (event_line told.text.items) (W.story out.old))) }
    ensures err { IfErr result PrintStops }
{
    match print_event(alloc, out, told.text.as_slice()) {
        Ok(()) => {
            run.told = Some(told);
            run.composites = run.composites.saturating_add(1);
            Ok(())
        }
        Err(stop) => Err(stop),
    }
}

/// Waits for composites, and tells each, until so many were told in the session.
fn take_until<P: LimitedPipe + Drop, W: Pipe>(
    alloc: Global,
    client: &mut Client<P>,
    out: &mut W,
    run: &mut Run,
    count: u32,
) -> Result<(), Stop>
    ensures ok { OnOk result (TakesEvents P.story (running client.old run.old (W.story out.old))
        (count - run.old.composites) (running client.new run.new (W.story out.new))) }
    ensures err { IfErr result (λ why. EventsStop P.story count
        (running client.old run.old (W.story out.old)) why client.new) }
{
    let missing = count.saturating_sub(run.composites);
    for _taken in 0..missing {
        match take_event(alloc, client, out, run) {
            Ok(()) => {}
            Err(stop) => return Err(stop),
        }
    }
    Ok(())
}

/// Tells what the debugger knows.
fn tell_known<P: LimitedPipe + Drop, W: Pipe>(
    alloc: Global,
    client: &Client<P>,
    out: &mut W,
    run: &mut Run,
) -> Result<(), Stop>
    ensures ok { OnOk result (TellsKnownOf (running client.now run.old (W.story out.old))
        (running client.now run.new (W.story out.new))) }
    ensures err { IfErr result PrintStops }
{
    match known_text(alloc, client.debugger()) {
        Ok(text) => show_known(out, run, text),
        Err(_) => Err(Stop::NoMemory),
    }
}

/// Tells this text.
fn show_known<W: Pipe>(out: &mut W, run: &mut Run, text: String) -> Result<(), Stop>
    ensures ok { OnOk result (TellsText (string_bytes text) run.old (W.story out.old) run.new
        (W.story out.new)) }
    ensures err { IfErr result PrintStops }
{
    show_bytes(out, run, text.into_bytes())
}

/// Tells the text of these bytes.
fn show_bytes<W: Pipe>(out: &mut W, run: &mut Run, text: Vec<u8>) -> Result<(), Stop>
    ensures ok { OnOk result (TellsText text.items run.old (W.story out.old) run.new
        (W.story out.new)) }
    ensures err { IfErr result PrintStops }
{
    match print(out, text.as_slice()) {
        Ok(()) => {
            run.told = Some(Told { text, items: None });
            Ok(())
        }
        Err(stop) => Err(stop),
    }
}
