//! The commands of lines.
ghost use Rattle.std.specs.Prelude.{◌≡◌, ◌≢◌, ◌∷◌, [], ℕ, List, None, Ok, string_bytes, IfErr, IfOk};
ghost use Rattle.std.specs.Option.{option_map};
ghost use Rattle.jdwp_action.specs.Actions as actions;
ghost use Rattle.jdwp_client.specs.Clients.{AsksFor};
ghost use Rattle.jdwp_layout.specs.Meanings.{DatumMeaning, meanings};
ghost use Rattle.jdwp_layout.specs.Rows.{row_shapes};
ghost use Rattle.jdwp_layout.specs.Shapes.{shape};
ghost use Rattle.jdwp_plan.specs.Filling as filling;
ghost use Rattle.jdwp_plan_run.specs.declared.stop.LineRefusal.TheVariants as refusal;
ghost use Rattle.jdwp_plan_run.specs.declared.stop.Stop.TheVariants as stop;
ghost use Rattle.jdwp_plan_run.specs.Asking.{AskStops, AsksLine, AsksReady, CallStops, CommandStops, DataStops, FillStops, IsCommand, IsNoData, IsReadAs, IsSpaced, ReadsData, ReadyStops, SaysData, TextStops, shapes_at};
ghost use Rattle.jdwp_plan_run.specs.Calls.{Calls};

use crate::calls::{ask, attach};
use crate::stop::{LineRefusal, Stop};
use jdwp_client::{Client, LimitedPipe};
use jdwp_debugger::Command;
use jdwp_layout::{Answer, Datum, Layout, Layouts, layout_of};
use jdwp_plan::{FillFault, Values};
use jdwp_text::{TextFault, read_items};
use jdwp_wire::{IdSizes, NoMemory};
use std::alloc::Global;
use std::str;

/// Asks the command of a line, once the session has begun, and waits for its answer.
pub(crate) fn answer_to<P: LimitedPipe + Drop>(
    alloc: Global,
    client: &mut Client<P>,
    timeout: Option<u32>,
    values: &Values,
    set: u8,
    number: u8,
    text: &Option<String>,
) -> Result<Answer, Stop>
    ensures ok { IfOk result (λ answer. AsksLine P.story timeout values.now set number
        (option_map string_bytes text.now) answer client.old client.new) }
    ensures err { IfErr result (λ why. AskStops P.story timeout values.now set number
        (option_map string_bytes text.now) why client.old client.new) }
{
    match attach(client, timeout) {
        Ok(sizes) => ask_line(alloc, client, timeout, &sizes, values, set, number, text),
        Err(error) => Err(Stop::Client(error)),
    }
}

/// The same where the session has begun, and ids have these widths.
fn ask_line<P: LimitedPipe + Drop>(
    alloc: Global,
    client: &mut Client<P>,
    timeout: Option<u32>,
    sizes: &IdSizes,
    values: &Values,
    set: u8,
    number: u8,
    text: &Option<String>,
) -> Result<Answer, Stop>
    ensures ok { IfOk result (λ answer. AsksReady P.story timeout sizes.now values.now set number
        (option_map string_bytes text.now) answer client.old client.new) }
    ensures err { IfErr result (λ why. ReadyStops P.story timeout sizes.now values.now set number
        (option_map string_bytes text.now) why client.old client.new) }
{
    match command_of(alloc, sizes, values, set, number, text) {
        Ok(command) => ask_command(client, timeout, command),
        Err(stop) => Err(stop),
    }
}

/// Asks a command, and waits for its answer.
fn ask_command<P: LimitedPipe + Drop>(
    client: &mut Client<P>,
    timeout: Option<u32>,
    command: Command,
) -> Result<Answer, Stop>
    ensures ok { IfOk result (λ answer. Calls P.story timeout (λ old new.
        AsksFor P.story command old answer new) client.old client.new) }
    ensures err { IfErr result (λ why. CallStops P.story timeout command why client.old
        client.new) }
{
    match ask(client, timeout, command) {
        Ok(answer) => Ok(answer),
        Err(error) => Err(Stop::Client(error)),
    }
}

/// The command of a line: its data are what the text says, with the values that are bound, under the layout of its request.
fn command_of(
    alloc: Global,
    sizes: &IdSizes,
    values: &Values,
    set: u8,
    number: u8,
    text: &Option<String>,
) -> Result<Command, Stop>
    ensures ok { IfOk result (IsCommand sizes.now values.now set number
        (option_map string_bytes text.now)) }
    ensures err { IfErr result (CommandStops values.now set number
        (option_map string_bytes text.now)) }
{
    match layouts_of(set, number) {
        Some(layouts) => read_command(alloc, &layouts.request, sizes, values, set, number, text),
        None => raw_command(alloc, set, number, text),
    }
}

/// The layouts of a command, where its data are read.
fn layouts_of(set: u8, number: u8) -> Option<Layouts>
    ensures { row_shapes result ≡ shapes_at set number }
{
    match layout_of(set, number) {
        Some(row) => row.layouts,
        None => None,
    }
}

/// The command that carries the data of a line, in this layout.
fn read_command(
    alloc: Global,
    layout: &Layout,
    sizes: &IdSizes,
    values: &Values,
    set: u8,
    number: u8,
    text: &Option<String>,
) -> Result<Command, Stop>
    ensures ok { IfOk result (λ command. (items : List DatumMeaning)
        × ReadsData sizes.now (shape layout.now) values.now (option_map string_bytes text.now) items
        × (command ≡ record { set = set; number = number; carried = actions.Content items })) }
    ensures err { IfErr result (DataStops values.now (option_map string_bytes text.now)) }
{
    match data_of(alloc, layout, sizes, values, text) {
        Ok(items) => Ok(Command::new(set, number, items)),
        Err(stop) => Err(stop),
    }
}

/// The command of a line whose data are not read: it has none.
fn raw_command(alloc: Global, set: u8, number: u8, text: &Option<String>) -> Result<Command, Stop>
    ensures ok { IfOk result (λ command. (option_map string_bytes text.now ≡ None)
        × (command ≡ record { set = set; number = number; carried = actions.Raw [] })) }
    ensures err { IfErr result (λ why. (option_map string_bytes text.now ≢ None)
        × (why ≡ stop.Refused refusal.NoLayout)) }
{
    match text {
        Some(_) => Err(Stop::Refused(LineRefusal::NoLayout)),
        None => Ok(Command::raw(set, number, Vec::new(alloc))),
    }
}

/// The data of a line, with the values that are bound.
fn data_of(
    alloc: Global,
    layout: &Layout,
    sizes: &IdSizes,
    values: &Values,
    text: &Option<String>,
) -> Result<Vec<Datum>, Stop>
    ensures ok { IfOk result (λ items. ReadsData sizes.now (shape layout.now) values.now
        (option_map string_bytes text.now) (meanings items.items)) }
    ensures err { IfErr result (DataStops values.now (option_map string_bytes text.now)) }
{
    match data_text(alloc, values, text) {
        Ok(full) => items_of(alloc, layout, sizes, full.as_slice()),
        Err(stop) => Err(stop),
    }
}

/// The text of the data of a line with the values that are bound, each item behind a space.
fn data_text(alloc: Global, values: &Values, text: &Option<String>) -> Result<Vec<u8>, Stop>
    ensures ok { IfOk result (λ full. SaysData values.now (option_map string_bytes text.now)
        full.items) }
    ensures err { IfErr result (TextStops values.now (option_map string_bytes text.now)) }
{
    match text {
        Some(text) => spaced_text(alloc, values, text.as_bytes()),
        None => Ok(Vec::new(alloc)),
    }
}

/// The text of a line with the values that are bound, behind a space.
fn spaced_text(alloc: Global, values: &Values, text: &[u8]) -> Result<Vec<u8>, Stop>
    ensures ok { IfOk result (λ full. IsSpaced values.now text.now full.items) }
    ensures err { IfErr result (FillStops values.now text.now) }
{
    match filled(alloc, values, text) {
        Ok(rest) => spaced(alloc, rest.as_slice()),
        Err(stop) => Err(stop),
    }
}

/// A text behind a space.
fn spaced(alloc: Global, text: &[u8]) -> Result<Vec<u8>, Stop>
    ensures ok { IfOk result (λ full. full.items ≡ 32 ∷ text.now) }
    ensures err { IfErr result (λ why. why ≡ stop.NoMemory) }
{
    match behind_space(alloc, text) {
        Ok(full) => Ok(full),
        Err(_) => Err(Stop::NoMemory),
    }
}

/// The same, or that there is no memory.
fn behind_space(alloc: Global, text: &[u8]) -> Result<Vec<u8>, NoMemory>
    ensures { IfOk result (λ full. full.items ≡ 32 ∷ text.now) }
{
    let mut full = Vec::new(alloc);
    full.push(b' ')?;
    full.extend_from_slice(text)?;
    Ok(full)
}

/// The text of a line with the values that are bound.
pub(crate) fn filled(alloc: Global, values: &Values, text: &[u8]) -> Result<Vec<u8>, Stop>
    ensures ok { IfOk result (λ full. filling.filled values.now text.now ≡ Ok full.items) }
    ensures err { IfErr result (FillStops values.now text.now) }
{
    match values.fill(alloc, text) {
        Ok(filled) => Ok(filled),
        Err(FillFault::NoMemory) => Err(Stop::NoMemory),
        Err(fault) => Err(Stop::Refused(LineRefusal::Fill(fault))),
    }
}

/// The data that are shown as this text.
fn items_of(
    alloc: Global,
    layout: &Layout,
    sizes: &IdSizes,
    text: &[u8],
) -> Result<Vec<Datum>, Stop>
    ensures ok { IfOk result (λ items. IsReadAs sizes.now (shape layout.now) text.now
        (meanings items.items)) }
    ensures err { IfErr result IsNoData }
{
    match str::from_utf8(text) {
        Ok(text) => items_in(alloc, layout, sizes, text),
        Err(_) => Err(Stop::Refused(LineRefusal::NotText)),
    }
}

/// The same of a text that is UTF-8.
fn items_in(alloc: Global, layout: &Layout, sizes: &IdSizes, text: &str) -> Result<Vec<Datum>, Stop>
    ensures ok { IfOk result (λ items. IsReadAs sizes.now (shape layout.now) text.now
        (meanings items.items)) }
    ensures err { IfErr result IsNoData }
{
    match read_items(alloc, layout, sizes, text) {
        Ok(items) => Ok(items),
        Err(TextFault::NoMemory) => Err(Stop::NoMemory),
        Err(fault) => Err(Stop::Refused(LineRefusal::Data(fault))),
    }
}
