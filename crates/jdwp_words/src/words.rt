//! The words of the command line, read.
ghost use Rattle.std.specs.Prelude.{◌≡◌, IfOk, true};
ghost use Rattle.jdwp_words.specs.Commands as commands;
ghost use Rattle.jdwp_words.specs.Commands.{RunsPlanOnlyWhere};
ghost use Rattle.jdwp_program.specs.Words.{KeepsFiles};

use crate::arguments::{
    Argument, CAPTURE, COUNT_LIMIT, DEFER, FIRST_MESSAGE, FROM, JUNIT, LIMITS, LISTEN, LIVE,
    MACHINE, MEMORY, MESSAGE_COUNT, ONCE, ORDER, PACE, PLAN, PORT, PROFILE, Place, SERVER_PORT,
    SHOW, START, STREAM, TARGET, TARGET_PORT, TIMEOUT, TO, TURNS, Valued,
};
use crate::refusing::{bad_words, refused};
use clap::error::ErrorKind;
use clap::{Arg, ArgMatches, Command};
use jdwp_debuggee::Settings;
use jdwp_debugger::Order;
use jdwp_machine::Profile;
use jdwp_program::{
    Attach, Between, CaptureFile, Draw, Fault, Pair, Peer, Record, ServeScript, SessionFiles,
    VERSION, Words, decimal, is_all, limits, order, profile, table_of,
};
use jdwp_show::Table;
use jdwp_wire::Limits;
use std::alloc::{AllocError, Global};
use std::convert::AsStr;

/// The greatest suspend count that a Suspend gives, where no option says another.
const STANDARD_COUNT_LIMIT: u32 = 65_535;

/// The name of a command.
#[derive(Clone, Copy)]
enum Name {
    Show,
    Check,
    Capture,
    Draw,
    ServeScript,
    Attach,
    Pair,
    Record,
}

impl Name {
    /// The name alone.
    fn alone(self) -> &'static str {
        match self {
            Name::Show => "show",
            Name::Check => "check",
            Name::Capture => "capture",
            Name::Draw => "draw",
            Name::ServeScript => "serve-script",
            Name::Attach => "attach",
            Name::Pair => "pair",
            Name::Record => "record",
        }
    }

    /// The name behind that of the program.
    fn in_full(self) -> &'static str {
        match self {
            Name::Show => "jdwp show",
            Name::Check => "jdwp check",
            Name::Capture => "jdwp capture",
            Name::Draw => "jdwp draw",
            Name::ServeScript => "jdwp serve-script",
            Name::Attach => "jdwp attach",
            Name::Pair => "jdwp pair",
            Name::Record => "jdwp record",
        }
    }

    /// What help tells of the command.
    fn about(self) -> &'static str {
        match self {
            Name::Show => "Shows a capture of a session in words, a line for each message",
            Name::Check => "Judges a capture of a session: yes, or its first fault",
            Name::Capture =>
                "Makes the capture of a session in a recording of the network, as tcpdump and Wireshark write it",
            Name::Draw => {
                "Draws a capture of a session as a picture in SVG: its messages, the threads' counts and the event requests"
            }
            Name::ServeScript => {
                "Serves the session of one debugger, from a file of its bytes, or sessions at a port"
            }
            Name::Attach => {
                "Runs a plan as the debugger of one session, from a file of the target's bytes, or at a port"
            }
            Name::Pair => {
                "Runs a plan as the debugger of a script's machine, both ends in this process, over a connection at 127.0.0.1 or over memory"
            }
            Name::Record => {
                "Stands between debuggers and a target at ports, hands on what both send, and writes it down as captures"
            }
        }
    }

    /// What stands behind it, in the order in which help tells it.
    fn arguments(self) -> &'static [Argument] {
        match self {
            Name::Show | Name::Check => &OF_A_CAPTURE,
            Name::Capture => &OF_A_RECORDING,
            Name::Draw => &OF_DRAW,
            Name::ServeScript => &OF_SERVE_SCRIPT,
            Name::Attach => &OF_ATTACH,
            Name::Pair => &OF_PAIR,
            Name::Record => &OF_RECORD,
        }
    }
}

static OF_A_CAPTURE: [Argument; 4] = [
    Argument::Place(CAPTURE),
    Argument::Valued(TARGET_PORT),
    Argument::Valued(STREAM),
    Argument::Valued(Valued {
        help: "Which data are read: those of the standard commands, or also those of others that a target of this profile answers",
        ..PROFILE
    }),
];

static OF_A_RECORDING: [Argument; 3] = [
    Argument::Place(Place {
        help: "A recording of the network (pcap or pcapng); `-` is standard input",
        ..CAPTURE
    }),
    Argument::Valued(TARGET_PORT),
    Argument::Valued(STREAM),
];

static OF_DRAW: [Argument; 5] = [
    Argument::Place(CAPTURE),
    Argument::Valued(TARGET_PORT),
    Argument::Valued(STREAM),
    Argument::Valued(FIRST_MESSAGE),
    Argument::Valued(MESSAGE_COUNT),
];

static OF_SERVE_SCRIPT: [Argument; 12] = [
    Argument::Place(MACHINE),
    Argument::Valued(Valued {
        help: "What the debugger sent, in bytes",
        ..FROM
    }),
    Argument::Valued(Valued {
        help: "Where the target's bytes are written",
        ..TO
    }),
    Argument::Valued(SERVER_PORT),
    Argument::Flag(LIVE),
    Argument::Valued(PACE),
    Argument::Valued(START),
    Argument::Valued(COUNT_LIMIT),
    Argument::Valued(Valued {
        help: "What the target answers: the standard commands, or also what debuggers over the Java Debug Interface ask for, as jdb and IDEs",
        ..PROFILE
    }),
    Argument::Valued(LIMITS),
    Argument::Flag(DEFER),
    Argument::Valued(Valued {
        help: "How many rounds a session has at most",
        ..TURNS
    }),
];

static OF_ATTACH: [Argument; 9] = [
    Argument::Place(PLAN),
    Argument::Valued(Valued {
        help: "What the target sent, in bytes",
        ..FROM
    }),
    Argument::Valued(Valued {
        help: "Where the debugger's bytes are written",
        ..TO
    }),
    Argument::Valued(Valued {
        help: "The port of 127.0.0.1 at which the target listens",
        ..PORT
    }),
    Argument::Valued(ORDER),
    Argument::Valued(LIMITS),
    Argument::Valued(Valued {
        help: "How many turns the session of a plan in numbers has at most",
        ..TURNS
    }),
    Argument::Valued(TIMEOUT),
    Argument::Valued(JUNIT),
];

static OF_PAIR: [Argument; 9] = [
    Argument::Place(MACHINE),
    Argument::Place(Place {
        help: "As of `attach`, and in numbers lines `lose target`, `lose debugger` and `attach`, too",
        ..PLAN
    }),
    Argument::Flag(MEMORY),
    Argument::Valued(ORDER),
    Argument::Valued(START),
    Argument::Valued(LIMITS),
    Argument::Flag(DEFER),
    Argument::Valued(Valued {
        help: "How many rounds the run has at most",
        ..TURNS
    }),
    Argument::Valued(JUNIT),
];

static OF_RECORD: [Argument; 5] = [
    Argument::Valued(LISTEN),
    Argument::Valued(TARGET),
    Argument::Valued(Valued {
        help: "Where the capture of the first session is written; those of the next ones are in FILE.2, FILE.3 and so on",
        is_required: true,
        ..TO
    }),
    Argument::Flag(SHOW),
    Argument::Flag(ONCE),
];

/// The names of all commands, in the order in which help tells them.
static NAMES: [Name; 8] = [
    Name::Show,
    Name::Check,
    Name::Capture,
    Name::Draw,
    Name::ServeScript,
    Name::Attach,
    Name::Pair,
    Name::Record,
];

/// Reads the words, the first of which is the program's name.
///
/// # Errors
/// `Words` where they are no command, an option is unknown, stands twice or has no such value, the file of `--to` or `--junit` is named as
/// another of them, or help is asked for. `NoMemory` where an allocation was refused.
pub fn read<'a, S: AsStr>(alloc: Global, words: &'a [S]) -> Result<Words<'a>, Fault<'a>>
    ensures runs { IfOk result (RunsPlanOnlyWhere (commands.runs_plan S.text words.now)) }
    ensures keeps { IfOk result KeepsFiles }
{
    let said = say(alloc, words)?;
    match said.emptied() {
        None => Ok(said),
        Some(emptied) => {
            let refusal = Refusal::Empties(name_of(&said), emptied.option, emptied.file);
            Err(fault_of(alloc, refusal))
        },
    }
}

/// What the words say, whatever files they write to.
fn say<'a, S: AsStr>(alloc: Global, words: &'a [S]) -> Result<Words<'a>, Fault<'a>>
    ensures { IfOk result (RunsPlanOnlyWhere (commands.runs_plan S.text words.now)) }
{
    match command(alloc)?.try_get_matches_from(words) {
        Ok(matches) => match read_matches(&matches, words) {
            Ok(said) => Ok(said),
            Err(refusal) => Err(fault_of(alloc, refusal)),
        },
        Err(error) if error.kind() == ErrorKind::DisplayVersion => Ok(Words::Version),
        Err(error) => Err(refused(alloc, &error)),
    }
}

/// The name of the command that the words say. (No file is written to by the version, which has none.)
fn name_of(words: &Words<'_>) -> Name {
    match words {
        Words::ServeScript(_) => Name::ServeScript,
        Words::Attach(_) => Name::Attach,
        Words::Pair(_) => Name::Pair,
        Words::Record(_) => Name::Record,
        Words::Show(_) => Name::Show,
        Words::Capture(_) => Name::Capture,
        Words::Draw(_) => Name::Draw,
        Words::Check(_) | Words::Version => Name::Check,
    }
}

/// The command that clap found in the words.
fn read_matches<'a, S: AsStr>(
    matches: &ArgMatches<'a>,
    words: &[S],
) -> Result<Words<'a>, Refusal<'a>>
    ensures { IfOk result (RunsPlanOnlyWhere (commands.runs_plan S.text words.now)) }
{
    match matches.subcommand() {
        Some(("show", found)) => Ok(Words::Show(read_capture(found, Name::Show)?)),
        Some(("check", found)) => Ok(Words::Check(read_capture(found, Name::Check)?)),
        Some(("capture", found)) => Ok(Words::Capture(read_capture(found, Name::Capture)?)),
        Some(("draw", found)) => Ok(Words::Draw(read_draw(found)?)),
        Some(("serve-script", found)) => match read_serve_script(found) {
            Ok(said) => Ok(Words::ServeScript(said)),
            Err(refusal) => Err(refusal),
        },
        Some(("record", found)) => Ok(Words::Record(read_record(found)?)),
        Some((name, found)) if runs_plan(words) => read_session(name, found),
        _ => Err(Refusal::NoCommand),
    }
}

/// The command of this name that clap found, which runs a plan.
fn read_session<'a>(name: &str, found: &ArgMatches<'a>) -> Result<Words<'a>, Refusal<'a>>
    ensures { IfOk result (RunsPlanOnlyWhere true) }
{
    if name == "pair" {
        return match read_pair(found) {
            Ok(said) => Ok(Words::Pair(said)),
            Err(refusal) => Err(refusal),
        };
    }
    match read_attach(found) {
        Ok(said) => Ok(Words::Attach(said)),
        Err(refusal) => Err(refusal),
    }
}

/// Whether the word behind the program's name is that of a command that runs a plan: `attach` or `pair`.
fn runs_plan<S: AsStr>(words: &[S]) -> bool
    ensures { result ≡ commands.runs_plan S.text words.now }
{
    match words {
        [_, command, ..] => command.as_str() == "attach" || command.as_str() == "pair",
        _ => false,
    }
}

/// The file of a capture, and which connection of a recording it is.
fn read_capture<'a>(found: &ArgMatches<'a>, of: Name) -> Result<CaptureFile<'a>, Refusal<'a>> {
    Ok(CaptureFile {
        file: value(found, "file")?,
        target_port: read_target_port(found, of)?,
        stream: number(found, "stream", of)?,
        table: read_table(found, of)?,
    })
}

/// By which table of commands data are read.
fn read_table<'a>(found: &ArgMatches<'a>, of: Name) -> Result<Table, Refusal<'a>> {
    match of {
        Name::Show | Name::Check => Ok(table_of(read_profile(found, of)?)),
        Name::Capture | Name::Draw | Name::ServeScript | Name::Attach | Name::Pair | Name::Record =>
            Ok(Table::Standard),
    }
}

/// The file of a capture, and which of its messages are drawn.
fn read_draw<'a>(found: &ArgMatches<'a>) -> Result<Draw<'a>, Refusal<'a>> {
    Ok(Draw {
        capture: read_capture(found, Name::Draw)?,
        from: number(found, "from", Name::Draw)?,
        count: number(found, "count", Name::Draw)?,
    })
}

/// The target's port in a recording, where it is named.
fn read_target_port<'a>(found: &ArgMatches<'a>, of: Name) -> Result<Option<u16>, Refusal<'a>> {
    if !found.contains_id("target-port") {
        return Ok(None);
    }
    Ok(Some(port_number(found, "target-port", of)?))
}

fn read_serve_script<'a>(found: &ArgMatches<'a>) -> Result<ServeScript<'a>, Refusal<'a>> {
    let count_limit = number(found, "count-limit", Name::ServeScript)?;
    let live = read_live(found)?;
    let settings = read_settings(found, count_limit, Name::ServeScript)?;
    Ok(ServeScript {
        settings: settings.with_profile(read_profile(found, Name::ServeScript)?),
        defer: found.get_flag("defer"),
        machine: value(found, "machine")?,
        peer: read_server_peer(found, live.is_some())?,
        turns: number(found, "turns", Name::ServeScript)?,
        live,
    })
}

/// The profile that the option says.
fn read_profile<'a>(found: &ArgMatches<'a>, of: Name) -> Result<Profile, Refusal<'a>> {
    match profile(value(found, "profile")?) {
        Some(profile) => Ok(profile),
        None => Err(Refusal::BadOptions(of)),
    }
}

/// Whether sessions are live, and how many milliseconds pass at least between two steps then.
fn read_live<'a>(found: &ArgMatches<'a>) -> Result<Option<u32>, Refusal<'a>> {
    if !found.get_flag("live") {
        return Ok(None);
    }
    if !found.contains_id("pace") {
        return Ok(Some(0));
    }
    Ok(Some(number(found, "pace", Name::ServeScript)?))
}

/// Where debuggers are. That the system chooses the port is for live sessions alone, which tell it.
fn read_server_peer<'a>(found: &ArgMatches<'a>, is_live: bool) -> Result<Peer<'a>, Refusal<'a>> {
    match read_peer(found, Name::ServeScript)? {
        Peer::Port(0) if !is_live => Err(Refusal::NoPortChosen),
        peer => Ok(peer),
    }
}

/// The settings of a target with this count limit, which the options of this command say.
fn read_settings<'a>(
    found: &ArgMatches<'a>,
    count_limit: u32,
    of: Name,
) -> Result<Settings, Refusal<'a>> {
    let start = value(found, "start")?;
    let limits = read_limits(found, of)?;
    match settings(start, count_limit, limits) {
        Some(settings) => Ok(settings),
        None => Err(Refusal::BadOptions(of)),
    }
}

/// The settings that these are; None where they are no settings.
fn settings(start: &str, count_limit: u32, limits: Limits) -> Option<Settings> {
    Settings::new(is_all(start)?, count_limit, limits)
}

/// The limits that the option says, or the standard ones.
fn read_limits<'a>(found: &ArgMatches<'a>, of: Name) -> Result<Limits, Refusal<'a>> {
    let Some(text) = found.get_str("limits") else {
        return Ok(Limits::standard());
    };
    match limits(text) {
        Some(limits) => Ok(limits),
        None => Err(Refusal::BadLimits(of, text)),
    }
}

fn read_attach<'a>(found: &ArgMatches<'a>) -> Result<Attach<'a>, Refusal<'a>> {
    Ok(Attach {
        plan: value(found, "plan")?,
        peer: read_peer(found, Name::Attach)?,
        order: read_order(found, Name::Attach)?,
        limits: read_limits(found, Name::Attach)?,
        turns: number(found, "turns", Name::Attach)?,
        timeout: read_timeout(found)?,
        junit: found.get_str("junit"),
    })
}

/// For how many milliseconds nothing may come, if that is said.
fn read_timeout<'a>(found: &ArgMatches<'a>) -> Result<Option<u32>, Refusal<'a>> {
    if !found.contains_id("timeout") {
        return Ok(None);
    }
    Ok(Some(number(found, "timeout", Name::Attach)?))
}

/// In which order the target sends that a command of this name has a session with.
fn read_order<'a>(found: &ArgMatches<'a>, of: Name) -> Result<Order, Refusal<'a>> {
    match order(value(found, "order")?) {
        Some(order) => Ok(order),
        None => Err(Refusal::BadOptions(of)),
    }
}

fn read_pair<'a>(found: &ArgMatches<'a>) -> Result<Pair<'a>, Refusal<'a>> {
    Ok(Pair {
        settings: read_settings(found, STANDARD_COUNT_LIMIT, Name::Pair)?,
        defer: found.get_flag("defer"),
        machine: value(found, "machine")?,
        plan: value(found, "plan")?,
        between: read_between(found),
        order: read_order(found, Name::Pair)?,
        turns: number(found, "turns", Name::Pair)?,
        junit: found.get_str("junit"),
    })
}

fn read_record<'a>(found: &ArgMatches<'a>) -> Result<Record<'a>, Refusal<'a>> {
    Ok(Record {
        listen: port_number(found, "listen", Name::Record)?,
        port: port_number(found, "port", Name::Record)?,
        to: value(found, "to")?,
        show: found.get_flag("show"),
        once: found.get_flag("once"),
    })
}

/// What is between both ends of a session in this process.
fn read_between(found: &ArgMatches<'_>) -> Between {
    if found.get_flag("memory") {
        Between::Memory
    } else {
        Between::Loopback
    }
}

/// Where the other end is that a command of this name has a session with.
fn read_peer<'a>(found: &ArgMatches<'a>, of: Name) -> Result<Peer<'a>, Refusal<'a>> {
    if found.contains_id("port") {
        return Ok(Peer::Port(port_number(found, "port", of)?));
    }
    match (found.get_str("from"), found.get_str("to")) {
        (Some(from), Some(to)) => Ok(Peer::Files(SessionFiles { from, to })),
        (None, None) => Err(Refusal::Missing(of, "--from <FILE> and --to <FILE>, or --port <N>")),
        (None, Some(_)) => Err(Refusal::Missing(of, "--from <FILE>")),
        (Some(_), None) => Err(Refusal::Missing(of, "--to <FILE>")),
    }
}

/// The number of a port, which is the value of this option.
fn port_number<'a>(found: &ArgMatches<'a>, name: &'a str, of: Name) -> Result<u16, Refusal<'a>> {
    let number = number(found, name, of)?;
    match u16::try_from(number) {
        Ok(port) => Ok(port),
        Err(_) => Err(Refusal::BadPort(of)),
    }
}

/// The value of an argument that is required or has a default.
fn value<'a>(found: &ArgMatches<'a>, name: &'a str) -> Result<&'a str, Refusal<'a>> {
    match found.get_str(name) {
        Some(text) => Ok(text),
        None => Err(Refusal::NoValue),
    }
}

/// The number that an option of this command has. `+5` is none, though clap takes it.
fn number<'a>(found: &ArgMatches<'a>, name: &'a str, of: Name) -> Result<u32, Refusal<'a>> {
    let text = value(found, name)?;
    match decimal(text) {
        Some(number) => Ok(number),
        None => Err(Refusal::BadNumber(of, name, text)),
    }
}

/// Why words are refused that clap takes: of the words of which command, and of which option with which value.
#[derive(Clone, Copy)]
enum Refusal<'a> {
    NoCommand,
    NoValue,
    BadOptions(Name),
    BadNumber(Name, &'a str, &'a str),
    BadLimits(Name, &'a str),
    BadPort(Name),
    /// That the system chooses the port is for live sessions alone.
    NoPortChosen,
    /// Options that are required where others do not stand.
    Missing(Name, &'a str),
    /// The option behind which a file is written to, and the word that stands for it elsewhere: it is read, or written to for something else.
    Empties(Name, &'a str, &'a str),
}

/// The refusal as the program tells it, with the usage of the command.
fn fault_of<'a>(alloc: Global, refusal: Refusal<'_>) -> Fault<'a> {
    let of = command_of(alloc, refusal);
    match message_of(alloc, refusal) {
        Ok(message) => bad_words(alloc, of, message.as_str()),
        Err(_) => Fault::NoMemory,
    }
}

/// The command whose usage is told.
fn command_of<'a>(alloc: Global, refusal: Refusal<'_>) -> Result<Command<'a>, AllocError> {
    match refusal {
        Refusal::NoCommand | Refusal::NoValue => command(alloc),
        Refusal::NoPortChosen => named_in_full(alloc, Name::ServeScript),
        Refusal::BadOptions(of)
        | Refusal::BadNumber(of, ..)
        | Refusal::BadLimits(of, _)
        | Refusal::BadPort(of)
        | Refusal::Missing(of, _)
        | Refusal::Empties(of, ..) => named_in_full(alloc, of),
    }
}

/// What is told of it.
fn message_of(alloc: Global, refusal: Refusal<'_>) -> Result<String, AllocError> {
    match refusal {
        Refusal::NoCommand => String::from_str(alloc, "a command is missing"),
        Refusal::NoValue => String::from_str(alloc, "a value is missing"),
        Refusal::BadOptions(_) => String::from_str(alloc, "the options don't read"),
        Refusal::BadNumber(_, name, text) => number_message(alloc, text, name),
        Refusal::BadLimits(_, text) => limits_message(alloc, text),
        Refusal::BadPort(_) => String::from_str(alloc, "a port is 1 to 65535"),
        Refusal::NoPortChosen => String::from_str(
            alloc,
            "invalid value '0' for '--port <N>': 0 is not in 1..=65535",
        ),
        Refusal::Missing(_, options) => missing_message(alloc, options),
        Refusal::Empties(_, option, file) => emptying_message(alloc, option, file),
    }
}

/// That this value of the option is no number.
fn number_message(alloc: Global, text: &str, name: &str) -> Result<String, AllocError> {
    let shown = if name == "pace" || name == "timeout" {
        "MS"
    } else {
        "N"
    };
    format!(in alloc; "invalid value '{text}' for '--{name} <{shown}>': a number is digits alone")
}

/// That this value of `--limits` is none.
fn limits_message(alloc: Global, text: &str) -> Result<String, AllocError> {
    format!(in alloc;
        "invalid value '{text}' for '--limits <PACKET,LIVE,REQUESTS,PENDING>': PACKET is 2048 to 1048576, the others are 1 to 1024, and 16 + 542 * REQUESTS is at most PACKET"
    )
}

/// That these options are missing.
fn missing_message(alloc: Global, options: &str) -> Result<String, AllocError> {
    format!(in alloc; "the following required arguments were not provided: {options}")
}

/// That a file would be emptied.
fn emptying_message(alloc: Global, option: &str, file: &str) -> Result<String, AllocError> {
    format!(in alloc; "'{option}' names the file of '{file}': writing to it would empty it")
}

/// The command with the program's name before its own.
fn named_in_full<'a>(alloc: Global, name: Name) -> Result<Command<'a>, AllocError> {
    named(alloc, name)?.bin_name(name.in_full())
}

/// The program's command, with those of its words behind it.
fn command<'a>(alloc: Global) -> Result<Command<'a>, AllocError> {
    let commands = commands(alloc)?;
    program(alloc)?.subcommands(commands)
}

/// The program's command alone.
fn program<'a>(alloc: Global) -> Result<Command<'a>, AllocError> {
    Command::new(alloc, "jdwp")
        .about("Ends of the Java Debug Wire Protocol (JDWP, Java SE 11)")
        .version(VERSION)
        .subcommand_required(true)
        .bin_name("jdwp")
}

/// The commands of the program.
fn commands<'a>(alloc: Global) -> Result<Vec<Command<'a>>, AllocError> {
    let mut commands = Vec::new(alloc);
    push_commands(alloc, &mut commands)?;
    Ok(commands)
}

/// Appends them.
fn push_commands<'a>(alloc: Global, commands: &mut Vec<Command<'a>>) -> Result<(), AllocError> {
    for name in &NAMES {
        commands.push(named(alloc, *name)?)?;
    }
    Ok(())
}

/// The command of this name.
fn named<'a>(alloc: Global, name: Name) -> Result<Command<'a>, AllocError> {
    let (alone, about): (&'a str, &'a str) = (name.alone(), name.about());
    let arguments = arguments(alloc, name.arguments())?;
    Command::new(alloc, alone).about(about).args(arguments)
}

/// These arguments as clap's.
fn arguments<'a>(alloc: Global, all: &[Argument]) -> Result<Vec<Arg<'a>>, AllocError> {
    let mut arguments = Vec::new(alloc);
    push_arguments(alloc, all, &mut arguments)?;
    Ok(arguments)
}

/// Appends them.
fn push_arguments<'a>(
    alloc: Global,
    all: &[Argument],
    arguments: &mut Vec<Arg<'a>>,
) -> Result<(), AllocError> {
    for argument in all {
        arguments.push(argument.to_arg(alloc)?)?;
    }
    Ok(())
}
