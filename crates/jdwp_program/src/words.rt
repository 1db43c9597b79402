//! What the words of the command line say.
ghost use Rattle.std.specs.Prelude.{◌≡◌, ◌↔◌, None};
ghost use Rattle.jdwp_program.specs.Words.{KeepsFile, KeepsFiles, KeepsFromCases, KeepsPair};

use jdwp_debuggee::Settings;
use jdwp_debugger::Order;
use jdwp_show::Table;
use jdwp_wire::Limits;

/// A command, with its files and options.
#[derive(Clone, Copy, Debug, PartialEq, Eq)]
pub enum Words<'a> {
    /// `serve-script MACHINE`: a target serves the session of a file, or those of a port.
    ServeScript(ServeScript<'a>),
    /// `attach PLAN`: a debugger runs a plan in one session, over files or at a port.
    Attach(Attach<'a>),
    /// `pair MACHINE PLAN`: a debugger runs a plan in a session with a target, both in this process.
    Pair(Pair<'a>),
    /// `show FILE`: a capture is shown in words.
    Show(CaptureFile<'a>),
    /// `check FILE`: a capture is judged.
    Check(CaptureFile<'a>),
    /// `capture FILE`: the capture of a session in a recording of the network.
    Capture(CaptureFile<'a>),
    /// `draw FILE`: a capture is drawn as a picture.
    Draw(Draw<'a>),
    /// `record`: what a debugger and a target send is handed on and written down.
    Record(Record<'a>),
    /// `--version`: the program's name and version are told.
    Version,
}

/// `FILE [--target-port N] [--stream N]`, behind `show`, `check`, `capture` or `draw`; and `--profile standard|jdi` behind the first two.
#[derive(Clone, Copy, Debug, PartialEq, Eq)]
pub struct CaptureFile<'a> {
    /// The file of a capture, or of a recording of the network.
    pub file: &'a str,
    /// The target's port in a recording, where it is named. Connections without it are not counted then.
    pub target_port: Option<u16>,
    /// Which connection of a recording it is, from 1, by their first packets.
    pub stream: u32,
    /// By which table of commands data are read.
    pub table: Table,
}

/// `draw FILE [--target-port N] [--stream N] [--from N] [--count N]`.
#[derive(Clone, Copy, Debug, PartialEq, Eq)]
pub struct Draw<'a> {
    /// The file, and which session of a recording it is.
    pub capture: CaptureFile<'a>,
    /// The number of the first message that is drawn, from 1.
    pub from: u32,
    /// How many messages are drawn at most.
    pub count: u32,
}

/// Where the other end of a session is.
#[derive(Clone, Copy, Debug, PartialEq, Eq)]
pub enum Peer<'a> {
    /// In files: its bytes are read from one, and this end's are written to the other.
    Files(SessionFiles<'a>),
    /// Behind a port of this machine, 1 to 65,535; or 0, of live sessions alone: one that the system chooses.
    Port(u16),
}

/// `--from F --to F`.
#[derive(Clone, Copy, Debug, PartialEq, Eq)]
pub struct SessionFiles<'a> {
    /// The file that the other end's bytes are read from.
    pub from: &'a str,
    /// The file that this end's bytes are written to.
    pub to: &'a str,
}

/// `serve-script MACHINE (--from F --to F | --port N) [--start all|none] [--count-limit N] [--profile standard|jdi] [--limits L] [--defer]
/// [--turns N]`, or `serve-script MACHINE --port N --live [--pace MS] [--start all|none] [--count-limit N] [--profile standard|jdi]
/// [--limits L] [--defer]`.
#[derive(Clone, Copy, Debug, PartialEq, Eq)]
pub struct ServeScript<'a> {
    /// The file of the machine's script.
    pub machine: &'a str,
    /// Where the debugger is.
    pub peer: Peer<'a>,
    /// Whether every thread is suspended when the target starts, the greatest suspend count that a Suspend gives, the limits of a session,
    /// and the profile.
    pub settings: Settings,
    /// Whether the target defers the replies to commands of the sets ReferenceType and Method.
    pub defer: bool,
    /// How many rounds a session has at most that is not live.
    pub turns: u32,
    /// Where sessions are live, how many milliseconds pass at least between two steps of the machine.
    pub live: Option<u32>,
}

/// `attach PLAN (--from F --to F | --port N [--timeout MS]) [--order one|apart] [--limits L] [--turns N] [--junit F]`.
#[derive(Clone, Copy, Debug, PartialEq, Eq)]
pub struct Attach<'a> {
    /// The file of the plan.
    pub plan: &'a str,
    /// Where the target is.
    pub peer: Peer<'a>,
    /// In which order the target sends replies and events.
    pub order: Order,
    /// The limits of the session.
    pub limits: Limits,
    /// How many turns the session has at most.
    pub turns: u32,
    /// At a port, for how many milliseconds nothing may come until the session is lost, if that has a limit.
    pub timeout: Option<u32>,
    /// Where the expectations of a plan in words are told as test cases, in JUnit's XML.
    pub junit: Option<&'a str>,
}

/// `pair MACHINE PLAN [--memory] [--order one|apart] [--start all|none] [--limits L] [--defer] [--turns N] [--junit F]`.
#[derive(Clone, Copy, Debug, PartialEq, Eq)]
pub struct Pair<'a> {
    /// The file of the machine's script.
    pub machine: &'a str,
    /// The file of the plan.
    pub plan: &'a str,
    /// What is between both ends, where the plan is in numbers; one in words has memory between them.
    pub between: Between,
    /// In which order the debugger takes the target to send replies and events.
    pub order: Order,
    /// Whether every thread is suspended when the target starts, and the limits of both ends.
    pub settings: Settings,
    /// Whether the target defers the replies to commands of the sets ReferenceType and Method.
    pub defer: bool,
    /// How many rounds the run has at most.
    pub turns: u32,
    /// Where the expectations of a plan in words are told as test cases, in JUnit's XML.
    pub junit: Option<&'a str>,
}

/// `record --listen N --port N --to F [--show] [--once]`.
#[derive(Clone, Copy, Debug, PartialEq, Eq)]
pub struct Record<'a> {
    /// The port of 127.0.0.1 at which debuggers connect, 1 to 65,535; 0: one that the system chooses.
    pub listen: u16,
    /// The port of 127.0.0.1 at which the target listens, 1 to 65,535.
    pub port: u16,
    /// The file of the first session's capture. Each other session's has its number behind a dot behind the name.
    pub to: &'a str,
    /// Whether each session is shown in words while it goes on.
    pub show: bool,
    /// Whether the first session that is recorded is the last.
    pub once: bool,
}

/// What is between both ends of a session in this process.
#[derive(Clone, Copy, Debug, PartialEq, Eq)]
pub enum Between {
    /// Memory alone: `--memory`.
    Memory,
    /// A connection of this machine to itself.
    Loopback,
}

/// A file that words write to, though they read it, or write to it for something else.
#[derive(Clone, Copy, Debug, PartialEq, Eq)]
pub struct Emptied {
    /// The option behind which it is written to.
    pub option: &'static str,
    /// The word that stands for it elsewhere.
    pub file: &'static str,
}

impl Words<'_> {
    /// A file that the words write to and is one of those that they read, or is written to for something else; None where they keep them
    /// all apart, by name.
    pub fn emptied(&self) -> Option<Emptied>
        ensures { (result ≡ None) ↔ KeepsFiles self.now }
    {
        match self {
            Words::ServeScript(words) => words.peer.emptied(words.machine, "MACHINE"),
            Words::Attach(words) => match words.peer.emptied(words.plan, "PLAN") {
                None => words.peer.emptied_by_cases(words.junit, words.plan),
                emptied => emptied,
            },
            Words::Pair(words) => words.emptied(),
            Words::Show(_)
            | Words::Check(_)
            | Words::Capture(_)
            | Words::Draw(_)
            | Words::Record(_)
            | Words::Version => None,
        }
    }
}

impl Pair<'_> {
    /// A file that is read, by name, where test cases are to be written to it.
    fn emptied(&self) -> Option<Emptied>
        ensures { (result ≡ None) ↔ KeepsPair self.now }
    {
        let cases = self.junit?;
        let file = match cases {
            _ if cases == self.machine => "MACHINE",
            _ if cases == self.plan => "PLAN",
            _ => return None,
        };
        Some(Emptied {
            option: "--junit",
            file,
        })
    }
}

impl Peer<'_> {
    /// The same of one file, which the words of the command name so, and of what is read from the other end.
    fn emptied(&self, read: &str, name: &'static str) -> Option<Emptied>
        ensures { (result ≡ None) ↔ KeepsFile self.now read.now }
    {
        match self {
            Peer::Files(files) if files.to == read => Some(Emptied {
                option: "--to",
                file: name,
            }),
            Peer::Files(files) if files.to == files.from => Some(Emptied {
                option: "--to",
                file: "--from",
            }),
            Peer::Files(_) | Peer::Port(_) => None,
        }
    }

    /// The same of the file that test cases are written to, if there is one, and of a plan that is read.
    fn emptied_by_cases(&self, cases: Option<&str>, read: &str) -> Option<Emptied>
        ensures { (result ≡ None) ↔ KeepsFromCases cases.entry self.now read.now }
    {
        let cases = cases?;
        let file = match self {
            _ if cases == read => "PLAN",
            Peer::Files(files) if cases == files.from => "--from",
            Peer::Files(files) if cases == files.to => "--to",
            Peer::Files(_) | Peer::Port(_) => return None,
        };
        Some(Emptied {
            option: "--junit",
            file,
        })
    }
}
