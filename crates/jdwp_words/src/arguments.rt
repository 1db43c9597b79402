//! Arguments of the command line: how each is named and told of, and what it takes.
use clap::builder::ValueParser;
use clap::{Arg, ArgAction};
use std::alloc::{AllocError, Global};

/// An argument.
#[derive(Clone, Copy)]
pub(crate) enum Argument {
    Place(Place),
    Valued(Valued),
    Flag(Flag),
}

/// A word by its place among the words, which has to stand.
#[derive(Clone, Copy)]
pub(crate) struct Place {
    pub(crate) name: &'static str,
    /// What help shows in its place.
    pub(crate) shown: &'static str,
    /// What help tells of it.
    pub(crate) help: &'static str,
}

/// An option with a value, which stands at most once.
#[derive(Clone, Copy)]
pub(crate) struct Valued {
    pub(crate) name: &'static str,
    /// What help shows in the place of its value.
    pub(crate) shown: &'static str,
    /// What help tells of it.
    pub(crate) help: &'static str,
    /// What its value has to be.
    pub(crate) values: ValueParser<'static>,
    pub(crate) is_required: bool,
    /// Its value where it does not stand, if it has one then.
    pub(crate) default: &'static [&'static str],
    /// The arguments without which it may not stand.
    pub(crate) needs: &'static [&'static str],
    /// The arguments beside which it may not stand.
    pub(crate) excludes: &'static [&'static str],
}

/// An option without a value, which stands at most once.
#[derive(Clone, Copy)]
pub(crate) struct Flag {
    pub(crate) name: &'static str,
    /// What help tells of it.
    pub(crate) help: &'static str,
    /// The arguments without which it may not stand.
    pub(crate) needs: &'static [&'static str],
    /// The arguments beside which it may not stand.
    pub(crate) excludes: &'static [&'static str],
}

impl Argument {
    /// The argument as clap's.
    pub(crate) fn to_arg<'a>(&self, alloc: Global) -> Result<Arg<'a>, AllocError> {
        match self {
            Argument::Place(place) => Ok(place.to_arg(alloc)),
            Argument::Valued(option) => option.to_arg(alloc),
            Argument::Flag(flag) => flag.to_arg(alloc),
        }
    }
}

impl Place {
    fn to_arg<'a>(self, alloc: Global) -> Arg<'a> {
        Arg::new(alloc, self.name)
            .value_name(self.shown)
            .help(self.help)
            .action(ArgAction::Set)
            .required(true)
    }
}

impl Valued {
    fn to_arg<'a>(self, alloc: Global) -> Result<Arg<'a>, AllocError> {
        let arg = Arg::new(alloc, self.name)
            .value_name(self.shown)
            .help(self.help)
            .action(ArgAction::Set)
            .long(self.name)
            .value_parser(self.values)
            .required(self.is_required)
            .default_values(self.default);
        arg.requires_all(self.needs)?
            .conflicts_with_all(self.excludes)
    }
}

impl Flag {
    fn to_arg<'a>(self, alloc: Global) -> Result<Arg<'a>, AllocError> {
        let arg = Arg::new(alloc, self.name)
            .long(self.name)
            .help(self.help)
            .action(ArgAction::SetTrue);
        arg.requires_all(self.needs)?
            .conflicts_with_all(self.excludes)
    }
}

/// Any number.
const NUMBER: ValueParser<'static> = ValueParser::Unsigned(0, 4_294_967_295);

/// A number from 1 to the greatest int.
const POSITIVE: ValueParser<'static> = ValueParser::Unsigned(1, 2_147_483_647);

/// The number of a port.
const PORT_NUMBER: ValueParser<'static> = ValueParser::Unsigned(1, 65_535);

/// The number of a port; 0 is one that the system chooses.
const ANY_PORT: ValueParser<'static> = ValueParser::Unsigned(0, 65_535);

/// What most options have in common.
const OPTION: Valued = Valued {
    name: "",
    shown: "N",
    help: "",
    values: NUMBER,
    is_required: false,
    default: &[],
    needs: &[],
    excludes: &[],
};

/// What most flags have in common.
const FLAG: Flag = Flag {
    name: "",
    help: "",
    needs: &[],
    excludes: &[],
};

/// The port at which a recorder awaits debuggers.
pub(crate) const LISTEN: Valued = Valued {
    name: "listen",
    help: "The port of 127.0.0.1 at which debuggers connect; 0 is a port that the system chooses",
    values: ANY_PORT,
    is_required: true,
    ..OPTION
};

/// The port at which the target of a recorder listens.
pub(crate) const TARGET: Valued = Valued {
    name: "port",
    help: "The port of 127.0.0.1 at which the target listens",
    values: PORT_NUMBER,
    is_required: true,
    ..OPTION
};

/// A file that a session's bytes are written to, or the capture of a session.
pub(crate) const TO: Valued = Valued {
    name: "to",
    shown: "FILE",
    values: ValueParser::String,
    ..OPTION
};

/// The file of a capture.
pub(crate) const CAPTURE: Place = Place {
    name: "file",
    shown: "FILE",
    help: "A text of lines `> HEX` (from the debugger) and `< HEX` (from the target), or a recording of the network (pcap or pcapng); `-` is standard input",
};

/// The file of a script.
pub(crate) const MACHINE: Place = Place {
    name: "machine",
    shown: "MACHINE",
    help: "The script of the machine to be debugged, in JSON",
};

/// The file of a plan.
pub(crate) const PLAN: Place = Place {
    name: "plan",
    shown: "PLAN",
    help: "A text of lines `ask SET NUMBER [HEX]`, `answers`, `events N` and `mirror`, or a plan in words, whose first line is `plan 2`",
};

/// The target's port in a recording.
pub(crate) const TARGET_PORT: Valued = Valued {
    name: "target-port",
    help: "The target's port in a recording; without it the handshake or the beginning of the connection tells which side is the target",
    values: PORT_NUMBER,
    ..OPTION
};

/// Which connection of a recording it is.
pub(crate) const STREAM: Valued = Valued {
    name: "stream",
    help: "Which connection of a recording, from 1",
    values: POSITIVE,
    default: &["1"],
    ..OPTION
};

/// The number of the first message that is drawn.
pub(crate) const FIRST_MESSAGE: Valued = Valued {
    name: "from",
    help: "The number of the first message that is drawn, from 1",
    values: POSITIVE,
    default: &["1"],
    ..OPTION
};

/// How many messages are drawn at most.
pub(crate) const MESSAGE_COUNT: Valued = Valued {
    name: "count",
    help: "How many messages are drawn at most",
    default: &["200"],
    ..OPTION
};

/// The file that the expectations of a plan in words are told in.
pub(crate) const JUNIT: Valued = Valued {
    name: "junit",
    shown: "FILE",
    help: "Where the expectations of a plan in words are written as test cases, in JUnit's XML",
    values: ValueParser::String,
    ..OPTION
};

/// The file that a session's bytes are read from. With that of `to` it stands where no port does.
pub(crate) const FROM: Valued = Valued {
    name: "from",
    shown: "FILE",
    values: ValueParser::String,
    ..OPTION
};

/// The port that a session is at, in place of files.
pub(crate) const PORT: Valued = Valued {
    name: "port",
    values: PORT_NUMBER,
    excludes: &["from", "to"],
    ..OPTION
};

/// The port that sessions of a target are at, in place of files. (That the system chooses it is for live sessions alone.)
pub(crate) const SERVER_PORT: Valued = Valued {
    help: "The port of 127.0.0.1 at which debuggers connect",
    values: ANY_PORT,
    ..PORT
};

/// That sessions are live.
pub(crate) const LIVE: Flag = Flag {
    name: "live",
    help: "Threads step only while nothing comes, and the next debugger is awaited for ever; --port 0 is a port that the system chooses",
    needs: &["port"],
    excludes: &["from", "to", "turns"],
};

/// How far the steps of live sessions are apart.
pub(crate) const PACE: Valued = Valued {
    name: "pace",
    shown: "MS",
    help: "How many milliseconds pass at least between two steps of live sessions, 0 if it is not given",
    needs: &["live"],
    excludes: &["from", "to", "turns"],
    ..OPTION
};

/// That nothing but memory is between both ends of a session.
pub(crate) const MEMORY: Flag = Flag {
    name: "memory",
    help: "Bytes go from one end to the other in memory, and no connection is made, as a plan in words always has it",
    ..FLAG
};

/// That the target defers replies.
pub(crate) const DEFER: Flag = Flag {
    name: "defer",
    help: "Puts commands of the sets ReferenceType and Method off until a round handles nothing, the newest first",
    ..FLAG
};

/// That sessions are shown that were recorded.
pub(crate) const SHOW: Flag = Flag {
    name: "show",
    help: "Shows each session in words while it goes on",
    ..FLAG
};

/// That one session is recorded.
pub(crate) const ONCE: Flag = Flag {
    name: "once",
    help: "Ends behind the first session that was recorded",
    ..FLAG
};

/// Which threads begin suspended.
pub(crate) const START: Valued = Valued {
    name: "start",
    shown: "WHICH",
    help: "Which threads VM_START suspends",
    values: ValueParser::Names(&["all", "none"]),
    default: &["all"],
    ..OPTION
};

/// The greatest suspend count that a Suspend gives.
pub(crate) const COUNT_LIMIT: Valued = Valued {
    name: "count-limit",
    help: "The greatest suspend count that a Suspend gives",
    values: POSITIVE,
    default: &["65535"],
    ..OPTION
};

/// Whether more than the standard commands are read, or answered.
pub(crate) const PROFILE: Valued = Valued {
    name: "profile",
    shown: "PROFILE",
    values: ValueParser::Names(&["standard", "jdi"]),
    default: &["standard"],
    ..OPTION
};

/// In which order the target sends.
pub(crate) const ORDER: Valued = Valued {
    name: "order",
    shown: "ORDER",
    help: "Whether the target sends replies and events as it acts, or by threads of their own, as Java machines do",
    values: ValueParser::Names(&["one", "apart"]),
    default: &["one"],
    ..OPTION
};

/// The limits of a session.
pub(crate) const LIMITS: Valued = Valued {
    name: "limits",
    shown: "PACKET,LIVE,REQUESTS,PENDING",
    help: "The most bytes of a packet, live threads, event requests and commands that wait",
    values: ValueParser::String,
    ..OPTION
};

/// The most turns of a session.
pub(crate) const TURNS: Valued = Valued {
    name: "turns",
    default: &["100000"],
    ..OPTION
};

/// How long a target may be silent.
pub(crate) const TIMEOUT: Valued = Valued {
    name: "timeout",
    shown: "MS",
    help: "For how many milliseconds nothing may come from the port until the session is lost, for ever if it is not given",
    values: POSITIVE,
    needs: &["port"],
    excludes: &["from", "to"],
    ..OPTION
};
