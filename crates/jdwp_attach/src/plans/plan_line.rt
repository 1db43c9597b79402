//! The lines of a plan.
ghost use Rattle.std.specs.Prelude.{◌≡◌};

/// What one line of a plan says.
#[derive(Debug, Drop)]
pub enum PlanLine {
    /// `ask SET NUMBER`, or `ask SET NUMBER HEX`: a command is asked, and the run goes on at once.
    Ask {
        /// The command set, 0 to 255.
        set: u8,
        /// The command of the set, 0 to 255.
        number: u8,
        /// The data, as they stand in the packet. None where the line has no HEX. Whether they fit the command is not judged.
        data: Vec<u8>,
    },
    /// `answers`: what was asked is answered before the run goes on.
    Answers,
    /// `events N`: so many events, below 2^32, were reported in the session before the run goes on.
    Events(u32),
    /// `mirror`: what the debugger knows is told.
    Mirror,
    /// `lose target`: the target notices that the connection is lost. A line of `pair` alone.
    LoseTarget,
    /// `lose debugger`: the debugger notices that the connection is lost. A line of `pair` alone.
    LoseDebugger,
    /// `attach`: a new session begins. A line of `pair` alone.
    Attach,
}

impl PlanLine {
    ghost use Rattle.jdwp_attach.specs.Lines.{is_of_pair};
    ghost use Rattle.jdwp_attach.specs.PlanLines.{said_by};

    /// Whether `pair` alone carries the line out.
    pub(crate) fn is_of_pair(&self) -> bool
        ensures { result ≡ is_of_pair (said_by self.now) }
    {
        match self {
            PlanLine::LoseTarget | PlanLine::LoseDebugger | PlanLine::Attach => true,
            PlanLine::Ask { .. } | PlanLine::Answers | PlanLine::Events(_) | PlanLine::Mirror => {
                false
            }
        }
    }
}
