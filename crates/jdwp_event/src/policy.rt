//! Suspend policies, and the sizes and depths of steps (JDWP specification, "SuspendPolicy Constants", "StepSize Constants",
//! "StepDepth Constants").
ghost use Rattle.std.specs.Prelude.{◌≡◌};
ghost use Rattle.jdwp_event.specs.Constants.{policy_byte, policy_of_byte, size_number, size_of_number, depth_number, depth_of_number};

/// Which threads an event suspends, the more suspending policy being the greater.
#[derive(Clone, Copy, Debug, PartialEq, Eq, PartialOrd, Ord)]
pub enum Policy {
    /// 0: no thread.
    None,
    /// 1: the thread of the event.
    EventThread,
    /// 2: every thread.
    All,
}

impl Policy {
    /// The byte of the policy.
    pub fn byte(self) -> u8
        ensures { result ≡ policy_byte self }
    {
        match self {
            Policy::None => 0,
            Policy::EventThread => 1,
            Policy::All => 2,
        }
    }

    /// The policy of a byte; None above 2.
    pub fn of_byte(byte: u8) -> Option<Policy>
        ensures { result ≡ policy_of_byte byte }
    {
        match byte {
            0 => Some(Policy::None),
            1 => Some(Policy::EventThread),
            2 => Some(Policy::All),
            _ => None,
        }
    }
}

/// How far a step goes.
#[derive(Clone, Copy, Debug, PartialEq, Eq)]
pub enum StepSize {
    /// 0: by one move of the frame.
    Min,
    /// 1: to another line.
    Line,
}

impl StepSize {
    /// The number of the size.
    pub fn number(self) -> i32
        ensures { result ≡ size_number self }
    {
        match self {
            StepSize::Min => 0,
            StepSize::Line => 1,
        }
    }

    /// The size of a number; None where no size has it.
    pub fn of_number(number: i32) -> Option<StepSize>
        ensures { result ≡ size_of_number number }
    {
        match number {
            0 => Some(StepSize::Min),
            1 => Some(StepSize::Line),
            _ => None,
        }
    }
}

/// Whether a step goes into calls.
#[derive(Clone, Copy, Debug, PartialEq, Eq)]
pub enum StepDepth {
    /// 0: into any call.
    Into,
    /// 1: over calls.
    Over,
    /// 2: out of the method.
    Out,
}

impl StepDepth {
    /// The number of the depth.
    pub fn number(self) -> i32
        ensures { result ≡ depth_number self }
    {
        match self {
            StepDepth::Into => 0,
            StepDepth::Over => 1,
            StepDepth::Out => 2,
        }
    }

    /// The depth of a number; None where no depth has it.
    pub fn of_number(number: i32) -> Option<StepDepth>
        ensures { result ≡ depth_of_number number }
    {
        match number {
            0 => Some(StepDepth::Into),
            1 => Some(StepDepth::Over),
            2 => Some(StepDepth::Out),
            _ => None,
        }
    }
}
