//! Event kinds (JDWP specification, "EventKind Constants").
ghost use Rattle.std.specs.Prelude.{◌≡◌};
ghost use Rattle.jdwp_event.specs.EventKinds.{kind_byte, kind_of_byte};

use jdwp_layout::event_kinds;

/// What kind of event a request asks for, and an event is.
#[derive(Clone, Copy, Debug, PartialEq, Eq)]
pub enum EventKind {
    SingleStep = event_kinds::SINGLE_STEP as isize,
    Breakpoint = event_kinds::BREAKPOINT as isize,
    FramePop = event_kinds::FRAME_POP as isize,
    Exception = event_kinds::EXCEPTION as isize,
    UserDefined = event_kinds::USER_DEFINED as isize,
    ThreadStart = event_kinds::THREAD_START as isize,
    ThreadDeath = event_kinds::THREAD_DEATH as isize,
    ClassPrepare = event_kinds::CLASS_PREPARE as isize,
    ClassUnload = event_kinds::CLASS_UNLOAD as isize,
    ClassLoad = event_kinds::CLASS_LOAD as isize,
    FieldAccess = event_kinds::FIELD_ACCESS as isize,
    FieldModification = event_kinds::FIELD_MODIFICATION as isize,
    ExceptionCatch = event_kinds::EXCEPTION_CATCH as isize,
    MethodEntry = event_kinds::METHOD_ENTRY as isize,
    MethodExit = event_kinds::METHOD_EXIT as isize,
    MethodExitWithReturnValue = event_kinds::METHOD_EXIT_WITH_RETURN_VALUE as isize,
    MonitorContendedEnter = event_kinds::MONITOR_CONTENDED_ENTER as isize,
    MonitorContendedEntered = event_kinds::MONITOR_CONTENDED_ENTERED as isize,
    MonitorWait = event_kinds::MONITOR_WAIT as isize,
    MonitorWaited = event_kinds::MONITOR_WAITED as isize,
    VmStart = event_kinds::VM_START as isize,
    VmDeath = event_kinds::VM_DEATH as isize,
}

impl EventKind {
    /// The byte of the kind.
    pub fn byte(self) -> u8
        ensures { result ≡ kind_byte self }
    {
        self as u8
    }

    /// The kind of a byte; None where no kind has it.
    pub fn of_byte(byte: u8) -> Option<EventKind>
        ensures { result ≡ kind_of_byte byte }
    {
        match byte {
            event_kinds::SINGLE_STEP => Some(EventKind::SingleStep),
            event_kinds::BREAKPOINT => Some(EventKind::Breakpoint),
            event_kinds::FRAME_POP => Some(EventKind::FramePop),
            event_kinds::EXCEPTION => Some(EventKind::Exception),
            event_kinds::USER_DEFINED => Some(EventKind::UserDefined),
            event_kinds::THREAD_START => Some(EventKind::ThreadStart),
            event_kinds::THREAD_DEATH => Some(EventKind::ThreadDeath),
            event_kinds::CLASS_PREPARE => Some(EventKind::ClassPrepare),
            event_kinds::CLASS_UNLOAD => Some(EventKind::ClassUnload),
            event_kinds::CLASS_LOAD => Some(EventKind::ClassLoad),
            event_kinds::FIELD_ACCESS => Some(EventKind::FieldAccess),
            event_kinds::FIELD_MODIFICATION => Some(EventKind::FieldModification),
            event_kinds::EXCEPTION_CATCH => Some(EventKind::ExceptionCatch),
            event_kinds::METHOD_ENTRY => Some(EventKind::MethodEntry),
            event_kinds::METHOD_EXIT => Some(EventKind::MethodExit),
            event_kinds::METHOD_EXIT_WITH_RETURN_VALUE => Some(
                EventKind::MethodExitWithReturnValue,
            ),
            event_kinds::MONITOR_CONTENDED_ENTER => Some(EventKind::MonitorContendedEnter),
            event_kinds::MONITOR_CONTENDED_ENTERED => Some(EventKind::MonitorContendedEntered),
            event_kinds::MONITOR_WAIT => Some(EventKind::MonitorWait),
            event_kinds::MONITOR_WAITED => Some(EventKind::MonitorWaited),
            event_kinds::VM_START => Some(EventKind::VmStart),
            event_kinds::VM_DEATH => Some(EventKind::VmDeath),
            _ => None,
        }
    }
}
