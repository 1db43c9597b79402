//! Laws: each function says what holds, in its contract, and does nothing; to call it is to cite it.
ghost use Rattle.jdwp_mirror.specs.Laws.{AllAreCounted, OneIsCounted, FramesShow, ErrorsForget, ListsForget, EventsCount, RequestsAreKept, RefusesEvents, RefusesReplies};

/// An OK reply to a Suspend or a Resume moves the counts that it is about and no other, never above 2,147,483,647; one to a Suspend of
/// the whole machine holds nobody.
pub fn counts_by_commands()
    ensures all { AllAreCounted }
    ensures one { OneIsCounted }
{}

/// An OK reply to a command of StackFrame shows its thread alive, and changes no count.
pub fn shows_by_frames()
    ensures { FramesShow }
{}

/// INVALID_THREAD, a list of all threads, Exit and Dispose forget threads.
pub fn forgets_ended_threads()
    ensures errors { ErrorsForget }
    ensures lists { ListsForget }
{}

/// An event suspends its thread, all threads or none, by its policy; one of no thread with the policy ALL suspends all that are known.
pub fn counts_by_events()
    ensures { EventsCount }
{}

/// Requests are kept as asked under the id in the reply, and go by their kind and id.
pub fn keeps_requests()
    ensures { RequestsAreKept }
{}

/// Packets that no target may send are refused.
pub fn refuses_packets()
    ensures events { RefusesEvents }
    ensures replies { RefusesReplies }
{}
