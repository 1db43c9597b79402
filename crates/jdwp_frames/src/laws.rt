//! Laws: each function says what holds, in its contract, and does nothing; to call it is to cite it.
ghost use Rattle.jdwp_frames.specs.Frames.{KeepsWhatEachKeeps};
ghost use Rattle.jdwp_frames.specs.Lasting.{FramesStayTrue};
ghost use Rattle.jdwp_model.specs.Rests.{Rests};

use jdwp_machine::Machine;

/// What is kept behind a list of calls is just what each of them keeps: what was read of a thread is there as long as no command was asked that
/// may change it, and behind each call the thread was held and no such command was unanswered; and no longer.
pub fn keeps_what_each_call_keeps()
    ensures { KeepsWhatEachKeeps }
{}

/// What a debugger was told of a thread's frames (Frames and FrameCount of ThreadReference, GetValues and ThisObject of StackFrame) the target
/// would answer now, whatever is under way: over a `Link`, where as it was told the thread was held and no command was unanswered that may change
/// it, none was asked since, and the thread is held now; while the machine lives and the target noticed no loss in this session.
pub fn frames_stay_true<M: Machine>()
    ensures { FramesStayTrue M.meaning }
{
    rests_on_laws::<M>();
}

/// What the model of a session takes from the laws of machines and of the debuggee.
fn rests_on_laws<M: Machine>()
    ensures { Rests M.meaning }
{
    jdwp_debuggee::laws::moves_counts_and_requests::<M>();
    jdwp_debuggee::laws::changes_machine_at_exit_slots_and_strings::<M>();
    jdwp_debuggee::laws::answers_id_sizes::<M>();
    jdwp_debuggee::laws::accepts_the_three_policies::<M>();
    jdwp_debuggee::laws::reports_one_thread::<M>();
    jdwp_debuggee::laws::steps_where_it_runs::<M>();
}
