//! Laws: each function says what holds, in its contract, and does nothing; to call it is to cite it.
ghost use Rattle.std.specs.Prelude.{◌≡◌, ◌≢◌, ◌≤◌, ℕ, List, [], Some, false, true};
ghost use Rattle.jdwp_machine.specs.Meanings.{Meaning};
ghost use Rattle.jdwp_debuggee.specs.Settings.{Settings};
ghost use Rattle.jdwp_debuggee.specs.State.{Moment, State};
ghost use Rattle.jdwp_action.specs.Actions.{Command, action_of, IdSizes, SetRequest};
ghost use Rattle.jdwp_debuggee.specs.Effects.{effect};
ghost use Rattle.jdwp_debuggee.specs.Breadth.{is_plain, keeps_machine};
ghost use Rattle.jdwp_action.specs.AnswerPackets.{sizes_answer};
ghost use Rattle.jdwp_debuggee.specs.Answering.{is_answered, with_bytes};
ghost use Rattle.jdwp_debuggee.specs.Answers.{IsLeastThread, least_thread, query_of};
ghost use Rattle.jdwp_debuggee.specs.Facts.{Facts, IsSound, is_data};
ghost use Rattle.jdwp_debuggee.specs.InvocationLaws.{Invokes};
ghost use Rattle.jdwp_debuggee.specs.Reports.{HavePolicies, IsReport};
ghost use Rattle.jdwp_debuggee.specs.Sending.{FitsPacket};
ghost use Rattle.jdwp_debuggee.specs.Steps.{may_step, occurs};
ghost use Rattle.jdwp_event.specs.Composites.{CompositeMeaning, POLICY_ALL, vm_death};
ghost use Rattle.jdwp_event.specs.Requests.{all_asked};
ghost use Rattle.jdwp_layout.specs.Meanings.{ScalarMeaning};
ghost use Rattle.jdwp_layout.specs.Reads.{data_at};
ghost use Rattle.jdwp_layout.specs.Shapes.{ItemShape};
ghost use Rattle.jdwp_layout.specs.Invocations.{invocation_request};
ghost use Rattle.jdwp_wire.specs.Widths.{Widths};
ghost use Rattle.jdwp_wire.specs.Limits.{least_packet_limit};
ghost use Rattle.jdwp_debuggee.specs.Running.{Runs};

use jdwp_machine::Machine;

/// What commands and steps do to suspend counts and to event requests, and what they answer and tell of them, from any sound moment:
/// they leave it sound. All that is said of a session rests on this and on the laws below, and on no more of what commands and steps do.
pub fn moves_counts_and_requests<M: Machine>()
    ensures { (settings : Settings) → Facts M.meaning settings }
{}

/// Commands that no line of the definitions names as changing something leave the state.
pub fn leaves_state_at_plain_commands<M: Machine>()
    ensures { (settings : Settings) (now : Moment M) (c : Command) → is_plain (action_of c) ≡ true
        → (effect M.meaning settings now c).after.state ≡ now.state }
{}

/// Of all commands Exit, StackFrame.SetValues and VirtualMachine.CreateString alone change the machine.
pub fn changes_machine_at_exit_slots_and_strings<M: Machine>()
    ensures { (settings : Settings) (now : Moment M) (c : Command) → keeps_machine c
        ≡ true → (effect M.meaning settings now c).after.machine ≡ now.machine }
{}

/// An invocation of a method, where the profile answers it, moves no suspend count, and no thread makes a step for it. It is refused with
/// `ILLEGAL_ARGUMENT` where its data do not read, with `INVALID_THREAD` exactly where its thread is not alive, and with
/// `THREAD_NOT_SUSPENDED` exactly where the thread lives and no event stopped it; else it is answered what the machine says.
pub fn answers_invocations<M: Machine>()
    ensures { (settings : Settings) (now : Moment M) (set number : ℕ) (bytes : List ℕ) (shapes : List
        ItemShape) → IsSound M.meaning settings now
        → is_answered settings.profile (with_bytes set number bytes) ≡ true
        → invocation_request set number ≡ Some shapes
        → Invokes M.meaning settings now (query_of (with_bytes set number bytes))
        (data_at (M.meaning.sizes now.machine) shapes bytes)
        (effect M.meaning settings now (with_bytes set number bytes)) }
{}

/// IDSizes is never refused: it is answered the widths of the machine's ids.
pub fn answers_id_sizes<M: Machine>()
    ensures { (settings : Settings) (now : Moment M) (c : Command) → action_of c ≡ IdSizes
        → (effect M.meaning settings now c).answer ≡ sizes_answer (M.meaning.sizes now.machine) }
{}

/// A request whose policy is none of the three is refused.
pub fn accepts_the_three_policies<M: Machine>()
    ensures { (settings : Settings) (now : Moment M) (c : Command) (kind policy : ℕ) (entries : List
        (List ScalarMeaning)) → action_of c ≡ SetRequest kind policy entries
        → is_data (effect M.meaning settings now c).answer ≡ true → policy ≤ POLICY_ALL }
{}

/// What a step reports for requests of the three policies has such a policy too, an event at least, and one thread in all events.
pub fn reports_one_thread<M: Machine>()
    ensures { (now : Moment M) (t : ℕ) (c : CompositeMeaning)
        → HavePolicies (all_asked now.state.requests) → (occurs M.meaning now t).sends ≡ Some c
        → IsReport c }
{}

/// Where a thread lives, the thread that VM_START names is live, and no live thread has a lower id.
pub fn starts_with_least_thread()
    ensures { (state : State) → state.threads ≢ []
        → IsLeastThread state.threads (least_thread state) }
{}

/// A thread makes a step only where it lives and is not suspended, events are not held, and no thread stands at the count limit.
pub fn steps_where_it_runs<M: Machine>()
    ensures { (settings : Settings) (now : Moment M) (t : ℕ) → may_step M.meaning settings now t
        ≡ true → Runs settings now.state t }
{}

/// VM_DEATH can be written at any widths, and fits each packet limit of 2,048 bytes or more.
pub fn fits_vm_death()
    ensures { (w : Widths) (limit : ℕ) → least_packet_limit ≤ limit → FitsPacket w limit vm_death }
{}
