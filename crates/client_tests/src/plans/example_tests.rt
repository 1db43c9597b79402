//! The plans of examples/, run at the machines that their comments name, which an edit there is to be made here, too.
use super::run_tests::{Sink, line_of};
use crate::asserts::expect_same_for;
use jdwp_client::{Client, Options};
use jdwp_debuggee::Settings;
use jdwp_debugger::Order;
use jdwp_end::Streams;
use jdwp_partner::{Partner, Standing};
use jdwp_plan::read_written;
use jdwp_plan_run::run_plan;
use jdwp_script_machine::ScriptMachine;
use jdwp_wire::Limits;
use std::alloc::Global;
use std::io;
use std::process::Abort;

/// At which line a plan ends at the machine of a script, with so many rounds, its status, and how the target stands then.
fn run(
    rt: &impl Abort,
    alloc: Global,
    script: &str,
    text: &str,
    rounds: u32,
) -> (Option<usize>, u8, Standing) {
    let machine = ScriptMachine::read(alloc, script).expect(rt, "a script");
    let settings = Settings::new(true, 65_535, Limits::standard()).expect(rt, "a count limit");
    let partner = Partner::new(alloc, machine, settings, false, rounds).expect(rt, "memory");
    let plan = read_written(alloc, text).expect(rt, "a plan");
    let client = Client::new(alloc, partner, Options::new(Order::One)).expect(rt, "memory");
    let mut client = Box::new(alloc, client).expect(rt, "memory");
    let mut out = Streams::new(io::empty(), Sink(Vec::new(alloc)));
    let ended = run_plan(alloc, &mut client, &plan, &mut out);
    let partner = Box::into_inner(client).into_pipe();
    (
        line_of(&ended),
        ended.verdict().status(),
        partner.standing(),
    )
}

/// examples/A.json: a thread that comes to index 3 of a method three times.
const LOOP: &str = "{\"name\":\"A\",\"sizes\":[8,8,8,8,8],
\"groups\":[{\"id\":5,\"name\":\"main\",\"parent\":0}],
\"classes\":[{\"id\":10,\"tag\":1,\"signature\":\"LMain;\",\"modifiers\":1,
 \"super\":0,\"interfaces\":[],\"source\":\"Main.java\",\"fields\":[],
 \"methods\":[{\"id\":20,\"name\":\"run\",\"signature\":\"()V\",\"modifiers\":1,
  \"args\":0,\"last\":9,\"lines\":[[0,1],[3,2],[4,3]],\"slots\":[]}]}],
\"objects\":[],
\"threads\":[{\"id\":1,\"name\":\"main\",\"group\":5,\"steps\":[
 [\"call\",30,10,20,0,[]],[\"go\",3],[\"go\",4],[\"go\",3],[\"go\",4],
 [\"go\",3],[\"return\",[\"V\",0]]]},
 {\"id\":2,\"name\":\"work\",\"group\":5,\"steps\":[]}]}
";

/// examples/breakpoint.plan.
const BREAKPOINT: &str = "plan 2
# Thread `main` of examples/A.json comes to index 3 of LMain;.run three times. The breakpoint reports the second.
timeout 10000
wait event
expect 2 [(90, 0, _)]
ask VirtualMachine.ClassesBySignature \"LMain;\"
expect 0 [(1, _, _)]
let main = 0.1
ask ReferenceType.Methods $main
expect 0 [(_, \"run\", \"()V\", _)]
let run = 0.0
ask EventRequest.Set 2 1 [(7, 1:$main:$run:3), (1, 2)]
let request = 0
ask VirtualMachine.Resume
wait event
expect 1 [(2, $request, _, 1:$main:$run:3)]
let thread = 0.2
expect held $thread
ask ThreadReference.SuspendCount $thread
expect 0 1
ask VirtualMachine.Dispose
";

/// examples/call.json: a method that calls another.
const CALL: &str = "{\"name\":\"call\",\"sizes\":[8,8,8,8,8],
\"groups\":[{\"id\":5,\"name\":\"main\",\"parent\":0}],
\"classes\":[{\"id\":10,\"tag\":1,\"signature\":\"LMain;\",\"modifiers\":1,
 \"super\":0,\"interfaces\":[],\"source\":\"Main.java\",\"fields\":[],
 \"methods\":[{\"id\":20,\"name\":\"run\",\"signature\":\"()V\",\"modifiers\":1,
  \"args\":0,\"last\":9,\"lines\":[[0,1],[4,2],[8,3]],\"slots\":[]},
  {\"id\":21,\"name\":\"add\",\"signature\":\"()V\",\"modifiers\":1,
  \"args\":0,\"last\":3,\"lines\":[[0,6],[2,7]],\"slots\":[]}]}],
\"objects\":[],
\"threads\":[{\"id\":1,\"name\":\"main\",\"group\":5,\"steps\":[
 [\"call\",30,10,20,0,[]],[\"go\",4],[\"call\",31,10,21,0,[]],[\"go\",2],
 [\"return\",[\"V\",0]],[\"go\",8],[\"return\",[\"V\",0]]]}]}
";

/// examples/step.plan.
const STEP: &str = "plan 2
# From index 4 of LMain;.run of examples/call.json, which calls LMain;.add, a step over the call comes to the next line.
timeout 10000
wait event
ask VirtualMachine.ClassesBySignature \"LMain;\"
let main = 0.1
ask ReferenceType.Methods $main
expect 0 [(_, \"run\", \"()V\", _), (_, \"add\", \"()V\", _)]
let run = 0.0
ask EventRequest.Set 2 1 [(7, 1:$main:$run:4)]
ask VirtualMachine.Resume
wait event
let thread = 0.2
ask EventRequest.Set 1 1 [(10, $thread, 1, 1)]
let step = 0
ask ThreadReference.Resume $thread
wait event
expect 1 [(1, $step, $thread, 1:$main:$run:8)]
expect held $thread
ask ThreadReference.FrameCount $thread
expect 0 1
ask VirtualMachine.Dispose
";

/// Of examples/tour.json the thread that throws what it catches.
const THROW: &str = "{\"name\":\"thrown\",\"sizes\":[8,8,8,8,8],
\"groups\":[{\"id\":2,\"name\":\"workers\",\"parent\":0}],
\"classes\":[{\"id\":4,\"tag\":1,\"signature\":\"Ltour/Overflow;\",\"modifiers\":1,
 \"super\":0,\"interfaces\":[],\"source\":null,\"fields\":[],\"methods\":[]},
 {\"id\":6,\"tag\":1,\"signature\":\"Ltour/Counter;\",\"modifiers\":1,
 \"super\":0,\"interfaces\":[],\"source\":null,\"fields\":[],
 \"methods\":[{\"id\":64,\"name\":\"run\",\"signature\":\"()V\",\"modifiers\":9,
  \"args\":0,\"last\":20,\"lines\":[],\"slots\":[]}]}],
\"objects\":[{\"id\":24,\"class\":4,\"fields\":[],\"text\":null,\"array\":null}],
\"threads\":[{\"id\":12,\"name\":\"counter\",\"group\":2,\"steps\":[
 [\"call\",2,6,64,0,[]],[\"go\",9],[\"throw\",24,[6,64,15]],[\"go\",18],
 [\"return\",[\"V\",0]]]}]}
";

/// examples/exception.plan.
const EXCEPTION: &str = "plan 2
# Thread `counter` of examples/tour.json throws a tour.Overflow, which its method catches at index 15.
timeout 10000
wait event
ask VirtualMachine.ClassesBySignature \"Ltour/Overflow;\"
let overflow = 0.1
ask EventRequest.Set 4 1 [(8, $overflow, true, false)]
let request = 0
ask VirtualMachine.Resume
wait event
expect 1 [(4, $request, _, _, L_, _)]
let thread = 0.2
expect held $thread
ask ThreadReference.Name $thread
expect 0 \"counter\"
ask VirtualMachine.Dispose
";

/// Waits for an event while all threads are suspended.
const IN_VAIN: &str = "plan 2\nwait event\n\nwait event\n";

/// How a run ends: at which line, its status, and how the target stands.
type End = (Option<usize>, u8, Standing);

/// Each plan, how many rounds there are, and how it ends at the machine of a script.
const RUNS: [(&str, &str, u32, End); 8] = [
    (LOOP, BREAKPOINT, 100_000, (None, 0, Standing::Goes)),
    (CALL, STEP, 100_000, (None, 0, Standing::Goes)),
    (THROW, EXCEPTION, 100_000, (None, 0, Standing::Goes)),
    (CALL, BREAKPOINT, 100_000, (Some(10), 5, Standing::Goes)),
    (LOOP, EXCEPTION, 100_000, (Some(6), 1, Standing::Goes)),
    // The handshake, the widths of ids and a third round, in which nothing is done.
    (LOOP, IN_VAIN, 3, (Some(4), 5, Standing::Still)),
    (LOOP, IN_VAIN, 2, (Some(4), 5, Standing::AllUsed)),
    (LOOP, IN_VAIN, 0, (Some(2), 5, Standing::AllUsed)),
];

#[test]
fn examples_are_met(rt: HostRuntime) {
    let alloc = rt.alloc();
    for (script, text, rounds, end) in RUNS {
        let ended = run(&rt, alloc, script, text, rounds);
        expect_same_for(&rt, &ended, &end, &text);
    }
}
