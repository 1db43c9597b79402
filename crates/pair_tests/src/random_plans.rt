//! Plans of lines that are drawn, over a machine of two threads that run.
ghost use Rattle.std.specs.Prelude.{◌≡◌};

use std::alloc::Global;
use std::process::Abort;

/// A machine of two threads that call a method, go to and fro in it and return.
pub(crate) const TWO_THREADS: &str = "{\"name\":\"T\",\"sizes\":[8,8,8,8,8],
\"groups\":[{\"id\":5,\"name\":\"main\",\"parent\":0}],
\"classes\":[{\"id\":10,\"tag\":1,\"signature\":\"LMain;\",\"modifiers\":1,
 \"super\":0,\"interfaces\":[],\"source\":\"Main.java\",\"fields\":[],
 \"methods\":[{\"id\":20,\"name\":\"run\",\"signature\":\"()V\",\"modifiers\":1,
  \"args\":0,\"last\":9,\"lines\":[[0,1],[3,2],[4,3]],\"slots\":[]}]}],
\"objects\":[],
\"threads\":[{\"id\":1,\"name\":\"main\",\"group\":5,\"steps\":[
 [\"call\",30,10,20,0,[]],[\"go\",3],[\"go\",4],[\"go\",3],[\"go\",4],[\"go\",3],[\"go\",4],
 [\"go\",3],[\"go\",4],[\"go\",3],[\"return\",[\"V\",0]]]},
 {\"id\":2,\"name\":\"work\",\"group\":5,\"steps\":[
 [\"call\",31,10,20,0,[]],[\"go\",4],[\"go\",3],[\"go\",4],[\"go\",3],[\"go\",4],[\"go\",3],
 [\"go\",4],[\"go\",3],[\"go\",4],[\"go\",3],[\"return\",[\"V\",0]]]}]}";

/// What a plan is made of: Suspend and Resume of all and of each thread, breakpoints of each policy, waits, a new session, and looks at the
/// mirror, behind which the status of each thread is asked.
static LINES: [&str; 16] = [
    "ask 1 8\n",
    "ask 1 9\n",
    "ask 11 2 0000000000000001\n",
    "ask 11 2 0000000000000002\n",
    "ask 11 3 0000000000000001\n",
    "ask 11 3 0000000000000002\n",
    "ask 11 3 0000000000000001\n",
    "ask 15 1 0202000000010701000000000000000a00000000000000140000000000000003\n",
    "ask 15 1 0201000000010701000000000000000a00000000000000140000000000000003\n",
    "ask 15 1 0201000000010701000000000000000a00000000000000140000000000000004\n",
    "ask 15 1 0200000000010701000000000000000a00000000000000140000000000000004\n",
    "answers\n",
    "events 2\n",
    "events 3\n",
    LOOK,
    ANEW,
];

/// The count of each thread is asked, so that the mirror knows both.
const COUNTS: &str = "ask 11 12 0000000000000001\nask 11 12 0000000000000002\nanswers\n";

/// Another session.
const ANEW: &str =
    "answers\nlose target\nlose debugger\nattach\nask 11 12 0000000000000001\nask 11 12 0000000000000002\nanswers\n";

/// What the debugger knows is printed, and then it is asked whether each thread is suspended.
const LOOK: &str = "mirror\nask 11 4 0000000000000001\nask 11 4 0000000000000002\nanswers\n";

/// Numbers that look drawn, by xorshift.
#[derive(Drop)]
pub(crate) struct Numbers {
    state: u64,
}

impl Numbers {
    /// From a seed above 0.
    pub fn from_seed(seed: u64) -> Numbers {
        Numbers { state: seed }
    }

    /// The next one, below a bound above 0.
    pub fn below(&mut self, bound: u64) -> u64
        requires { bound ≡ 0 → ⊥ }
    {
        self.state ^= self.state << 13;
        self.state ^= self.state >> 7;
        self.state ^= self.state << 17;
        self.state % bound
    }
}

/// A plan of a few lines, and a look behind half of them.
pub(crate) fn random_plan(rt: &impl Abort, alloc: Global, numbers: &mut Numbers) -> String {
    let mut plan = String::from_str(alloc, COUNTS).expect(rt, "memory");
    let count = numbers.below(8).saturating_add(1);
    for _ in 0..count {
        let place = numbers.below(LINES.len() as u64) as usize;
        assert!(rt; place < LINES.len());
        plan.push_str(LINES[place]).expect(rt, "memory");
        if numbers.below(2) == 0 {
            plan.push_str(LOOK).expect(rt, "memory");
        }
    }
    plan
}
