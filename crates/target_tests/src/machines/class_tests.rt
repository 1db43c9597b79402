//! Scripts whose threads and groups name their classes: how they are read, and which are refused.
use crate::machines::detail_tests::{Edit as Telling, are_told};
use crate::machines::script_tests::{Edit, are_outcomes, edited};
use jdwp_script::{Member, ScriptFault};
use test_parts::MACHINE_A;

const NO_CLASS: Option<ScriptFault> = Some(ScriptFault::Missing(Member::Class));

const BAD: Option<ScriptFault> = Some(ScriptFault::BadReference);

/// A class that is known, none, one that is not known, and what is no id.
static NAMED: [Edit; 9] = [
    ("\"parent\":0}", "\"parent\":0,\"class\":10}", None),
    ("\"parent\":0}", "\"parent\":0,\"class\":0}", None),
    ("\"parent\":0}", "\"parent\":0,\"class\":11}", BAD),
    ("\"parent\":0}", "\"parent\":0,\"class\":5}", BAD),
    ("\"parent\":0}", "\"parent\":0,\"class\":null}", NO_CLASS),
    ("\"steps\":[]}", "\"steps\":[],\"class\":10}", None),
    ("\"steps\":[]}", "\"steps\":[],\"class\":0}", None),
    ("\"steps\":[]}", "\"steps\":[],\"class\":20}", BAD),
    ("\"steps\":[]}", "\"steps\":[],\"class\":\"10\"}", NO_CLASS),
];

/// The same where ids of reference types have one byte.
static NARROW: [Edit; 4] = [
    ("\"parent\":0}", "\"parent\":0,\"class\":255}", BAD),
    (
        "\"parent\":0}",
        "\"parent\":0,\"class\":256}",
        Some(ScriptFault::IdTooWide),
    ),
    ("\"steps\":[]}", "\"steps\":[],\"class\":255}", BAD),
    (
        "\"steps\":[]}",
        "\"steps\":[],\"class\":256}",
        Some(ScriptFault::IdTooWide),
    ),
];

/// What is told of those that are refused.
static TOLD: [Telling; 3] = [
    (
        "\"parent\":0}",
        "\"parent\":0,\"class\":11}",
        "fault 25: a bad reference: no class 11 is known here, in groups[0]",
    ),
    (
        "\"steps\":[]}",
        "\"steps\":[],\"class\":11}",
        "fault 25: a bad reference: no class 11 is known here, in threads[1]",
    ),
    (
        "\"steps\":[]}",
        "\"steps\":[],\"class\":{}}",
        "fault 22: the member class is missing or of another type, in threads[1]",
    ),
];

#[test]
fn classes_of_threads_and_groups(rt: HostRuntime) {
    are_outcomes(&rt, rt.alloc(), MACHINE_A, &NAMED);
    let narrow = edited(&rt, rt.alloc(), MACHINE_A, "[8,8,8,8,8]", "[8,8,8,1,8]");
    are_outcomes(&rt, rt.alloc(), narrow.as_str(), &NARROW);
    are_told(&rt, rt.alloc(), MACHINE_A, &TOLD);
}
