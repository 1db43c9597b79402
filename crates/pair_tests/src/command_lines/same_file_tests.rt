//! Files that are read are not written.
use crate::command_lines::runs::{Holds, SCENE, Scene, Tells, go};

/// A file that is there.
const SAME: &[(&str, Holds)] = &[("same", Holds::Text("text"))];

/// It is not emptied.
const KEPT: &[(&str, Holds)] = &[("same", Holds::Text("text"))];

const ALSO_READ: Tells = Tells::All(&[
    "./same: a file that is read, too: writing to it would empty it\n",
]);

/// Words whose file of `--to` or `--junit` is another of theirs, by the same name and by another.
static SAME_FILES: [Scene; 14] = [
    Scene {
        files: SAME,
        words: "serve-script same --from other --to same",
        status: 1,
        tells: Tells::All(&[
            "error: '--to' names the file of 'MACHINE': writing to it would empty it",
            "Usage: jdwp ",
        ]),
        keeps: KEPT,
        spares: &["other"],
        ..SCENE
    },
    Scene {
        files: SAME,
        words: "serve-script other --from same --to same",
        status: 1,
        tells: Tells::All(&[
            "error: '--to' names the file of '--from': writing to it would empty it",
            "Usage: jdwp ",
        ]),
        keeps: KEPT,
        spares: &["other"],
        ..SCENE
    },
    Scene {
        files: SAME,
        words: "attach same --from other --to same",
        status: 1,
        tells: Tells::All(&[
            "error: '--to' names the file of 'PLAN': writing to it would empty it",
            "Usage: jdwp ",
        ]),
        keeps: KEPT,
        spares: &["other"],
        ..SCENE
    },
    Scene {
        files: SAME,
        words: "attach other --from same --to=same",
        status: 1,
        tells: Tells::All(&[
            "error: '--to' names the file of '--from': writing to it would empty it",
            "Usage: jdwp ",
        ]),
        keeps: KEPT,
        spares: &["other"],
        ..SCENE
    },
    Scene {
        files: SAME,
        words: "attach same --from other --to third --junit same",
        status: 1,
        tells: Tells::All(&[
            "error: '--junit' names the file of 'PLAN': writing to it would empty it",
            "Usage: jdwp ",
        ]),
        keeps: KEPT,
        spares: &["other", "third"],
        ..SCENE
    },
    Scene {
        files: SAME,
        words: "attach same --port 1 --junit=same",
        status: 1,
        tells: Tells::All(&[
            "error: '--junit' names the file of 'PLAN': writing to it would empty it",
            "Usage: jdwp ",
        ]),
        keeps: KEPT,
        spares: &["other", "third"],
        ..SCENE
    },
    Scene {
        files: SAME,
        words: "attach other --from same --to third --junit same",
        status: 1,
        tells: Tells::All(&[
            "error: '--junit' names the file of '--from': writing to it would empty it",
            "Usage: jdwp ",
        ]),
        keeps: KEPT,
        spares: &["other", "third"],
        ..SCENE
    },
    Scene {
        files: SAME,
        words: "attach same --from other --to third --junit third",
        status: 1,
        tells: Tells::All(&[
            "error: '--junit' names the file of '--to': writing to it would empty it",
            "Usage: jdwp ",
        ]),
        keeps: KEPT,
        spares: &["other", "third"],
        ..SCENE
    },
    Scene {
        files: SAME,
        words: "pair same other --junit same",
        status: 1,
        tells: Tells::All(&[
            "error: '--junit' names the file of 'MACHINE': writing to it would empty it",
            "Usage: jdwp ",
        ]),
        keeps: KEPT,
        spares: &["other"],
        ..SCENE
    },
    Scene {
        files: SAME,
        words: "pair other same --junit same",
        status: 1,
        tells: Tells::All(&[
            "error: '--junit' names the file of 'PLAN': writing to it would empty it",
            "Usage: jdwp ",
        ]),
        keeps: KEPT,
        spares: &["other"],
        ..SCENE
    },
    Scene {
        files: SAME,
        words: "serve-script same --from other --to ./same",
        status: 1,
        tells: ALSO_READ,
        keeps: KEPT,
        spares: &["other"],
        ..SCENE
    },
    Scene {
        files: SAME,
        words: "serve-script other --from same --to ./same",
        status: 1,
        tells: ALSO_READ,
        keeps: KEPT,
        spares: &["other"],
        ..SCENE
    },
    Scene {
        files: SAME,
        words: "attach same --from other --to ./same",
        status: 1,
        tells: ALSO_READ,
        keeps: KEPT,
        spares: &["other"],
        ..SCENE
    },
    Scene {
        files: SAME,
        words: "attach other --from same --to ./same",
        status: 1,
        tells: ALSO_READ,
        keeps: KEPT,
        spares: &["other"],
        ..SCENE
    },
];

/// A file that is read is not emptied by `--to`, whether it is named so or in another way, and nothing is opened.
#[test]
fn a_file_that_is_read_is_not_emptied(rt: HostRuntime) {
    go(&rt, &SAME_FILES);
}
