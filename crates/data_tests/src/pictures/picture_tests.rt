//! Pictures of sessions, with what the mirror has by hand, and what stands in their documents.
use super::sessions::{ACTS, BEHIND, HOSTILE, LISTING, START, STRAY};
use jdwp_draw::{Picture, Row, svg};
use jdwp_show::CaptureFault;
use jdwp_wire::NoMemory;
use std::alloc::Global;
use std::process::Abort;

/// A session behind its start, which of its messages are drawn, and how often which pieces stand in the document.
struct Scene {
    acts: &'static str,
    from: usize,
    count: usize,
    pieces: &'static [(&'static str, usize)],
}

static SCENES: [Scene; 7] = [
    // Thread 1 is in the first column, thread 2 in the second, the request in the third. Thread 1 is held from VM_START on, free behind
    // Resume, and has a count but is not held behind the event of the other thread. The request stands in the rows 10 to 16. The reply to
    // IDSizes is tied to its command, and each of the other seven to its own.
    Scene {
        acts: ACTS,
        from: 0,
        count: 100,
        pieces: &[
            ("<g>", 20),
            ("</g>\n", 20),
            ("</title>", 20),
            (
                "<rect class=\"h\" x=\"830\" y=\"396\" width=\"76\" height=\"34\"/><text class=\"mh\" x=\"868\" y=\"417\">1</text>",
                1,
            ),
            (
                "<rect class=\"h\" x=\"830\" y=\"464\" width=\"76\" height=\"34\"/><text class=\"mh\" x=\"868\" y=\"485\">2</text>",
                1,
            ),
            (
                "<rect class=\"f\" x=\"830\" y=\"668\" width=\"76\" height=\"34\"/><text class=\"mf\" x=\"868\" y=\"689\">0</text>",
                1,
            ),
            (
                "<rect class=\"s\" x=\"830\" y=\"702\" width=\"76\" height=\"34\"/><text class=\"ms\" x=\"868\" y=\"723\">1</text>",
                1,
            ),
            (
                "<rect class=\"h\" x=\"910\" y=\"702\" width=\"76\" height=\"34\"/><text class=\"mh\" x=\"948\" y=\"723\">1</text>",
                1,
            ),
            ("<rect class=\"q\" x=\"1020\" y=\"600\"", 1),
            ("<rect class=\"q\" x=\"1020\"", 7),
            (">request 5 kind 2</text>", 1),
            (">thread #2</text>", 1),
            ("<path class=\"t\" d=\"M90 350H64V384H90\"/>", 1),
            ("<path class=\"t\"", 8),
        ],
    },
    // The command of the first reply of this part is not drawn, and no request stands in it.
    Scene {
        acts: ACTS,
        from: 17,
        count: 2,
        pieces: &[
            ("<g>", 2),
            ("2 of 20 messages, from number 18 on", 1),
            ("y=\"286\">18</text>", 1),
            ("<path class=\"t\"", 0),
            ("<rect class=\"q\" x=\"1020\"", 0),
        ],
    },
    Scene {
        acts: ACTS,
        from: 20,
        count: 5,
        pieces: &[("<g>", 0)],
    },
    // The fault stands behind the last message.
    Scene {
        acts: STRAY,
        from: 0,
        count: 4,
        pieces: &[("<g>", 4), (">line 5: fault 54</text>", 1)],
    },
    Scene {
        acts: STRAY,
        from: 0,
        count: 3,
        pieces: &[("<g>", 3), ("fault", 0)],
    },
    // What a session says marks up nothing, and a character that no XML holds is left out.
    Scene {
        acts: HOSTILE,
        from: 0,
        count: 100,
        pieces: &[
            (
                "&gt; 2 VirtualMachine.ClassesBySignature &quot;Lx&lt;/title&gt;&lt;script&gt;&amp;\\&quot;&apos;\u{202e};&quot;</t",
                2,
            ),
            ("<script", 0),
            ("\u{ffff}", 0),
            ("</title>", 6),
        ],
    },
    // 94 characters of a long line, and an ellipsis.
    Scene {
        acts: LISTING,
        from: 5,
        count: 1,
        pieces: &[
            ("textLength=\"665\"", 1),
            ("#1006, #1007,…</text>", 1),
            ("#1038, #1039]</title>", 1),
        ],
    },
];

/// What the mirror has in a row, as a line.
fn push_behind(out: &mut String, row: &Row) -> Result<(), NoMemory> {
    match row.answers {
        Some(place) => write!(out, "{place}")?,
        None => out.push_str("-")?,
    }
    for known in &row.threads {
        let (id, count) = (known.id.0, known.count);
        write!(out, " {id}:{count}")?;
        if known.held {
            out.push_str("*")?;
        }
    }
    for request in &row.requests {
        let (id, kind) = (request.id, request.kind);
        write!(out, " {id}/{kind}")?;
    }
    out.push_str("\n")?;
    Ok(())
}

fn behind(alloc: Global, picture: &Picture) -> Result<String, NoMemory> {
    let mut out = String::new(alloc);
    for row in &picture.rows {
        push_behind(&mut out, row)?;
    }
    Ok(out)
}

/// The picture of a session with these acts behind its start.
fn picture(alloc: Global, acts: &str) -> Result<Picture, NoMemory> {
    let mut text = String::from_str(alloc, START)?;
    text.push_str(acts)?;
    Picture::read(alloc, text.as_str())
}

/// How often a piece stands in a text.
fn times(text: &str, piece: &str) -> usize {
    text.split(piece).count().saturating_sub(1)
}

fn expect_times(rt: &impl Abort, text: &str, piece: &str, wanted: usize) {
    assert_eq!(rt; times(text, piece), wanted, "{piece}");
}

#[test]
fn bands_by_hand(rt: HostRuntime) {
    let read = picture(rt.alloc(), ACTS).expect(&rt, "memory");
    assert!(rt; read.fault.is_none());
    let found = behind(rt.alloc(), &read).expect(&rt, "memory");
    assert_eq!(rt; found.as_str(), BEHIND);
    let faulty = picture(rt.alloc(), STRAY).expect(&rt, "memory");
    assert!(rt; faulty.fault == Some((5, CaptureFault::UnknownReply)));
}

#[test]
fn pieces_of_documents(rt: HostRuntime) {
    for scene in &SCENES {
        let read = picture(rt.alloc(), scene.acts).expect(&rt, "memory");
        let drawn = svg(rt.alloc(), &read, scene.from, scene.count).expect(&rt, "memory");
        for (piece, wanted) in scene.pieces {
            expect_times(&rt, drawn.as_str(), piece, *wanted);
        }
    }
}

/// Two hundred messages, Suspend and Resume in turn: each has its arrow, and the legend one of each more.
#[test]
fn many_messages(rt: HostRuntime) {
    let mut acts = String::new(rt.alloc());
    for id in 2..100u32 {
        let number = 8 + id % 2;
        write!(
            acts,
            "> 0000000b{id:08x}0001{number:02x}\n< 0000000b{id:08x}800000\n"
        )
        .expect(&rt, "memory");
    }
    let read = picture(rt.alloc(), acts.as_str()).expect(&rt, "memory");
    let drawn = svg(rt.alloc(), &read, 0, 200).expect(&rt, "memory");
    for (piece, wanted) in [
        ("<g>", 200),
        ("<path class=\"a\"", 101),
        ("<path class=\"d\"", 100),
        ("<path class=\"e\"", 2),
        ("y=\"7052\">200</text>", 1),
    ] {
        expect_times(&rt, drawn.as_str(), piece, wanted);
    }
}

/// The laws are functions that do nothing.
#[test]
fn laws(_rt: HostRuntime) {
    jdwp_draw::laws::shows_each_message();
    jdwp_draw::laws::marks_up_nothing();
    jdwp_draw::laws::reads_back();
    jdwp_draw::laws::is_written_in_utf8();
}
