//! Runs of the program, and what they are to give.
use crate::asserts::{expect_same, expect_same_for};
use jdwp_files::run;
use std::fs;
use std::io::Cursor;
use std::net::Net;
use std::process::Abort;
use std::rt::{Clock, Files};

/// The handshake, IDSizes with id 1, Suspend with id 2, SuspendCount of thread 1 with id 3, Dispose with id 4.
pub(crate) const SESSION: [u8; 66] = [
    0x4a, 0x44, 0x57, 0x50, 0x2d, 0x48, 0x61, 0x6e, 0x64, 0x73, 0x68, 0x61, 0x6b, 0x65, //
    0x00, 0x00, 0x00, 0x0b, 0x00, 0x00, 0x00, 0x01, 0x00, 0x01, 0x07, //
    0x00, 0x00, 0x00, 0x0b, 0x00, 0x00, 0x00, 0x02, 0x00, 0x01, 0x08, //
    0x00, 0x00, 0x00, 0x13, 0x00, 0x00, 0x00, 0x03, 0x00, 0x0b, 0x0c, 0x00, 0x00, 0x00, 0x00, 0x00,
    0x00, 0x00, 0x01, //
    0x00, 0x00, 0x00, 0x0b, 0x00, 0x00, 0x00, 0x04, 0x00, 0x01, 0x06, //
];

/// What is answered to it where no thread is suspended at the start.
pub(crate) const ANSWERS: [u8; 111] = [
    0x4a, 0x44, 0x57, 0x50, 0x2d, 0x48, 0x61, 0x6e, 0x64, 0x73, 0x68, 0x61, 0x6b, 0x65, //
    0x00, 0x00, 0x00, 0x1d, 0x00, 0x00, 0x00, 0x01, 0x00, 0x40, 0x64, 0x00, 0x00, 0x00, 0x00, 0x01,
    0x5a, 0x00, 0x00, 0x00, 0x00, 0x00, 0x00, 0x00, 0x00, 0x00, 0x00, 0x00, 0x01, //
    0x00, 0x00, 0x00, 0x1f, 0x00, 0x00, 0x00, 0x01, 0x80, 0x00, 0x00, 0x00, 0x00, 0x00, 0x08, 0x00,
    0x00, 0x00, 0x08, 0x00, 0x00, 0x00, 0x08, 0x00, 0x00, 0x00, 0x08, 0x00, 0x00, 0x00, 0x08, //
    0x00, 0x00, 0x00, 0x0b, 0x00, 0x00, 0x00, 0x02, 0x80, 0x00, 0x00, //
    0x00, 0x00, 0x00, 0x0f, 0x00, 0x00, 0x00, 0x03, 0x80, 0x00, 0x00, 0x00, 0x00, 0x00, 0x01, //
    0x00, 0x00, 0x00, 0x0b, 0x00, 0x00, 0x00, 0x04, 0x80, 0x00, 0x00, //
];

/// What is answered where every thread stands at the limit 1 at the start: VM_START's policy is ALL, and Suspend is refused.
pub(crate) const AT_LIMIT: [u8; 111] = [
    0x4a, 0x44, 0x57, 0x50, 0x2d, 0x48, 0x61, 0x6e, 0x64, 0x73, 0x68, 0x61, 0x6b, 0x65, //
    0x00, 0x00, 0x00, 0x1d, 0x00, 0x00, 0x00, 0x01, 0x00, 0x40, 0x64, 0x02, 0x00, 0x00, 0x00, 0x01,
    0x5a, 0x00, 0x00, 0x00, 0x00, 0x00, 0x00, 0x00, 0x00, 0x00, 0x00, 0x00, 0x01, //
    0x00, 0x00, 0x00, 0x1f, 0x00, 0x00, 0x00, 0x01, 0x80, 0x00, 0x00, 0x00, 0x00, 0x00, 0x08, 0x00,
    0x00, 0x00, 0x08, 0x00, 0x00, 0x00, 0x08, 0x00, 0x00, 0x00, 0x08, 0x00, 0x00, 0x00, 0x08, //
    0x00, 0x00, 0x00, 0x0b, 0x00, 0x00, 0x00, 0x02, 0x80, 0x00, 0x71, //
    0x00, 0x00, 0x00, 0x0f, 0x00, 0x00, 0x00, 0x03, 0x80, 0x00, 0x00, 0x00, 0x00, 0x00, 0x01, //
    0x00, 0x00, 0x00, 0x0b, 0x00, 0x00, 0x00, 0x04, 0x80, 0x00, 0x00, //
];

/// Two threads: one calls a method, moves in it and returns, and the other has no step.
pub(crate) const MACHINE: &str = r#"{"name":"A","sizes":[8,8,8,8,8],
"groups":[{"id":5,"name":"main","parent":0}],
"classes":[{"id":10,"tag":1,"signature":"LMain;","modifiers":1,
 "super":0,"interfaces":[],"source":"Main.java","fields":[],
 "methods":[{"id":20,"name":"run","signature":"()V","modifiers":1,
  "args":0,"last":9,"lines":[[0,1],[3,2],[4,3]],"slots":[]}]}],
"objects":[],
"threads":[{"id":1,"name":"main","group":5,"steps":[
 ["call",30,10,20,0,[]],["go",3],["go",4],["go",3],["go",4],
 ["go",3],["return",["V",0]]]},
 {"id":2,"name":"work","group":5,"steps":[]}]}"#;

/// What is in a file.
#[derive(Clone, Copy)]
pub(crate) enum Holds {
    /// This text.
    Text(&'static str),
    /// These bytes.
    Bytes(&'static [u8]),
    /// So many of the first of these bytes.
    Front(&'static [u8], usize),
    /// This text so many times.
    Repeated(&'static str, u32),
    /// It is a folder.
    Folder,
}

/// What is told on standard error.
#[derive(Clone, Copy)]
pub(crate) enum Tells {
    /// This, and whatever is printed.
    Exactly(&'static str),
    /// All of these texts, the first behind `jdwp: `, and nothing is printed.
    All(&'static [&'static str]),
}

/// A run of the program.
#[derive(Clone, Copy)]
pub(crate) struct Scene {
    /// The files that are there before it.
    pub files: &'static [(&'static str, Holds)],
    /// The words behind the program's name, with a space between two.
    pub words: &'static str,
    pub status: u8,
    /// What is printed, where that is compared.
    pub prints: Option<&'static str>,
    pub tells: Tells,
    /// The files that it makes, and what is in them then, where that is compared.
    pub leaves: &'static [(&'static str, Option<Holds>)],
    /// The files that were there, and hold this still.
    pub keeps: &'static [(&'static str, Holds)],
    /// The files that it does not make.
    pub spares: &'static [&'static str],
}

/// A run that prints and tells nothing.
pub(crate) const SCENE: Scene = Scene {
    files: &[],
    words: "",
    status: 0,
    prints: Some(""),
    tells: Tells::Exactly(""),
    leaves: &[],
    keeps: &[],
    spares: &[],
};

/// What a run gave: its status, and what it printed on standard output and standard error.
#[derive(Drop)]
struct Run {
    status: u8,
    out: Vec<u8>,
    err: Vec<u8>,
}

impl Run {
    /// Whether nothing was printed on standard output, and words behind `jdwp: ` on standard error exactly where the status isn't 0.
    fn is_told(&self) -> bool {
        let told = self.err.as_slice();
        let is_told = told.starts_with(b"jdwp: ") && told.ends_with(b"\n");
        self.out.is_empty()
            && is_told == (self.status != 0)
            && told.is_empty() == (self.status == 0)
    }
}

/// Runs the words, which stand behind the program's name.
fn run_words<R: Files + Clock + Net + AllocGlobal + Abort>(rt: &R, words: &[&str]) -> Run {
    let mut all = Vec::new(rt.alloc());
    all.push("jdwp").expect(rt, "memory");
    all.extend_from_slice(words).expect(rt, "memory");
    let mut out = Cursor::new(Vec::new(rt.alloc()));
    let mut err = Cursor::new(Vec::new(rt.alloc()));
    let status = run(rt, all.as_slice(), &mut out, &mut err);
    Run {
        status,
        out: out.into_inner(),
        err: err.into_inner(),
    }
}

/// The exit status of the words, where what is told is told on standard error behind `jdwp: `.
pub(crate) fn status_of<R: Files + Clock + Net + AllocGlobal + Abort>(
    rt: &R,
    words: &[&str],
) -> u8 {
    let ran = run_words(rt, words);
    if !ran.is_told() {
        panic!(rt; "words behind `jdwp: ` for each status but 0");
    }
    ran.status
}

/// Whether the words are refused with status 1, and all of these texts stand on standard error, the first behind `jdwp: `.
pub(crate) fn is_refused<R: Files + Clock + Net + AllocGlobal + Abort>(
    rt: &R,
    words: &[&str],
    texts: &[&str],
) -> bool {
    let ran = run_words(rt, words);
    ran.status == 1 && tells_all(rt, &ran, texts)
}

/// Whether all of these texts stand on standard error, the first behind `jdwp: `, and nothing is printed.
fn tells_all<R: AllocGlobal + Abort>(rt: &R, ran: &Run, texts: &[&str]) -> bool {
    let told = String::from_utf8_lossy(rt.alloc(), ran.err.as_slice()).expect(rt, "memory");
    let mut are_told = ran.is_told();
    for (place, text) in texts.iter().enumerate() {
        let found = told.as_str().find(*text);
        are_told = are_told
            && (if place == 0 {
                found == Some(6)
            } else {
                found.is_some()
            });
    }
    are_told
}

/// The words are run with this status, and these are printed.
pub(crate) fn is_run<R: Files + Clock + Net + AllocGlobal + Abort>(
    rt: &R,
    words: &[&str],
    status: u8,
    out: &str,
    err: &str,
) {
    let ran = run_words(rt, words);
    expect_same_for(rt, &ran.status, &status, &err);
    expect_same_for(rt, &ran.out.as_slice(), &out.as_bytes(), &err);
    expect_same_for(rt, &ran.err.as_slice(), &err.as_bytes(), &err);
}

/// The file holds these bytes.
pub(crate) fn file_holds<R: Files + Clock + Net + AllocGlobal + Abort>(
    rt: &R,
    file: &str,
    bytes: &[u8],
) {
    let found = fs::read(rt, file).expect(rt, "the file is read");
    expect_same(rt, &found.as_slice(), &bytes);
}

/// Makes a file of these bytes.
pub(crate) fn write<R: Files + Abort>(rt: &R, file: &str, bytes: &[u8]) {
    fs::write(rt, file, bytes).expect(rt, "the file is written");
}

/// Removes these files, each of which is there.
pub(crate) fn remove<R: Files + Abort>(rt: &R, files: &[&str]) {
    for file in files {
        fs::remove_file(rt, *file).expect(rt, "the file is removed");
    }
}

/// Refused words make no file.
pub(crate) fn is_not_made<R: Files + Clock + Net + AllocGlobal + Abort>(rt: &R, file: &str) {
    assert!(rt; fs::read(rt, file).is_err());
}

/// What is in a file, as bytes.
fn bytes_of<R: AllocGlobal + Abort>(rt: &R, held: Holds) -> Vec<u8> {
    let mut bytes = Vec::new(rt.alloc());
    let (part, times) = match held {
        Holds::Text(text) => (text.as_bytes(), 1),
        Holds::Bytes(bytes) => (bytes, 1),
        Holds::Front(bytes, count) => (&bytes[..count.min(bytes.len())], 1),
        Holds::Repeated(text, times) => (text.as_bytes(), times),
        Holds::Folder => (&b""[..], 0),
    };
    for _ in 0..times {
        bytes.extend_from_slice(part).expect(rt, "memory");
    }
    bytes
}

/// Makes these files and folders.
fn make<R: Files + AllocGlobal + Abort>(rt: &R, files: &[(&str, Holds)]) {
    for (file, held) in files {
        if matches!(held, Holds::Folder) {
            fs::create_dir(rt, *file).expect(rt, "a folder is made");
        } else {
            write(rt, file, &bytes_of(rt, *held));
        }
    }
}

/// Removes them.
fn clear<R: Files + Abort>(rt: &R, files: &[(&str, Holds)]) {
    for (file, held) in files {
        if matches!(held, Holds::Folder) {
            fs::remove_dir(rt, *file).expect(rt, "the folder is removed");
        } else {
            remove(rt, &[*file]);
        }
    }
}

/// The files of the list hold what they are to hold, and are removed.
fn are_left<R: Files + Clock + Net + AllocGlobal + Abort>(rt: &R, files: &[(&str, Option<Holds>)]) {
    for (file, held) in files {
        if let Some(held) = held {
            file_holds(rt, file, &bytes_of(rt, *held));
        }
        remove(rt, &[*file]);
    }
}

/// The files of the list hold this.
fn are_kept<R: Files + Clock + Net + AllocGlobal + Abort>(rt: &R, files: &[(&str, Holds)]) {
    for (file, held) in files {
        file_holds(rt, file, &bytes_of(rt, *held));
    }
}

/// What a run gave is what its scene says.
fn is_as_said<R: AllocGlobal + Abort>(rt: &R, ran: &Run, scene: &Scene) {
    expect_same_for(rt, &ran.status, &scene.status, &scene.words);
    if let Some(text) = scene.prints {
        expect_same_for(rt, &ran.out.as_slice(), &text.as_bytes(), &scene.words);
    }
    match scene.tells {
        Tells::Exactly(text) => {
            expect_same_for(rt, &ran.err.as_slice(), &text.as_bytes(), &scene.words);
        }
        Tells::All(texts) => {
            expect_same_for(rt, &tells_all(rt, ran, texts), &true, &scene.words);
        }
    }
}

/// The words with a space between two.
pub(crate) fn words_of<'a, R: AllocGlobal + Abort>(rt: &R, words: &'a str) -> Vec<&'a str> {
    words
        .split_whitespace()
        .collect(rt.alloc())
        .expect(rt, "memory")
}

/// Each run goes as its scene says.
pub(crate) fn go<R: Files + Clock + Net + AllocGlobal + Abort>(rt: &R, scenes: &[Scene]) {
    for scene in scenes {
        make(rt, scene.files);
        let words = words_of(rt, scene.words);
        is_as_said(rt, &run_words(rt, words.as_slice()), scene);
        are_left(rt, scene.leaves);
        are_kept(rt, scene.keeps);
        for file in scene.spares {
            is_not_made(rt, file);
        }
        clear(rt, scene.files);
    }
}
