//! The commands on their files.
ghost use Rattle.std.specs.Prelude.{◌≡◌, ◌≢◌, List, map, Ok, IfOk, IfErr, OnErr, MatchResult};
ghost use Rattle.std.specs.Io.KnownBytes.{Keeps};
ghost use Rattle.std.specs.Str.{IsUtf8};
ghost use Rattle.std.specs.Str.Lines.{lines};
ghost use Rattle.jdwp_script_machine.specs.Machines.{read_machine_as};
ghost use Rattle.jdwp_script_machine.specs.ScriptMeaning.{script_meaning};
ghost use Rattle.jdwp_script_machine.specs.States.{State};
ghost use Rattle.jdwp_end.specs.Streams.{story_of};
ghost use Rattle.jdwp_engine.specs.Serving.{ServesNew};
ghost use Rattle.jdwp_attach.specs.declared.plans.plan_line.PlanLine.{PlanLine};
ghost use Rattle.jdwp_attach.specs.PlanLines.{said_by};
ghost use Rattle.jdwp_attach.specs.Plans.{SaysForAttach};
ghost use Rattle.jdwp_program.specs.Attaching.{AttachesNew, begun};
ghost use Rattle.jdwp_program.specs.declared.captures.Told.TheVariants as capture;
ghost use Rattle.jdwp_program.specs.Statuses.{status_of_fault};
ghost use Rattle.jdwp_program.specs.Outputs.{LeavesCaptureTold};
ghost use Rattle.jdwp_files.specs.Refusals.{IsFileNotText, RefusesAttachPlan, RefusesScript};

use crate::input::{check_input, show_input};
use crate::written::{attach_written_files, without_cases, written_text};
use jdwp_attach::Attached;
use jdwp_end::{Ended, Pipe, Streams};
use jdwp_engine::serve_script;
use jdwp_program::{
    Attach, CaptureFile, Fault, FileCause, Outcome, ServeScript, SessionFiles, Side, TellFault,
    Told, Watched, attach_plan, check_capture, is_recording, print_capture, report_connections,
    session_of, show_capture, text_of,
};
use jdwp_recording::{Capture, RecordingFault};
use jdwp_show::Table;
use std::alloc::Global;
use std::fs::{Metadata, OpenFile};
use std::io::{BufWriter, Read, Write};
use std::os::unix::fs::MetadataExt;
use std::rt::Files;
use std::{fs, io};

/// The files of a session that were opened, one to read from and one to write to.
pub(crate) type FileStreams<F> = Streams<Watched<F>, Watched<BufWriter<F>>>;

/// Shows the capture of a file, or that of a session in a recording of the network. A capture on standard input, `-`, is shown while it is read.
///
/// # Errors
/// `File` where it can't be read or is not UTF-8, which on standard input is a line that does not read; `Recording` where it gives no capture, and, behind what was told, where it gives not all of
/// one; `Output` where the output can't be written; `NoMemory`.
pub fn show_file<'a, R: Files + AllocGlobal, O: Write, E: Write>(
    rt: &R,
    words: &CaptureFile<'a>,
    out: &mut O,
    err: &mut E,
) -> Result<Told, Fault<'a>>
    ensures { LeavesCaptureTold result (O.contents out.old) (O.contents out.new) }
{
    if words.file == "-" {
        return show_input(rt, words, out, err);
    }
    let bytes = read(rt, words.file)?;
    if is_recording(&bytes) {
        let found = session_in(rt.alloc(), words, &bytes, err)?;
        return show_recorded(rt.alloc(), words, &found, out);
    }
    let capture = text(words.file, &bytes)?;
    show_text(rt.alloc(), words.table, capture, out)
}

/// Shows a capture.
fn show_text<'a, O: Write>(
    alloc: Global,
    table: Table,
    capture: &str,
    out: &mut O,
) -> Result<Told, Fault<'a>>
    ensures { LeavesCaptureTold result (O.contents out.old) (O.contents out.new) }
{
    match show_capture(alloc, table, capture, out) {
        Ok(told) => Ok(told),
        Err(TellFault::Output(error)) => Err(Fault::Output(error)),
        Err(TellFault::NoMemory) => Err(Fault::NoMemory),
    }
}

/// Shows the capture that a recording in the file of the words gave.
pub(crate) fn show_recorded<'a, O: Write>(
    alloc: Global,
    words: &CaptureFile<'a>,
    found: &Capture,
    out: &mut O,
) -> Result<Told, Fault<'a>>
    ensures { LeavesCaptureTold result (O.contents out.old) (O.contents out.new) }
{
    match show_capture(alloc, words.table, found.text.as_str(), out) {
        Ok(told) => faulty_where(words.file, told, found.fault),
        Err(TellFault::Output(error)) => Err(Fault::Output(error)),
        Err(TellFault::NoMemory) => Err(Fault::NoMemory),
    }
}

/// Judges the capture of a file, or that of a session in a recording of the network.
///
/// # Errors
/// As those of `show_file`.
pub fn check_file<'a, R: Files + AllocGlobal, O: Write, E: Write>(
    rt: &R,
    words: &CaptureFile<'a>,
    out: &mut O,
    err: &mut E,
) -> Result<Told, Fault<'a>>
    ensures { LeavesCaptureTold result (O.contents out.old) (O.contents out.new) }
{
    if words.file == "-" {
        return check_input(rt, words, out, err);
    }
    let bytes = read(rt, words.file)?;
    if is_recording(&bytes) {
        let found = session_in(rt.alloc(), words, &bytes, err)?;
        return check_recorded(rt.alloc(), words, &found, out);
    }
    let capture = text(words.file, &bytes)?;
    check_text(rt.alloc(), words.table, capture, out)
}

/// Judges a capture.
fn check_text<'a, O: Write>(
    alloc: Global,
    table: Table,
    capture: &str,
    out: &mut O,
) -> Result<Told, Fault<'a>>
    ensures { LeavesCaptureTold result (O.contents out.old) (O.contents out.new) }
{
    match check_capture(alloc, table, capture, out) {
        Ok(told) => Ok(told),
        Err(TellFault::Output(error)) => Err(Fault::Output(error)),
        Err(TellFault::NoMemory) => Err(Fault::NoMemory),
    }
}

/// Judges the capture that a recording in the file of the words gave.
pub(crate) fn check_recorded<'a, O: Write>(
    alloc: Global,
    words: &CaptureFile<'a>,
    found: &Capture,
    out: &mut O,
) -> Result<Told, Fault<'a>>
    ensures { LeavesCaptureTold result (O.contents out.old) (O.contents out.new) }
{
    match check_capture(alloc, words.table, found.text.as_str(), out) {
        Ok(told) => faulty_where(words.file, told, found.fault),
        Err(TellFault::Output(error)) => Err(Fault::Output(error)),
        Err(TellFault::NoMemory) => Err(Fault::NoMemory),
    }
}

/// Prints the capture of a session in a recording of the network.
///
/// # Errors
/// As those of `show_file`, and `Recording` where the file is none.
pub fn capture_file<'a, R: Files + AllocGlobal, O: Write, E: Write>(
    rt: &R,
    words: &CaptureFile<'a>,
    out: &mut O,
    err: &mut E,
) -> Result<Told, Fault<'a>>
    ensures { LeavesCaptureTold result (O.contents out.old) (O.contents out.new) }
{
    let bytes = read_capture(rt, words.file)?;
    let found = session_in(rt.alloc(), words, &bytes, err)?;
    print_recorded(words.file, &found, out)
}

/// Prints the capture that a recording in a file of this name gave.
fn print_recorded<'a, O: Write>(
    file: &'a str,
    found: &Capture,
    out: &mut O,
) -> Result<Told, Fault<'a>>
    ensures { LeavesCaptureTold result (O.contents out.old) (O.contents out.new) }
{
    match print_capture(found.text.as_str(), out) {
        Ok(told) => faulty_where(file, told, found.fault),
        Err(TellFault::Output(error)) => Err(Fault::Output(error)),
        Err(TellFault::NoMemory) => Err(Fault::NoMemory),
    }
}

/// The capture of the session that the words ask for in a recording of these bytes. Where there are more, it is told how many.
pub(crate) fn session_in<'a, E: Write>(
    alloc: Global,
    words: &CaptureFile<'a>,
    bytes: &[u8],
    err: &mut E,
) -> Result<Capture, Fault<'a>> {
    match session_of(alloc, words, bytes) {
        Ok(found) => {
            report_connections(words, found.connections, err);
            Ok(found.capture)
        }
        Err(fault) => Err(Fault::of_recording(words.file, fault)),
    }
}

/// What was told of a capture that a recording gave; behind it the recording's fault, where it has one and all was read.
pub(crate) fn faulty_where<'a>(
    file: &'a str,
    told: Told,
    fault: Option<RecordingFault>,
) -> Result<Told, Fault<'a>>
    ensures ok { IfOk result (λ same. same ≡ told) }
    ensures err { IfErr result (λ f. (status_of_fault f ≡ 1) × (told ≢ capture.Unread)) }
{
    match (told, fault) {
        (Told::Unread, _) | (_, None) => Ok(told),
        (_, Some(fault)) => Err(Fault::Recording(file, fault)),
    }
}

/// Serves the session of a file over the machine of a script. The output's file is made only once the others are read and open, and the
/// script is judged then.
///
/// # Errors
/// `File` where one can't be read, opened or made, the output's is one of the others, or the script is not UTF-8; `Script` where it is
/// refused; `NoMemory`.
pub fn serve_files<'a, R: Files + AllocGlobal>(
    rt: &R,
    words: &ServeScript<'a>,
    files: &SessionFiles<'a>,
) -> Result<Outcome<'a>, Fault<'a>> {
    keep(rt, files.to, words.machine)?;
    keep(rt, files.to, files.from)?;
    let bytes = read(rt, words.machine)?;
    let mut pipe = streams(rt, files.from, files.to)?;
    let ended = serve_bytes(rt.alloc(), words, &bytes, &mut pipe)?;
    let (from, to) = sides(files.from, files.to, pipe);
    Ok(Outcome::of_session(ended, from, to, None))
}

/// Serves the session over the machine of the script of these bytes.
fn serve_bytes<'a, I: Read, O: Write>(
    alloc: Global,
    words: &ServeScript<'a>,
    bytes: &[u8],
    pipe: &mut Streams<I, O>,
) -> Result<Ended, Fault<'a>>
    ensures served { IfOk result (λ ended. IsUtf8 bytes.now × (machine : State)
        × (read_machine_as words.now.settings.profile words.now.settings.limits.live bytes.now
        ≡ Ok machine)
        × ServesNew script_meaning words.now.settings words.now.defer machine words.now.turns
        (story_of pipe.old) (story_of pipe.new) ended) }
    ensures fault { IfErr result (RefusesScript words.now.settings words.now.machine bytes.now) }
    ensures untouched { OnErr result (pipe.new ≡ pipe.old) }
{
    let script = text(words.machine, bytes)?;
    let (settings, defer) = (words.settings, words.defer);
    match serve_script(alloc, script, settings, defer, pipe, words.turns) {
        Ok(ended) => Ok(ended),
        Err(fault) => {
            let detail = fault.detail(alloc, script, &words.settings.limits());
            Err(Fault::of_script(words.machine, fault, detail))
        }
    }
}

/// Runs a plan as the debugger of the session of a file, and prints what it reads; where a plan in words was not carried out, why is told on
/// `err`. The file of what the debugger sends is made only once the others are read and open. The plan is judged then, and one in words before.
///
/// # Errors
/// `File` where one can't be read, opened or made, a file that is made is one of the others, the plan is not UTF-8, or test cases are to be told of one
/// that is not in words; `Plan` or `Written` where the plan is refused; `NoMemory`. Then nothing was printed.
pub fn attach_files<'a, R: Files + AllocGlobal, O: Write, E: Write>(
    rt: &R,
    words: &Attach<'a>,
    files: &SessionFiles<'a>,
    out: &mut O,
    err: &mut E,
) -> Result<Outcome<'a>, Fault<'a>>
    ensures unprinted { OnErr result (Keeps (O.contents out.old) (O.contents out.new)) }
{
    keep(rt, files.to, words.plan)?;
    keep(rt, files.to, files.from)?;
    let bytes = read(rt, words.plan)?;
    if let Some(text) = written_text(&bytes) {
        return attach_written_files(rt, words, files, text, out, err);
    }
    without_cases(words.junit)?;
    let pipe = streams(rt, files.from, files.to)?;
    attach_over(rt.alloc(), words, files, &bytes, pipe, out)
}

/// Runs the plan of these bytes over the files that were opened.
fn attach_over<'a, I: Read + Drop, W: Write + Drop, O: Write>(
    alloc: Global,
    words: &Attach<'a>,
    files: &SessionFiles<'a>,
    bytes: &[u8],
    mut pipe: Streams<Watched<I>, Watched<W>>,
    out: &mut O,
) -> Result<Outcome<'a>, Fault<'a>>
    ensures unprinted { OnErr result (Keeps (O.contents out.old) (O.contents out.new)) }
{
    let mut printed = Streams::new(io::empty(), Watched::new(out));
    let how = attach_bytes(alloc, words, bytes, &mut pipe, &mut printed)?;
    let (from, to) = sides(files.from, files.to, pipe);
    let (_, output) = printed.into_parts();
    Ok(Outcome::of_plan(how, words.limits, from, to, output.failure()))
}

/// Runs the plan of these bytes.
fn attach_bytes<'a, I: Read, W: Write, O: Pipe>(
    alloc: Global,
    words: &Attach<'a>,
    bytes: &[u8],
    pipe: &mut Streams<I, W>,
    out: &mut O,
) -> Result<Attached, Fault<'a>>
    ensures ran { IfOk result (λ how. IsUtf8 bytes.now × (said : List PlanLine)
        × SaysForAttach (lines bytes.now) (map said_by said) × AttachesNew said
        (begun words.now.limits words.now.order words.now.turns (story_of pipe.old) (O.story out.old))
        (story_of pipe.new) (O.story out.new) how) }
    ensures fault { IfErr result (RefusesAttachPlan words.now.plan bytes.now) }
    ensures untouched { OnErr result (pipe.new ≡ pipe.old) }
    ensures unprinted { OnErr result (out.new ≡ out.old) }
{
    let plan = text(words.plan, bytes)?;
    match attach_plan(
        alloc,
        words.limits,
        words.order,
        plan,
        pipe,
        out,
        words.turns,
    ) {
        Ok(how) => Ok(how),
        Err(fault) => Err(Fault::of_plan(words.plan, plan, fault)),
    }
}

/// Refuses a file to write to that is one that is read, under whatever name. No file is opened.
pub(crate) fn keep<'a, R: Files>(rt: &R, to: &'a str, other: &str) -> Result<(), Fault<'a>> {
    if is_one_file(rt, to, other) {
        return Err(Fault::File(to, FileCause::AlsoRead));
    }
    Ok(())
}

/// Whether both names are of one file that holds bytes. No file is opened.
pub(crate) fn is_one_file<R: Files>(rt: &R, name: &str, other: &str) -> bool {
    match (fs::metadata(rt, name), fs::metadata(rt, other)) {
        (Ok(one), Ok(other)) => is_same_file(&one, &other),
        _ => false,
    }
}

/// Whether both are of one file that holds bytes. One without a number on its device is the same as none.
fn is_same_file(one: &Metadata, other: &Metadata) -> bool {
    one.is_file() && one.ino() != 0 && one.ino() == other.ino() && one.dev() == other.dev()
}

/// The files of a session: one to read from, and then a new one to write to.
pub(crate) fn streams<'a, R: Files + AllocGlobal>(
    rt: &R,
    from: &'a str,
    to: &'a str,
) -> Result<FileStreams<R::File>, Fault<'a>> {
    let reader = open(rt, from)?;
    let writer = writer(rt, to)?;
    Ok(Streams::new(Watched::new(reader), Watched::new(writer)))
}

/// The files of a session as they were named, with the errors at which calls on them failed.
fn sides<'a, I: Drop, O: Drop>(
    from: &'a str,
    to: &'a str,
    pipe: Streams<Watched<I>, Watched<O>>,
) -> (Side<'a>, Side<'a>) {
    let (reader, writer) = pipe.into_parts();
    let from = Side {
        path: from,
        failure: reader.failure(),
    };
    let to = Side {
        path: to,
        failure: writer.failure(),
    };
    (from, to)
}

/// A new file to write to, with what waits to be written.
fn writer<'a, R: Files + AllocGlobal>(
    rt: &R,
    path: &'a str,
) -> Result<BufWriter<R::File>, Fault<'a>> {
    let file = create(rt, path)?;
    match BufWriter::new(rt.alloc(), file) {
        Ok(writer) => Ok(writer),
        Err(_) => Err(Fault::NoMemory),
    }
}

/// The bytes of a file as text.
pub(crate) fn text<'a, 'b>(file: &'a str, bytes: &'b [u8]) -> Result<&'b str, Fault<'a>>
    ensures { MatchResult result (λ text. (text.now ≡ bytes.now)
        × IsUtf8 bytes.now) (IsFileNotText file.entry bytes.now) }
{
    match text_of(bytes) {
        Ok(text) => Ok(text),
        Err(cause) => Err(Fault::File(file, cause)),
    }
}

/// The bytes of a file.
pub(crate) fn read<'a, R: Files + AllocGlobal>(
    rt: &R,
    path: &'a str,
) -> Result<Vec<u8>, Fault<'a>> {
    fs::read(rt, path).map_err(|error| Fault::of_file(path, error))
}

/// The bytes of the file of a capture or a recording; `-` is standard input.
pub(crate) fn read_capture<'a, R: Files + AllocGlobal>(
    rt: &R,
    path: &'a str,
) -> Result<Vec<u8>, Fault<'a>> {
    let name = if path == "-" { "/dev/stdin" } else { path };
    fs::read(rt, name).map_err(|error| Fault::of_file(path, error))
}

/// A file to read from, which is not a folder.
fn open<'a, R: Files>(rt: &R, path: &'a str) -> Result<R::File, Fault<'a>> {
    let file = fs::open(rt, path).map_err(|error| Fault::of_file(path, error))?;
    match file.metadata() {
        Ok(found) if found.is_dir() => Err(Fault::File(path, FileCause::Folder)),
        Ok(_) => Ok(file),
        Err(error) => Err(Fault::of_file(path, error)),
    }
}

/// A new file to write to.
fn create<'a, R: Files>(rt: &R, path: &'a str) -> Result<R::File, Fault<'a>> {
    fs::create(rt, path).map_err(|error| Fault::of_file(path, error))
}
