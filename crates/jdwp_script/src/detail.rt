//! What is known of a script's fault beside its kind.
use crate::member::Member;
use std::fmt;

/// An entry of a list.
#[derive(Clone, Copy, Debug, PartialEq, Eq)]
pub struct Entry {
    /// The member that is the list.
    pub list: Member,
    /// The entry's place in the list, counted from 0.
    pub place: usize,
}

impl fmt::Display for Entry {
    fn fmt<W: fmt::Write>(&self, f: &mut fmt::Formatter<W>) -> fmt::Result {
        write!(f, "{}[{}]", self.list, self.place)
    }
}

/// The entries in which something stands: one of a list of the script, one of a list of that one, and one of a list of that. None of them
/// where it stands in the script itself.
#[derive(Clone, Copy, Debug, PartialEq, Eq)]
pub struct Path {
    pub outer: Option<Entry>,
    pub middle: Option<Entry>,
    pub inner: Option<Entry>,
}

impl Path {
    /// That of the script itself.
    pub const ROOT: Path = Path {
        outer: None,
        middle: None,
        inner: None,
    };

    /// An entry of a list of what the path leads to. A path of three entries stays as it is.
    pub(crate) fn to(self, list: Member, place: usize) -> Path {
        let entry = Some(Entry { list, place });
        let mut path = self;
        if path.outer.is_none() {
            path.outer = entry;
        } else if path.middle.is_none() {
            path.middle = entry;
        } else if path.inner.is_none() {
            path.inner = entry;
        }
        path
    }
}

/// As `classes[0].methods[2]`, the places counted from 0.
impl fmt::Display for Path {
    fn fmt<W: fmt::Write>(&self, f: &mut fmt::Formatter<W>) -> fmt::Result {
        if let Some(entry) = self.outer {
            write!(f, "{entry}")?;
        }
        if let Some(entry) = self.middle {
            write!(f, ".{entry}")?;
        }
        if let Some(entry) = self.inner {
            write!(f, ".{entry}")?;
        }
        Ok(())
    }
}

/// What an id is the id of.
#[derive(Clone, Copy, Debug, PartialEq, Eq)]
pub enum IdKind {
    /// A thread, a group or an object: they are of one kind, and what a value may name.
    Shared,
    Group,
    Object,
    Thread,
    Class,
    Method,
    Field,
    Frame,
    /// A module, whose id is none of a thread, a group or an object either.
    Module,
}

impl IdKind {
    /// The kind in words.
    pub fn name(self) -> &'static str {
        match self {
            IdKind::Shared => "thread, group or object",
            IdKind::Group => "group",
            IdKind::Object => "object",
            IdKind::Thread => "thread",
            IdKind::Class => "class",
            IdKind::Method => "method",
            IdKind::Field => "field",
            IdKind::Frame => "frame",
            IdKind::Module => "module",
        }
    }
}

impl fmt::Display for IdKind {
    fn fmt<W: fmt::Write>(&self, f: &mut fmt::Formatter<W>) -> fmt::Result {
        f.write_str(self.name())
    }
}

/// What a script's fault is about.
#[derive(Clone, Copy, Debug, PartialEq, Eq)]
pub enum Cause {
    /// No more is known than the fault says.
    Unsaid,
    /// The text begins with a byte order mark.
    Mark,
    /// The text stops being JSON in this line and column, both counted from 1.
    At(usize, usize),
    /// A text has more bytes than so many.
    Long(usize),
    /// A list has more entries than so many.
    Many(Member, usize),
    /// There are more frames at once than so many.
    Deep(usize),
    /// More threads live at the beginning than so many.
    Living(usize),
    /// This id stands twice.
    Twice(IdKind, u64),
    /// A width of ids is outside 1 to 8.
    Width(u32),
    /// An id is 0 that may not be.
    Zero(IdKind),
    /// No such thing is known where the id stands.
    Unknown(IdKind, u64),
    /// Bits are past the width of the value's tag.
    Bits(u64),
    /// A code index is past the last one of its method.
    Past(u64),
    /// Indexes of lines don't rise, or are past the last one of the method.
    Lines,
    /// A slot stands twice in one call.
    SlotTwice(i32),
    /// No frame is there.
    NoFrame,
    /// A thread is started, or a class prepared, a second time.
    Again(IdKind, u64),
    /// A step stands behind an `again`.
    NeverMade,
    /// An `again` goes so many steps back, and so many stand before it.
    Back(u32, usize),
    /// The steps that an `again` goes back over don't leave the frames as they were.
    OtherFrames,
    /// No thread lives at the beginning.
    NobodyLives,
}

impl fmt::Display for Cause {
    fn fmt<W: fmt::Write>(&self, f: &mut fmt::Formatter<W>) -> fmt::Result {
        match self {
            Cause::Unsaid => Ok(()),
            Cause::Mark => write!(f, ": it begins with a byte order mark"),
            Cause::At(line, column) => write!(f, ": line {line}, column {column}"),
            Cause::Long(bytes) => write!(f, ": a text of more than {bytes} bytes"),
            Cause::Many(list, count) => write!(f, ": more than {count} entries of {list}"),
            Cause::Deep(count) => write!(f, ": more than {count} frames at once"),
            Cause::Living(count) => write!(f, ": more than {count} threads at the beginning"),
            Cause::Twice(kind, id) => write!(f, ": {id} of a {kind}"),
            Cause::Width(width) => write!(f, ": a width of {width} in place of 1 to 8"),
            Cause::Zero(kind) => write!(f, ": the {kind} has id 0"),
            Cause::Unknown(kind, id) => write!(f, ": no {kind} {id} is known here"),
            Cause::Bits(bits) => write!(f, ": bits {bits} past the width of their tag"),
            Cause::Past(index) => write!(f, ": an index {index} past the method's last"),
            Cause::Lines => write!(f, ": lines that don't rise up to the method's last index"),
            Cause::SlotTwice(slot) => write!(f, ": the slot {slot} stands twice"),
            Cause::NoFrame => write!(f, ": a step without a frame"),
            Cause::Again(kind, id) => write!(f, ": the {kind} {id} begins a second time"),
            Cause::NeverMade => write!(f, ": a step behind an again is never made"),
            Cause::Back(back, before) => write!(
                f,
                ": it goes back by {back} where {before} stand before it"
            ),
            Cause::OtherFrames => write!(f, ": it goes back to other frames"),
            Cause::NobodyLives => write!(f, ": no thread lives at the beginning"),
        }
    }
}

/// What is known of a script's fault beside its kind: what it is about, and where in the script it stands. In words it follows those of the
/// fault.
#[derive(Clone, Copy, Debug, PartialEq, Eq)]
pub struct Detail {
    pub cause: Cause,
    pub path: Path,
}

impl Detail {
    /// Nothing is known.
    pub const UNSAID: Detail = Detail {
        cause: Cause::Unsaid,
        path: Path::ROOT,
    };

    /// Of the script as a whole.
    pub(crate) fn of(cause: Cause) -> Detail {
        Detail {
            cause,
            path: Path::ROOT,
        }
    }
}

impl fmt::Display for Detail {
    fn fmt<W: fmt::Write>(&self, f: &mut fmt::Formatter<W>) -> fmt::Result {
        write!(f, "{}", self.cause)?;
        if self.path.outer.is_some() {
            write!(f, ", in {}", self.path)?;
        }
        Ok(())
    }
}
