//! The members of a script's objects.
ghost use Rattle.std.specs.Prelude.{◌≡◌};
ghost use Rattle.jdwp_script.specs.Members.{member_name};

use std::fmt;

/// A member of the script, or of one of its parts.
#[derive(Clone, Copy, Debug, PartialEq, Eq)]
pub enum Member {
    Name,
    Sizes,
    Groups,
    Classes,
    Objects,
    Threads,
    Id,
    Parent,
    Tag,
    Signature,
    Modifiers,
    Super,
    Interfaces,
    Source,
    Fields,
    Methods,
    Value,
    Args,
    Last,
    Lines,
    Slots,
    Returns,
    From,
    Length,
    Slot,
    Class,
    Text,
    Array,
    Group,
    Steps,
    Modules,
    Module,
}

impl Member {
    /// The name under which the member stands.
    pub fn name(self) -> &'static str
        ensures { result.now ≡ member_name self }
    {
        match self {
            Member::Name => "name",
            Member::Sizes => "sizes",
            Member::Groups => "groups",
            Member::Classes => "classes",
            Member::Objects => "objects",
            Member::Threads => "threads",
            Member::Id => "id",
            Member::Parent => "parent",
            Member::Tag => "tag",
            Member::Signature => "signature",
            Member::Modifiers => "modifiers",
            Member::Super => "super",
            Member::Interfaces => "interfaces",
            Member::Source => "source",
            Member::Fields => "fields",
            Member::Methods => "methods",
            Member::Value => "value",
            Member::Args => "args",
            Member::Last => "last",
            Member::Lines => "lines",
            Member::Slots => "slots",
            Member::Returns => "returns",
            Member::From => "from",
            Member::Length => "length",
            Member::Slot => "slot",
            Member::Class => "class",
            Member::Text => "text",
            Member::Array => "array",
            Member::Group => "group",
            Member::Steps => "steps",
            Member::Modules => "modules",
            Member::Module => "module",
        }
    }
}

impl fmt::Display for Member {
    fn fmt<W: fmt::Write>(&self, f: &mut fmt::Formatter<W>) -> fmt::Result {
        f.write_str(self.name())
    }
}
