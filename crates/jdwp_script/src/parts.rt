//! The parts of a script as JSON values. Members stand in the order in which they are read.
ghost use Rattle.std.specs.Prelude.{◌≡◌, ℕ, map};
ghost use Rattle.jdwp_wire.specs.Widths.{Widths};
ghost use Rattle.jdwp_script.specs.Parts.{GroupPart, FieldPart, SlotPart, MethodPart, ClassPart, ElementsPart, ObjectPart, ThreadPart, ModulePart, ScriptPart};
ghost use Rattle.jdwp_script.specs.Meanings.{widths, group_part, field_part, slot_part, method_part, class_part, elements_part, object_part, thread_part, module_part, script_part};
ghost use Rattle.jdwp_script.specs.Reading.{Reader, Gives, whole};
ghost use Rattle.jdwp_script.specs.Scripts as scripts;
ghost use Rattle.jdwp_script.specs.declared.script.Line.{Line};
ghost use Rattle.jdwp_script.specs.declared.script.FieldValue.{FieldValue};
ghost use Rattle.jdwp_script.specs.declared.step.Literal.{Literal};
ghost use Rattle.jdwp_value.specs.declared.location.TypeTag.{TypeTag};
ghost use Rattle.jdwp_value.specs.declared.tag.Tag.{Tag};
ghost use Rattle.jdwp_value.specs.Values.{is_void};
ghost use Rattle.serde_json.specs.View.{view};

use crate::fault::ScriptFault;
use crate::member::Member;
use crate::reading::{Part, entry, member, member_or, tuple};
use crate::script::{
    Class, Elements, Field, FieldValue, Group, Line, Method, Module, Object, Script, Sizes, Slot,
    Thread,
};
use crate::step::Literal;
use jdwp_value::{FieldId, MethodId, ObjectId, ReferenceTypeId, Tag, TypeTag};
use serde_json::Value;
use std::alloc::Global;

impl Part for ReferenceTypeId {
    ghost Meaning = { ℕ };

    ghost meaning = { λ id. id.0 };

    ghost reads = { whole };

    fn read(alloc: Global, value: &Value, member: Member) -> Result<ReferenceTypeId, ScriptFault> {
        Ok(ReferenceTypeId(u64::read(alloc, value, member)?))
    }
}

/// A text of one character.
impl Part for Tag {
    ghost Meaning = { Tag };

    ghost meaning = { λ tag. tag };

    ghost reads = { scripts.tag };

    fn read(_alloc: Global, value: &Value, member: Member) -> Result<Tag, ScriptFault> {
        let Some(text) = value.as_str() else {
            return Err(ScriptFault::Missing(member));
        };
        match text.as_bytes() {
            [byte] => match Tag::of_byte(*byte) {
                Some(tag) => Ok(tag),
                None => Err(ScriptFault::Missing(member)),
            },
            _ => Err(ScriptFault::Missing(member)),
        }
    }
}

/// A tag and bits.
impl Part for Literal {
    ghost Meaning = { Literal };

    ghost meaning = { λ literal. literal };

    ghost reads = { scripts.literal };

    fn read(alloc: Global, value: &Value, member: Member) -> Result<Literal, ScriptFault> {
        let list = tuple(value, 2, member)?;
        Ok(Literal {
            tag: entry(alloc, list, 0, member)?,
            bits: entry(alloc, list, 1, member)?,
        })
    }
}

/// 1 to 3.
impl Part for TypeTag {
    ghost Meaning = { TypeTag };

    ghost meaning = { λ tag. tag };

    ghost reads = { scripts.type_tag };

    fn read(alloc: Global, value: &Value, member: Member) -> Result<TypeTag, ScriptFault> {
        match u64::read(alloc, value, member)? {
            1 => Ok(TypeTag::Class),
            2 => Ok(TypeTag::Interface),
            3 => Ok(TypeTag::Array),
            _ => Err(ScriptFault::Missing(member)),
        }
    }
}

impl Part for Group {
    ghost Meaning = { GroupPart };

    ghost meaning = { group_part };

    ghost reads = { scripts.group };

    fn read(alloc: Global, value: &Value, _member: Member) -> Result<Group, ScriptFault> {
        Ok(Group {
            id: ObjectId(member(alloc, value, Member::Id)?),
            name: member(alloc, value, Member::Name)?,
            parent: ObjectId(member(alloc, value, Member::Parent)?),
            class: ReferenceTypeId(member_or(alloc, 0, value, Member::Class)?),
        })
    }
}

impl Part for Field {
    ghost Meaning = { FieldPart };

    ghost meaning = { field_part };

    ghost reads = { scripts.field };

    fn read(alloc: Global, value: &Value, _member: Member) -> Result<Field, ScriptFault> {
        Ok(Field {
            id: FieldId(member(alloc, value, Member::Id)?),
            name: member(alloc, value, Member::Name)?,
            signature: member(alloc, value, Member::Signature)?,
            modifiers: member(alloc, value, Member::Modifiers)?,
            value: member(alloc, value, Member::Value)?,
        })
    }
}

/// A code index and a line.
impl Part for Line {
    ghost Meaning = { Line };

    ghost meaning = { λ line. line };

    ghost reads = { scripts.line };

    fn read(alloc: Global, value: &Value, member: Member) -> Result<Line, ScriptFault> {
        let list = tuple(value, 2, member)?;
        Ok(Line {
            index: entry(alloc, list, 0, member)?,
            line: entry(alloc, list, 1, member)?,
        })
    }
}

impl Part for Slot {
    ghost Meaning = { SlotPart };

    ghost meaning = { slot_part };

    ghost reads = { scripts.slot };

    fn read(alloc: Global, value: &Value, _member: Member) -> Result<Slot, ScriptFault> {
        Ok(Slot {
            from: member(alloc, value, Member::From)?,
            name: member(alloc, value, Member::Name)?,
            signature: member(alloc, value, Member::Signature)?,
            length: member(alloc, value, Member::Length)?,
            slot: member(alloc, value, Member::Slot)?,
        })
    }
}

impl Part for Method {
    ghost Meaning = { MethodPart };

    ghost meaning = { method_part };

    ghost reads = { scripts.method };

    fn read(alloc: Global, value: &Value, _member: Member) -> Result<Method, ScriptFault> {
        Ok(Method {
            id: MethodId(member(alloc, value, Member::Id)?),
            name: member(alloc, value, Member::Name)?,
            signature: member(alloc, value, Member::Signature)?,
            modifiers: member(alloc, value, Member::Modifiers)?,
            args: member(alloc, value, Member::Args)?,
            last: member(alloc, value, Member::Last)?,
            lines: member(alloc, value, Member::Lines)?,
            slots: member(alloc, value, Member::Slots)?,
            returns: member_or(alloc, None, value, Member::Returns)?,
        })
    }
}

impl Part for Class {
    ghost Meaning = { ClassPart };

    ghost meaning = { class_part };

    ghost reads = { scripts.class };

    fn read(alloc: Global, value: &Value, _member: Member) -> Result<Class, ScriptFault> {
        Ok(Class {
            id: ReferenceTypeId(member(alloc, value, Member::Id)?),
            tag: member(alloc, value, Member::Tag)?,
            signature: member(alloc, value, Member::Signature)?,
            modifiers: member(alloc, value, Member::Modifiers)?,
            superclass: ReferenceTypeId(member(alloc, value, Member::Super)?),
            interfaces: member(alloc, value, Member::Interfaces)?,
            source: member(alloc, value, Member::Source)?,
            fields: member(alloc, value, Member::Fields)?,
            methods: member(alloc, value, Member::Methods)?,
            module: ObjectId(member_or(alloc, 0, value, Member::Module)?),
        })
    }
}

/// A field's id and a value.
impl Part for FieldValue {
    ghost Meaning = { FieldValue };

    ghost meaning = { λ held. held };

    ghost reads = { scripts.field_value };

    fn read(alloc: Global, value: &Value, member: Member) -> Result<FieldValue, ScriptFault> {
        let list = tuple(value, 2, member)?;
        Ok(FieldValue {
            field: FieldId(entry(alloc, list, 0, member)?),
            value: entry(alloc, list, 1, member)?,
        })
    }
}

/// A tag that is not void's, and the bits of each element.
impl Part for Elements {
    ghost Meaning = { ElementsPart };

    ghost meaning = { elements_part };

    ghost reads = { scripts.elements };

    fn read(alloc: Global, value: &Value, member: Member) -> Result<Elements, ScriptFault> {
        let list = tuple(value, 2, member)?;
        let tag: Tag = entry(alloc, list, 0, member)?;
        if tag.is_void() {
            return Err(ScriptFault::Missing(member));
        }
        Ok(Elements {
            tag,
            bits: entry(alloc, list, 1, member)?,
        })
    }
}

impl Part for Object {
    ghost Meaning = { ObjectPart };

    ghost meaning = { object_part };

    ghost reads = { scripts.object };

    fn read(alloc: Global, value: &Value, _member: Member) -> Result<Object, ScriptFault> {
        Ok(Object {
            id: ObjectId(member(alloc, value, Member::Id)?),
            class: ReferenceTypeId(member(alloc, value, Member::Class)?),
            fields: member(alloc, value, Member::Fields)?,
            text: member(alloc, value, Member::Text)?,
            array: member(alloc, value, Member::Array)?,
        })
    }
}

impl Part for Thread {
    ghost Meaning = { ThreadPart };

    ghost meaning = { thread_part };

    ghost reads = { scripts.thread };

    fn read(alloc: Global, value: &Value, _member: Member) -> Result<Thread, ScriptFault> {
        Ok(Thread {
            id: ObjectId(member(alloc, value, Member::Id)?),
            name: member(alloc, value, Member::Name)?,
            group: ObjectId(member(alloc, value, Member::Group)?),
            steps: member(alloc, value, Member::Steps)?,
            class: ReferenceTypeId(member_or(alloc, 0, value, Member::Class)?),
        })
    }
}

impl Part for Module {
    ghost Meaning = { ModulePart };

    ghost meaning = { module_part };

    ghost reads = { scripts.module };

    fn read(alloc: Global, value: &Value, _member: Member) -> Result<Module, ScriptFault> {
        Ok(Module {
            id: ObjectId(member(alloc, value, Member::Id)?),
            name: member(alloc, value, Member::Name)?,
        })
    }
}

/// The widths of fields, methods, objects, reference types and frames.
impl Part for Sizes {
    ghost Meaning = { Widths };

    ghost meaning = { widths };

    ghost reads = { scripts.sizes };

    fn read(alloc: Global, value: &Value, member: Member) -> Result<Sizes, ScriptFault> {
        let list = tuple(value, 5, member)?;
        Ok(Sizes {
            field: entry(alloc, list, 0, member)?,
            method: entry(alloc, list, 1, member)?,
            object: entry(alloc, list, 2, member)?,
            reference: entry(alloc, list, 3, member)?,
            frame: entry(alloc, list, 4, member)?,
        })
    }
}

/// The script that a JSON value is.
///
/// # Errors
/// `Missing` with the first member that is missing or of another type; `NoMemory` where an allocation was refused.
pub(crate) fn script(alloc: Global, value: &Value) -> Result<Script, ScriptFault>
    ensures { Gives script_part result (scripts.script (view value.now)) }
{
    Ok(Script {
        name: member(alloc, value, Member::Name)?,
        sizes: member(alloc, value, Member::Sizes)?,
        groups: member(alloc, value, Member::Groups)?,
        classes: member(alloc, value, Member::Classes)?,
        objects: member(alloc, value, Member::Objects)?,
        threads: member(alloc, value, Member::Threads)?,
        modules: modules(alloc, value)?,
    })
}

/// The modules of a script: none where it has no such member.
///
/// # Errors
/// What reading the member's value answers.
fn modules(alloc: Global, value: &Value) -> Result<Vec<Module>, ScriptFault>
    ensures { Gives (λ v. map module_part v.items) result
        (scripts.modules (view value.now)) }
{
    member_or(alloc, Vec::new(alloc), value, Member::Modules)
}
