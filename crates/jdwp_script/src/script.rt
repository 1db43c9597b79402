//! What a script says of a machine.
use crate::step::{Literal, Step};
use jdwp_value::{FieldId, MethodId, ObjectId, ReferenceTypeId, Tag, TypeTag};

/// A scripted machine: what it has, and what its threads do. Lists stand as in the script's text.
#[derive(Drop)]
pub struct Script {
    /// What the machine calls itself.
    pub name: String,
    pub sizes: Sizes,
    pub groups: Vec<Group>,
    pub classes: Vec<Class>,
    pub objects: Vec<Object>,
    pub threads: Vec<Thread>,
    /// Empty where the text has none.
    pub modules: Vec<Module>,
}

/// The widths of ids in bytes, as the script says them.
#[derive(Clone, Copy, Debug, PartialEq, Eq)]
pub struct Sizes {
    pub field: u32,
    pub method: u32,
    pub object: u32,
    pub reference: u32,
    pub frame: u32,
}

/// A thread group.
#[derive(Drop)]
pub struct Group {
    pub id: ObjectId,
    pub name: String,
    /// 0 where the group has none.
    pub parent: ObjectId,
    /// The class that it is an object of, 0 where the text names none.
    pub class: ReferenceTypeId,
}

/// A class, an interface or an array type.
#[derive(Drop)]
pub struct Class {
    pub id: ReferenceTypeId,
    pub tag: TypeTag,
    pub signature: String,
    pub modifiers: i32,
    /// The superclass, 0 where the class has none.
    pub superclass: ReferenceTypeId,
    pub interfaces: Vec<ReferenceTypeId>,
    /// The name of the source file, if it is known.
    pub source: Option<String>,
    pub fields: Vec<Field>,
    pub methods: Vec<Method>,
    /// The module in which the class is, 0 where it is in none.
    pub module: ObjectId,
}

/// A field of a class.
#[derive(Drop)]
pub struct Field {
    pub id: FieldId,
    pub name: String,
    pub signature: String,
    pub modifiers: i32,
    /// The value of a static field; None where the field is each object's own.
    pub value: Option<Literal>,
}

/// A method of a class.
#[derive(Drop)]
pub struct Method {
    pub id: MethodId,
    pub name: String,
    pub signature: String,
    pub modifiers: i32,
    /// How many words its arguments take.
    pub args: i32,
    /// The last code index; the first is 0.
    pub last: u64,
    /// By rising index.
    pub lines: Vec<Line>,
    pub slots: Vec<Slot>,
    /// What an invocation of it answers; None where the text says nothing of it.
    pub returns: Option<Literal>,
}

/// The code index at which a line begins.
#[derive(Clone, Copy, Debug, PartialEq, Eq)]
pub struct Line {
    pub index: u64,
    pub line: i32,
}

/// A local variable, and where it holds its slot.
#[derive(Drop)]
pub struct Slot {
    /// The code index from which on the variable holds the slot.
    pub from: u64,
    pub name: String,
    pub signature: String,
    /// For how many code indexes.
    pub length: i32,
    pub slot: i32,
}

/// An object: a string where it has text, an array where it has elements.
#[derive(Drop)]
pub struct Object {
    pub id: ObjectId,
    pub class: ReferenceTypeId,
    pub fields: Vec<FieldValue>,
    pub text: Option<String>,
    pub array: Option<Elements>,
}

/// What a field of an object holds.
#[derive(Clone, Copy, Debug, PartialEq, Eq)]
pub struct FieldValue {
    pub field: FieldId,
    pub value: Literal,
}

/// The elements of an array.
#[derive(Drop)]
pub struct Elements {
    /// What each element is, and never void.
    pub tag: Tag,
    /// The bits of each, or its id.
    pub bits: Vec<u64>,
}

/// A thread.
#[derive(Drop)]
pub struct Thread {
    pub id: ObjectId,
    pub name: String,
    pub group: ObjectId,
    pub steps: Vec<Step>,
    /// The class that it is an object of, 0 where the text names none.
    pub class: ReferenceTypeId,
}

/// A module.
#[derive(Drop)]
pub struct Module {
    pub id: ObjectId,
    pub name: String,
}
