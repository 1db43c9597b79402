//! The entries of lists of classes, modules, fields, methods, interfaces, lines and variables.
ghost use Rattle.std.specs.Prelude.{◌≡◌, ℕ, IfOk};
ghost use Rattle.jdwp_script.specs.Parts.{ClassPart, FieldPart, MethodPart, ModulePart, SlotPart};
ghost use Rattle.jdwp_script.specs.Meanings.{class_part, field_part, method_part, module_part, slot_part};
ghost use Rattle.jdwp_script.specs.declared.script.Line as declared;
ghost use Rattle.jdwp_layout.specs.Meanings.{Text, scalar_meaning};
ghost use Rattle.jdwp_script_machine.specs.StateMeanings.{state_now};
ghost use Rattle.jdwp_script_machine.specs.ClassAnswers.{class_entry_signed, class_entry_generic, module_entry, field_entry, field_entry_generic, method_entry, method_entry_generic, interface_entry, index_long, line_entry, variable_entry, variable_entry_generic};

use crate::class_look_ups::status;
use crate::entries::{Tell, empty_text, text};
use crate::replies::object_entry;
use crate::state::MachineState;
use jdwp_layout::Scalar;
use jdwp_script::{Class, Field, Line, Method, Module, Slot};
use jdwp_value::ReferenceTypeId;
use jdwp_wire::NoMemory;
use std::alloc::Global;

/// A class in AllClasses.
#[derive(Clone, Copy)]
pub(crate) struct ClassEntry<'a> {
    pub(crate) state: &'a MachineState,
}

impl<'a> Tell<Class> for ClassEntry<'a> {
    ghost Meaning = { ClassPart };

    ghost meaning = { class_part };

    ghost tells = { λ self c. class_entry_signed (state_now self.state.now) c };

    fn tell(&self, alloc: Global, class: &Class) -> Result<Vec<Scalar>, NoMemory> {
        let signature = text(alloc, &class.signature)?;
        Ok(vec![in alloc;
            Scalar::Byte(class.tag.byte()),
            Scalar::ReferenceTypeId(class.id),
            signature,
            Scalar::Int(status(self.state, class.id)),
        ]?)
    }
}

/// A class in AllClassesWithGeneric: its generic signature is empty.
#[derive(Clone, Copy)]
pub(crate) struct GenericClassEntry<'a> {
    pub(crate) state: &'a MachineState,
}

impl<'a> Tell<Class> for GenericClassEntry<'a> {
    ghost Meaning = { ClassPart };

    ghost meaning = { class_part };

    ghost tells = { λ self c. class_entry_generic (state_now self.state.now) c };

    fn tell(&self, alloc: Global, class: &Class) -> Result<Vec<Scalar>, NoMemory> {
        let signature = text(alloc, &class.signature)?;
        Ok(vec![in alloc;
            Scalar::Byte(class.tag.byte()),
            Scalar::ReferenceTypeId(class.id),
            signature,
            empty_text(alloc),
            Scalar::Int(status(self.state, class.id)),
        ]?)
    }
}

/// A module in AllModules.
pub(crate) struct ModuleEntry;

impl Tell<Module> for ModuleEntry {
    ghost Meaning = { ModulePart };

    ghost meaning = { module_part };

    ghost tells = { λ _ m. module_entry m };

    fn tell(&self, alloc: Global, module: &Module) -> Result<Vec<Scalar>, NoMemory> {
        object_entry(alloc, module.id)
    }
}

/// A name and a signature, as fields.
fn named(alloc: Global, name: &str, signature: &str) -> Result<(Scalar, Scalar), NoMemory>
    ensures { IfOk result (λ p. scalar_meaning p.0 ≡ Text name.now
        × scalar_meaning p.1 ≡ Text signature.now) }
{
    let name = text(alloc, name)?;
    let signature = text(alloc, signature)?;
    Ok((name, signature))
}

/// A field or a method in Fields and Methods.
pub(crate) struct MemberEntry;

impl Tell<Field> for MemberEntry {
    ghost Meaning = { FieldPart };

    ghost meaning = { field_part };

    ghost tells = { λ _ f. field_entry f };

    fn tell(&self, alloc: Global, field: &Field) -> Result<Vec<Scalar>, NoMemory> {
        let (name, signature) = named(alloc, &field.name, &field.signature)?;
        Ok(vec![in alloc;
            Scalar::FieldId(field.id),
            name,
            signature,
            Scalar::Int(field.modifiers),
        ]?)
    }
}

impl Tell<Method> for MemberEntry {
    ghost Meaning = { MethodPart };

    ghost meaning = { method_part };

    ghost tells = { λ _ m. method_entry m };

    fn tell(&self, alloc: Global, method: &Method) -> Result<Vec<Scalar>, NoMemory> {
        let (name, signature) = named(alloc, &method.name, &method.signature)?;
        Ok(vec![in alloc;
            Scalar::MethodId(method.id),
            name,
            signature,
            Scalar::Int(method.modifiers),
        ]?)
    }
}

/// A field or a method in FieldsWithGeneric and MethodsWithGeneric: its generic signature is empty.
pub(crate) struct GenericMemberEntry;

impl Tell<Field> for GenericMemberEntry {
    ghost Meaning = { FieldPart };

    ghost meaning = { field_part };

    ghost tells = { λ _ f. field_entry_generic f };

    fn tell(&self, alloc: Global, field: &Field) -> Result<Vec<Scalar>, NoMemory> {
        let (name, signature) = named(alloc, &field.name, &field.signature)?;
        Ok(vec![in alloc;
            Scalar::FieldId(field.id),
            name,
            signature,
            empty_text(alloc),
            Scalar::Int(field.modifiers),
        ]?)
    }
}

impl Tell<Method> for GenericMemberEntry {
    ghost Meaning = { MethodPart };

    ghost meaning = { method_part };

    ghost tells = { λ _ m. method_entry_generic m };

    fn tell(&self, alloc: Global, method: &Method) -> Result<Vec<Scalar>, NoMemory> {
        let (name, signature) = named(alloc, &method.name, &method.signature)?;
        Ok(vec![in alloc;
            Scalar::MethodId(method.id),
            name,
            signature,
            empty_text(alloc),
            Scalar::Int(method.modifiers),
        ]?)
    }
}

/// An interface in Interfaces.
pub(crate) struct InterfaceEntry;

impl Tell<ReferenceTypeId> for InterfaceEntry {
    ghost Meaning = { ℕ };

    ghost meaning = { λ id. id.0 };

    ghost tells = { λ _ i. interface_entry i };

    fn tell(&self, alloc: Global, id: &ReferenceTypeId) -> Result<Vec<Scalar>, NoMemory> {
        Ok(vec![in alloc; Scalar::ReferenceTypeId(*id)]?)
    }
}

/// The code index as a long, of the same 8 bytes.
pub(crate) fn long_of_index(index: u64) -> Scalar
    ensures { scalar_meaning result ≡ index_long index }
{
    Scalar::Long(index.cast_signed())
}

/// A line in LineTable.
pub(crate) struct LineEntry;

impl Tell<Line> for LineEntry {
    ghost Meaning = { declared.Line };

    ghost meaning = { λ l. l };

    ghost tells = { λ _ l. line_entry l };

    fn tell(&self, alloc: Global, line: &Line) -> Result<Vec<Scalar>, NoMemory> {
        Ok(vec![in alloc; long_of_index(line.index), Scalar::Int(line.line)]?)
    }
}

/// A variable in VariableTable.
pub(crate) struct VariableEntry;

impl Tell<Slot> for VariableEntry {
    ghost Meaning = { SlotPart };

    ghost meaning = { slot_part };

    ghost tells = { λ _ x. variable_entry x };

    fn tell(&self, alloc: Global, slot: &Slot) -> Result<Vec<Scalar>, NoMemory> {
        let (name, signature) = named(alloc, &slot.name, &slot.signature)?;
        Ok(vec![in alloc;
            long_of_index(slot.from),
            name,
            signature,
            Scalar::Int(slot.length),
            Scalar::Int(slot.slot),
        ]?)
    }
}

/// A variable in VariableTableWithGeneric: its generic signature is empty.
pub(crate) struct GenericVariableEntry;

impl Tell<Slot> for GenericVariableEntry {
    ghost Meaning = { SlotPart };

    ghost meaning = { slot_part };

    ghost tells = { λ _ x. variable_entry_generic x };

    fn tell(&self, alloc: Global, slot: &Slot) -> Result<Vec<Scalar>, NoMemory> {
        let (name, signature) = named(alloc, &slot.name, &slot.signature)?;
        Ok(vec![in alloc;
            long_of_index(slot.from),
            name,
            signature,
            empty_text(alloc),
            Scalar::Int(slot.length),
            Scalar::Int(slot.slot),
        ]?)
    }
}
