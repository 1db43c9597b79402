//! Whether an id does not fit its width.
ghost use Rattle.std.specs.Prelude.{◌≡◌, ◌≤◌, ℕ, IsTrue};
ghost use Rattle.jdwp_wire.specs.Widths.{IsWidth};
ghost use Rattle.jdwp_script.specs.declared.script.FieldValue.{FieldValue};
ghost use Rattle.jdwp_script.specs.declared.script.Sizes.{Sizes};
ghost use Rattle.jdwp_script.specs.declared.step.Literal.{Literal};
ghost use Rattle.jdwp_script.specs.declared.step.Place.{Place};
ghost use Rattle.jdwp_script.specs.declared.step.SlotValue.{SlotValue};
ghost use Rattle.jdwp_script.specs.Parts.{GroupPart, FieldPart, MethodPart, ClassPart, ElementsPart, ObjectPart, StepPart, ThreadPart, ModulePart};
ghost use Rattle.jdwp_script.specs.Meanings.{widths, group_part, field_part, method_part, class_part, elements_part, object_part, step_part, thread_part, module_part, script_part};
ghost use Rattle.jdwp_script.specs.Limits.{if_there};
ghost use Rattle.jdwp_script.specs.TooWide.{is_wide, literal_wide, group_wide, field_wide, method_wide, class_wide, field_value_wide, elements_wide, object_wide, slot_value_wide, place_wide, step_wide, thread_wide, module_wide, is_no_width, has_wide_id};

use crate::judge::Judge;
use crate::script::{
    Class, Elements, Field, FieldValue, Group, Method, Module, Object, Script, Sizes, Thread,
};
use crate::step::{Literal, Place, SlotValue, Step};
use jdwp_value::ReferenceTypeId;
use jdwp_wire::IdSizes;
use jdwp_wire::number::fits;

/// Finds ids that do not fit these widths.
#[derive(Drop)]
pub(crate) struct TooWide {
    pub(crate) sizes: IdSizes,
}

/// Whether a number does not fit `width` bytes.
fn is_wide(number: u64, width: u8) -> bool
    requires { IsWidth width }
    ensures { result ≡ is_wide width number }
{
    !fits(number, width as usize)
}

impl Judge<Literal> for TooWide {
    ghost Meaning = { Literal };

    ghost meaning = { λ literal. literal };

    ghost judges = { λ wide. literal_wide wide.sizes };

    fn is_bad(&self, literal: &Literal) -> bool {
        literal.tag.is_object() && is_wide(literal.bits, self.sizes.object())
    }
}

impl Judge<Group> for TooWide {
    ghost Meaning = { GroupPart };

    ghost meaning = { group_part };

    ghost judges = { λ wide. group_wide wide.sizes };

    fn is_bad(&self, group: &Group) -> bool {
        is_wide(group.id.0, self.sizes.object())
            || is_wide(group.parent.0, self.sizes.object())
            || self.is_bad(&group.class)
    }
}

impl Judge<Field> for TooWide {
    ghost Meaning = { FieldPart };

    ghost meaning = { field_part };

    ghost judges = { λ wide. field_wide wide.sizes };

    fn is_bad(&self, field: &Field) -> bool {
        if is_wide(field.id.0, self.sizes.field()) {
            return true;
        }
        match &field.value {
            Some(value) => self.is_bad(value),
            None => false,
        }
    }
}

impl Judge<Method> for TooWide {
    ghost Meaning = { MethodPart };

    ghost meaning = { method_part };

    ghost judges = { λ wide. method_wide wide.sizes };

    fn is_bad(&self, method: &Method) -> bool {
        if is_wide(method.id.0, self.sizes.method()) {
            return true;
        }
        match &method.returns {
            Some(value) => self.is_bad(value),
            None => false,
        }
    }
}

impl Judge<ReferenceTypeId> for TooWide {
    ghost Meaning = { ℕ };

    ghost meaning = { λ id. id.0 };

    ghost judges = { λ wide. is_wide wide.sizes.reference };

    fn is_bad(&self, id: &ReferenceTypeId) -> bool {
        is_wide(id.0, self.sizes.reference())
    }
}

impl Judge<Class> for TooWide {
    ghost Meaning = { ClassPart };

    ghost meaning = { class_part };

    ghost judges = { λ wide. class_wide wide.sizes };

    fn is_bad(&self, class: &Class) -> bool {
        self.is_bad(&class.id)
            || self.is_bad(&class.superclass)
            || self.has_bad(&class.interfaces)
            || self.has_bad(&class.fields)
            || self.has_bad(&class.methods)
            || is_wide(class.module.0, self.sizes.object())
    }
}

impl Judge<FieldValue> for TooWide {
    ghost Meaning = { FieldValue };

    ghost meaning = { λ held. held };

    ghost judges = { λ wide. field_value_wide wide.sizes };

    fn is_bad(&self, held: &FieldValue) -> bool {
        is_wide(held.field.0, self.sizes.field()) || self.is_bad(&held.value)
    }
}

/// Numbers as ids of objects.
impl Judge<u64> for TooWide {
    ghost Meaning = { ℕ };

    ghost meaning = { λ id. id };

    ghost judges = { λ wide. is_wide wide.sizes.object };

    fn is_bad(&self, id: &u64) -> bool {
        is_wide(*id, self.sizes.object())
    }
}

impl Judge<Elements> for TooWide {
    ghost Meaning = { ElementsPart };

    ghost meaning = { elements_part };

    ghost judges = { λ wide. elements_wide wide.sizes };

    fn is_bad(&self, elements: &Elements) -> bool {
        elements.tag.is_object() && self.has_bad(&elements.bits)
    }
}

impl Judge<Object> for TooWide {
    ghost Meaning = { ObjectPart };

    ghost meaning = { object_part };

    ghost judges = { λ wide. object_wide wide.sizes };

    fn is_bad(&self, object: &Object) -> bool {
        if is_wide(object.id.0, self.sizes.object())
            || self.is_bad(&object.class)
            || self.has_bad(&object.fields)
        {
            return true;
        }
        match &object.array {
            Some(elements) => self.is_bad(elements),
            None => false,
        }
    }
}

impl Judge<SlotValue> for TooWide {
    ghost Meaning = { SlotValue };

    ghost meaning = { λ held. held };

    ghost judges = { λ wide. slot_value_wide wide.sizes };

    fn is_bad(&self, held: &SlotValue) -> bool {
        self.is_bad(&held.value)
    }
}

impl Judge<Place> for TooWide {
    ghost Meaning = { Place };

    ghost meaning = { λ place. place };

    ghost judges = { λ wide. place_wide wide.sizes };

    fn is_bad(&self, place: &Place) -> bool {
        self.is_bad(&place.class) || is_wide(place.method.0, self.sizes.method())
    }
}

impl Judge<Step> for TooWide {
    ghost Meaning = { StepPart };

    ghost meaning = { step_part };

    ghost judges = { λ wide. step_wide wide.sizes };

    fn is_bad(&self, step: &Step) -> bool {
        match step {
            Step::Call(call) => {
                is_wide(call.frame.0, self.sizes.frame())
                    || self.is_bad(&call.class)
                    || is_wide(call.method.0, self.sizes.method())
                    || is_wide(call.this.0, self.sizes.object())
                    || self.has_bad(&call.slots)
            }
            Step::Go(_) | Step::Again(_) => false,
            Step::Return(value) => self.is_bad(value),
            Step::Throw(throw) => {
                if is_wide(throw.object.0, self.sizes.object()) {
                    return true;
                }
                match &throw.caught {
                    Some(place) => self.is_bad(place),
                    None => false,
                }
            }
            Step::Prepare(class) => self.is_bad(class),
            Step::Start(thread) => is_wide(thread.0, self.sizes.object()),
        }
    }
}

impl Judge<Thread> for TooWide {
    ghost Meaning = { ThreadPart };

    ghost meaning = { thread_part };

    ghost judges = { λ wide. thread_wide wide.sizes };

    fn is_bad(&self, thread: &Thread) -> bool {
        is_wide(thread.id.0, self.sizes.object())
            || is_wide(thread.group.0, self.sizes.object())
            || self.has_bad(&thread.steps)
            || self.is_bad(&thread.class)
    }
}

impl Judge<Module> for TooWide {
    ghost Meaning = { ModulePart };

    ghost meaning = { module_part };

    ghost judges = { λ wide. module_wide wide.sizes };

    fn is_bad(&self, module: &Module) -> bool {
        is_wide(module.id.0, self.sizes.object())
    }
}

/// Whether a width is outside 1 to 8, or an id does not fit its width.
pub(crate) fn has_wide_id(script: &Script) -> bool
    ensures { result ≡ has_wide_id (script_part script.now) }
{
    let s = script.sizes;
    let Ok(sizes) = IdSizes::new(s.field, s.method, s.object, s.reference, s.frame) else {
        return true;
    };
    let wide = TooWide { sizes };
    wide.has_bad(&script.groups)
        || wide.has_bad(&script.classes)
        || wide.has_bad(&script.objects)
        || wide.has_bad(&script.threads)
        || wide.has_bad(&script.modules)
}
