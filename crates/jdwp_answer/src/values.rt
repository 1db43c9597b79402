//! Replies of one value, and lists of single values (JDWP specification, "Protocol Details").
ghost use Rattle.std.specs.Prelude.{[], ◌∷◌, refl};
ghost use Rattle.std.specs.String.{string_bytes};
ghost use Rattle.jdwp_layout.specs.declared.item.Field.TheVariants as held;
ghost use Rattle.jdwp_layout.specs.Shapes.{OneOf};
ghost use Rattle.jdwp_layout.specs.Meanings.{One, Boolean, Int, Text, Object, ReferenceType, Valued, Tagged};

use crate::fields::{Listed, Record, record_of};
use crate::reply::Reply;
use crate::rows::only;
use crate::table::reply_of;
use jdwp_layout::numbers::{
    ALL_THREADS, CLASS_TYPE, GET_FIELDS, GROUP_PARENT, INTERFACES, IS_COLLECTED, OBJECT_REFERENCE,
    REFERENCE_TYPE, STACK_FRAME, STRING_REFERENCE, STRING_VALUE, SUPERCLASS, SUSPEND_COUNT,
    THIS_OBJECT, THREAD_GROUP_REFERENCE, THREAD_REFERENCE, VIRTUAL_MACHINE,
};
use jdwp_layout::{Datum, Layout, Scalar};
use jdwp_value::{ObjectId, ReferenceTypeId, TaggedId, Value};
use jdwp_wire::NoMemory;
use std::alloc::Global;

/// One text.
impl Record for String {
    ghost kinds = { held.String ∷ [] };

    ghost fields = { λ t. Text (string_bytes t) ∷ [] };

    fn of_fields(_alloc: Global, scalars: Vec<Scalar>) -> Option<String> {
        only(scalars)
    }

    ghost has = { λ t. refl };
}

/// The text that Signature, SourceFile, Name or Value is answered.
impl Reply for String {
    ghost shape = { OneOf held.String ∷ [] };

    ghost says = { λ t. One (Text (string_bytes t)) ∷ [] };

    fn layout() -> &'static Layout {
        reply_of(STRING_REFERENCE, STRING_VALUE)
    }

    fn of_items(alloc: Global, items: Vec<Datum>) -> Result<Option<String>, NoMemory> {
        record_of::<String>(alloc, items)
    }

    ghost fits = { λ t. (refl, tt) };
}

/// One int.
impl Record for i32 {
    ghost kinds = { held.Int ∷ [] };

    ghost fields = { λ n. Int n ∷ [] };

    fn of_fields(_alloc: Global, scalars: Vec<Scalar>) -> Option<i32> {
        only(scalars)
    }

    ghost has = { λ n. refl };
}

/// The number that Modifiers, Status of a class, FrameCount, SuspendCount or Length is answered, or the id of the request that Set is.
impl Reply for i32 {
    ghost shape = { OneOf held.Int ∷ [] };

    ghost says = { λ n. One (Int n) ∷ [] };

    fn layout() -> &'static Layout {
        reply_of(THREAD_REFERENCE, SUSPEND_COUNT)
    }

    fn of_items(alloc: Global, items: Vec<Datum>) -> Result<Option<i32>, NoMemory> {
        record_of::<i32>(alloc, items)
    }

    ghost fits = { λ n. (refl, tt) };
}

/// One boolean.
impl Record for bool {
    ghost kinds = { held.Boolean ∷ [] };

    ghost fields = { λ b. Boolean b ∷ [] };

    fn of_fields(_alloc: Global, scalars: Vec<Scalar>) -> Option<bool> {
        only(scalars)
    }

    ghost has = { λ b. refl };
}

/// What IsObsolete or IsCollected is answered.
impl Reply for bool {
    ghost shape = { OneOf held.Boolean ∷ [] };

    ghost says = { λ b. One (Boolean b) ∷ [] };

    fn layout() -> &'static Layout {
        reply_of(OBJECT_REFERENCE, IS_COLLECTED)
    }

    fn of_items(alloc: Global, items: Vec<Datum>) -> Result<Option<bool>, NoMemory> {
        record_of::<bool>(alloc, items)
    }

    ghost fits = { λ b. (refl, tt) };
}

/// One object.
impl Record for ObjectId {
    ghost kinds = { held.ObjectId ∷ [] };

    ghost fields = { λ o. Object o.0 ∷ [] };

    fn of_fields(_alloc: Global, scalars: Vec<Scalar>) -> Option<ObjectId> {
        only(scalars)
    }

    ghost has = { λ o. refl };
}

/// The object that ClassLoader, ThreadGroup or Parent is answered; 0 for none.
impl Reply for ObjectId {
    ghost shape = { OneOf held.ObjectId ∷ [] };

    ghost says = { λ o. One (Object o.0) ∷ [] };

    fn layout() -> &'static Layout {
        reply_of(THREAD_GROUP_REFERENCE, GROUP_PARENT)
    }

    fn of_items(alloc: Global, items: Vec<Datum>) -> Result<Option<ObjectId>, NoMemory> {
        record_of::<ObjectId>(alloc, items)
    }

    ghost fits = { λ o. (refl, tt) };
}

/// An object of the list that AllThreads, TopLevelThreadGroups or AllModules is answered.
impl Listed for ObjectId {
    fn list() -> &'static Layout {
        reply_of(VIRTUAL_MACHINE, ALL_THREADS)
    }
}

/// One reference type.
impl Record for ReferenceTypeId {
    ghost kinds = { held.ReferenceTypeId ∷ [] };

    ghost fields = { λ r. ReferenceType r.0 ∷ [] };

    fn of_fields(_alloc: Global, scalars: Vec<Scalar>) -> Option<ReferenceTypeId> {
        only(scalars)
    }

    ghost has = { λ r. refl };
}

/// The class that Superclass is answered; 0 for none.
impl Reply for ReferenceTypeId {
    ghost shape = { OneOf held.ReferenceTypeId ∷ [] };

    ghost says = { λ r. One (ReferenceType r.0) ∷ [] };

    fn layout() -> &'static Layout {
        reply_of(CLASS_TYPE, SUPERCLASS)
    }

    fn of_items(alloc: Global, items: Vec<Datum>) -> Result<Option<ReferenceTypeId>, NoMemory> {
        record_of::<ReferenceTypeId>(alloc, items)
    }

    ghost fits = { λ r. (refl, tt) };
}

/// An interface of the list that Interfaces is answered.
impl Listed for ReferenceTypeId {
    fn list() -> &'static Layout {
        reply_of(REFERENCE_TYPE, INTERFACES)
    }
}

/// One object with its tag.
impl Record for TaggedId {
    ghost kinds = { held.TaggedId ∷ [] };

    ghost fields = { λ t. Tagged t ∷ [] };

    fn of_fields(_alloc: Global, scalars: Vec<Scalar>) -> Option<TaggedId> {
        only(scalars)
    }

    ghost has = { λ t. refl };
}

/// The object that ThisObject is answered; 0 for none.
impl Reply for TaggedId {
    ghost shape = { OneOf held.TaggedId ∷ [] };

    ghost says = { λ t. One (Tagged t) ∷ [] };

    fn layout() -> &'static Layout {
        reply_of(STACK_FRAME, THIS_OBJECT)
    }

    fn of_items(alloc: Global, items: Vec<Datum>) -> Result<Option<TaggedId>, NoMemory> {
        record_of::<TaggedId>(alloc, items)
    }

    ghost fits = { λ t. (refl, tt) };
}

/// One value.
impl Record for Value {
    ghost kinds = { held.Value ∷ [] };

    ghost fields = { λ v. Valued v ∷ [] };

    fn of_fields(_alloc: Global, scalars: Vec<Scalar>) -> Option<Value> {
        only(scalars)
    }

    ghost has = { λ v. refl };
}

/// A value of the list that GetValues of ReferenceType, ObjectReference or StackFrame is answered.
impl Listed for Value {
    fn list() -> &'static Layout {
        reply_of(OBJECT_REFERENCE, GET_FIELDS)
    }
}
