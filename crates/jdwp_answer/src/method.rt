//! What commands of the set Method are answered (JDWP specification, "Method").
ghost use Rattle.std.specs.Prelude.{[], ◌∷◌, refl, map};
ghost use Rattle.jdwp_layout.specs.Shapes.{OneOf, ListOf, Fields};
ghost use Rattle.jdwp_layout.specs.declared.item.Field.TheVariants as held;
ghost use Rattle.jdwp_layout.specs.Meanings.{One, Many, Int, Long};
ghost use Rattle.jdwp_answer.specs.ShapedLaws.{all_have};
ghost use Rattle.jdwp_answer.specs.Tables.{line_kinds, line_fields, line_table, variable_kinds, variable_fields, variable_table, generic_variable_kinds, generic_variable_fields, generic_variable_table};

use crate::fields::{Record, entries_of};
use crate::items::items_of;
use crate::reply::Reply;
use crate::rows::row_of;
use crate::table::reply_of;
use jdwp_layout::numbers::{LINE_TABLE, METHOD, VARIABLE_TABLE, VARIABLE_TABLE_WITH_GENERIC};
use jdwp_layout::{Datum, Layout, Scalar};
use jdwp_wire::NoMemory;
use std::alloc::Global;

/// What LineTable is answered.
#[derive(Debug, PartialEq, Drop)]
pub struct LineTable {
    /// The first code index of the method; -1 for a native method.
    pub start: i64,
    /// The last code index of the method; -1 for a native method.
    pub end: i64,
    /// The lines.
    pub lines: Vec<LineEntry>,
}

impl Reply for LineTable {
    ghost shape = { line_table };

    ghost says = { λ t. One (Long t.start) ∷ One (Long t.end)
        ∷ Many (map line_fields t.lines.items) ∷ [] };

    fn layout() -> &'static Layout {
        reply_of(METHOD, LINE_TABLE)
    }

    fn of_items(alloc: Global, items: Vec<Datum>) -> Result<Option<LineTable>, NoMemory> {
        match items_of(items) {
            Some((start, (end, (entries, ())))) => match entries_of(alloc, entries) {
                Ok(Some(lines)) => Ok(Some(LineTable { start, end, lines })),
                Ok(None) => Ok(None),
                Err(NoMemory) => Err(NoMemory),
            },
            None => Ok(None),
        }
    }

    ghost fits = { λ t. (refl, (refl, (all_have line_kinds line_fields (λ _. refl) t.lines.items, tt))) };
}

/// A line of a line table: where its code begins.
#[derive(Clone, Copy, Debug, PartialEq, Eq)]
pub struct LineEntry {
    /// The code index at which it begins.
    pub code_index: i64,
    /// The number of the line.
    pub line: i32,
}

impl Record for LineEntry {
    ghost kinds = { line_kinds };

    ghost fields = { line_fields };

    fn of_fields(_alloc: Global, scalars: Vec<Scalar>) -> Option<LineEntry> {
        match row_of(scalars) {
            Some((code_index, (line, ()))) => Some(LineEntry { code_index, line }),
            None => None,
        }
    }

    ghost has = { λ l. refl };
}

/// What VariableTable is answered.
#[derive(Debug, PartialEq, Drop)]
pub struct VariableTable {
    /// How many words of the frame its arguments take, `this` among them.
    pub arg_count: i32,
    /// The variables.
    pub slots: Vec<VariableEntry>,
}

impl Reply for VariableTable {
    ghost shape = { variable_table };

    ghost says = { λ t. One (Int t.arg_count) ∷ Many (map variable_fields t.slots.items) ∷ [] };

    fn layout() -> &'static Layout {
        reply_of(METHOD, VARIABLE_TABLE)
    }

    fn of_items(alloc: Global, items: Vec<Datum>) -> Result<Option<VariableTable>, NoMemory> {
        match items_of(items) {
            Some((arg_count, (entries, ()))) => match entries_of(alloc, entries) {
                Ok(Some(slots)) => Ok(Some(VariableTable { arg_count, slots })),
                Ok(None) => Ok(None),
                Err(NoMemory) => Err(NoMemory),
            },
            None => Ok(None),
        }
    }

    ghost fits = { λ t. (refl, (all_have variable_kinds variable_fields (λ _. refl) t.slots.items, tt)) };
}

/// A local variable, in what VariableTable is answered.
#[derive(Debug, PartialEq, Drop)]
pub struct VariableEntry {
    /// The first code index at which it is valid.
    pub code_index: i64,
    /// Its name.
    pub name: String,
    /// The JNI signature.
    pub signature: String,
    /// For how many code indexes it is valid.
    pub length: i32,
    /// Its slot in the frame.
    pub slot: i32,
}

impl Record for VariableEntry {
    ghost kinds = { variable_kinds };

    ghost fields = { variable_fields };

    fn of_fields(_alloc: Global, scalars: Vec<Scalar>) -> Option<VariableEntry> {
        match row_of(scalars) {
            Some((code_index, (name, (signature, (length, (slot, ())))))) => Some(VariableEntry {
                code_index,
                name,
                signature,
                length,
                slot,
            }),
            None => None,
        }
    }

    ghost has = { λ v. refl };
}

/// What VariableTableWithGeneric is answered.
#[derive(Debug, PartialEq, Drop)]
pub struct GenericVariableTable {
    /// How many words of the frame its arguments take, `this` among them.
    pub arg_count: i32,
    /// The variables.
    pub slots: Vec<GenericVariable>,
}

impl Reply for GenericVariableTable {
    ghost shape = { generic_variable_table };

    ghost says = { λ t. One (Int t.arg_count) ∷ Many (map generic_variable_fields t.slots.items) ∷ [] };

    fn layout() -> &'static Layout {
        reply_of(METHOD, VARIABLE_TABLE_WITH_GENERIC)
    }

    fn of_items(
        alloc: Global,
        items: Vec<Datum>,
    ) -> Result<Option<GenericVariableTable>, NoMemory> {
        match items_of(items) {
            Some((arg_count, (entries, ()))) => match entries_of(alloc, entries) {
                Ok(Some(slots)) => Ok(Some(GenericVariableTable { arg_count, slots })),
                Ok(None) => Ok(None),
                Err(NoMemory) => Err(NoMemory),
            },
            None => Ok(None),
        }
    }

    ghost fits = { λ t. (refl, (all_have generic_variable_kinds generic_variable_fields (λ _. refl) t.slots.items, tt)) };
}

/// A local variable, in what VariableTableWithGeneric is answered.
#[derive(Debug, PartialEq, Drop)]
pub struct GenericVariable {
    /// The first code index at which it is valid.
    pub code_index: i64,
    /// Its name.
    pub name: String,
    /// The JNI signature.
    pub signature: String,
    /// The generic signature; empty where there is none.
    pub generic_signature: String,
    /// For how many code indexes it is valid.
    pub length: i32,
    /// Its slot in the frame.
    pub slot: i32,
}

impl Record for GenericVariable {
    ghost kinds = { generic_variable_kinds };

    ghost fields = { generic_variable_fields };

    fn of_fields(_alloc: Global, scalars: Vec<Scalar>) -> Option<GenericVariable> {
        match row_of(scalars) {
            Some((code_index, (name, (signature, (generic_signature, (length, (slot, ()))))))) =>
                Some(GenericVariable {
                    code_index,
                    name,
                    signature,
                    generic_signature,
                    length,
                    slot,
                }),
            None => None,
        }
    }

    ghost has = { λ v. refl };
}
