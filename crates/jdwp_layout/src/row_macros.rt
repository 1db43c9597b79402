//! A row of the table of commands in one line: the names of the set and of the command, what the command carries, and
//! what its reply does. An item is a field by its name, or `list(FIELD, ..)`, `modifiers`, `events` or `region`.

/// An item of a layout.
macro_rules! item {
    (list($($field:ident),*)) => {
        $crate::item::Item::Many($crate::item::Entry::Fields(&[$($crate::item::Field::$field),*]))
    };
    (modifiers) => { $crate::item::Item::Many($crate::item::Entry::Modifier) };
    (events) => { $crate::item::Item::Many($crate::item::Entry::Event) };
    (region) => { $crate::item::Item::Region };
    ($field:ident) => { $crate::item::Item::One($crate::item::Field::$field) };
}

/// What a command and its reply carry.
macro_rules! layouts {
    ([$($request:ident $(($($asked:ident),*))?),*], [$($reply:ident $(($($told:ident),*))?),*]) => {
        Some($crate::command::Layouts {
            request: $crate::item::Layout {
                items: &[$($crate::row_macros::item!($request $(($($asked),*))?)),*],
            },
            reply: $crate::item::Layout {
                items: &[$($crate::row_macros::item!($reply $(($($told),*))?)),*],
            },
        })
    };
}

/// A command that the target answers.
macro_rules! answered {
    ($set_name:ident . $name:ident : $request:tt => $reply:tt) => {
        $crate::command::CommandRow {
            set_name: stringify!($set_name),
            name: stringify!($name),
            layouts: $crate::row_macros::layouts!($request, $reply),
            starred: false,
        }
    };
}

/// A command that the target does not implement.
macro_rules! starred {
    ($set_name:ident . $name:ident : $request:tt => $reply:tt) => {
        $crate::command::CommandRow {
            set_name: stringify!($set_name),
            name: stringify!($name),
            layouts: $crate::row_macros::layouts!($request, $reply),
            starred: true,
        }
    };
}

/// A command whose data are not read.
macro_rules! raw {
    ($set_name:ident . $name:ident) => {
        $crate::command::CommandRow {
            set_name: stringify!($set_name),
            name: stringify!($name),
            layouts: None,
            starred: false,
        }
    };
}

pub(crate) use answered;
pub(crate) use item;
pub(crate) use layouts;
pub(crate) use raw;
pub(crate) use starred;
