//! A script's lists by rising id.
ghost use Rattle.std.specs.Prelude.{◌≡◌, ◌≤◌, length, map};
ghost use Rattle.jdwp_script.specs.Parts.{ClassPart};
ghost use Rattle.jdwp_script.specs.Meanings.{class_part, script_part};
ghost use Rattle.jdwp_value.specs.Rising.{rising};
ghost use Rattle.jdwp_script_machine.specs.LookUps.{place_for, first_put};
ghost use Rattle.jdwp_script_machine.specs.States.{class_arranged, arranged};

use crate::look_ups::Numbered;
use jdwp_script::{Class, Script};

/// Arranges the script's groups, classes, objects, threads and modules, and the fields and methods of each class, by rising id.
pub(crate) fn arrange(script: &mut Script)
    ensures { script_part script.new ≡ arranged (script_part script.old) }
{
    rise(&mut script.groups);
    arrange_classes(&mut script.classes);
    rise(&mut script.objects);
    rise(&mut script.threads);
    rise(&mut script.modules);
}

/// Arranges classes by rising id, and the fields and methods of each.
fn arrange_classes(classes: &mut [Class])
    ensures { map class_part classes.new ≡ map class_arranged (rising (λ (c : ClassPart).
        c.id) (map class_part classes.old)) }
{
    rise(classes);
    for class in classes.iter_mut() {
        arrange_class(class);
    }
}

/// Arranges the class's fields and methods by rising id.
fn arrange_class(class: &mut Class)
    ensures { class_part class.new ≡ class_arranged (class_part class.old) }
{
    rise(&mut class.fields);
    rise(&mut class.methods);
}

/// Arranges them by rising id: each is put before the first after it whose id is not less, from the last one on.
fn rise<T: Numbered>(parts: &mut [T])
    ensures { map T.meaning parts.new ≡ rising T.key (map T.meaning parts.old) }
{
    for first in (0..parts.len()).rev() {
        put_first(&mut parts[first..]);
    }
}

/// Puts the first one among the others, before the first of them whose id is not less.
fn put_first<T: Numbered>(parts: &mut [T])
    ensures { map T.meaning parts.new ≡ first_put T.key (map T.meaning parts.old) }
{
    let Some((first, others)) = parts.split_first() else {
        return;
    };
    let less = place_for(others, first.number());
    parts[..=less].rotate_left(1);
}

/// How many stand before the first whose id is not less.
fn place_for<T: Numbered>(parts: &[T], id: u64) -> usize
    ensures within { result ≤ length parts.now }
    ensures value { result ≡ place_for T.key id (map T.meaning parts.now) }
{
    for (place, part) in parts.iter().enumerate() {
        if id <= part.number() {
            return place;
        }
    }
    parts.len()
}
