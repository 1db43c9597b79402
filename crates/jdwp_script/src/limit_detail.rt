//! Which limit a script passes, and where.
use crate::detail::{Cause, Detail, Path};
use crate::judge::first_bad;
use crate::limits::{
    ELEMENT_LIMIT, LIST_LIMIT, PART_LIMIT, PassesLimit, STEP_LIMIT, STRING_LIMIT, TEXT_LIMIT,
    is_deep, is_string_long,
};
use crate::member::Member;
use crate::script::{Class, Method, Object, Script, Thread};

/// Which limit the script passes first, and where, if `live` threads may live at the beginning and it passes one.
pub(crate) fn limit_detail(script: &Script, live: usize) -> Detail {
    let root = Path::ROOT;
    let long = Cause::Long(TEXT_LIMIT);
    if script.name.len() > TEXT_LIMIT {
        Detail::of(long)
    } else if let Some(list) = long_list(script) {
        Detail::of(Cause::Many(list, PART_LIMIT))
    } else if let Some(place) = first_bad(&PassesLimit, &script.groups) {
        Detail {
            cause: long,
            path: root.to(Member::Groups, place),
        }
    } else if let Some(place) = first_bad(&PassesLimit, &script.classes) {
        class_detail(&script.classes[place], root.to(Member::Classes, place))
    } else if let Some(place) = first_bad(&PassesLimit, &script.objects) {
        Detail {
            cause: object_cause(&script.objects[place]),
            path: root.to(Member::Objects, place),
        }
    } else if let Some(place) = first_bad(&PassesLimit, &script.threads) {
        thread_detail(&script.threads[place], root.to(Member::Threads, place))
    } else if let Some(place) = first_bad(&PassesLimit, &script.modules) {
        Detail {
            cause: long,
            path: root.to(Member::Modules, place),
        }
    } else {
        Detail::of(Cause::Living(live))
    }
}

/// The first list of the script that has too many entries.
fn long_list(script: &Script) -> Option<Member> {
    if script.groups.len() > PART_LIMIT {
        Some(Member::Groups)
    } else if script.classes.len() > PART_LIMIT {
        Some(Member::Classes)
    } else if script.objects.len() > PART_LIMIT {
        Some(Member::Objects)
    } else if script.threads.len() > PART_LIMIT {
        Some(Member::Threads)
    } else if script.modules.len() > PART_LIMIT {
        Some(Member::Modules)
    } else {
        None
    }
}

/// Which limit a class passes.
fn class_detail(class: &Class, path: Path) -> Detail {
    let many = if class.interfaces.len() > LIST_LIMIT {
        Some(Member::Interfaces)
    } else if class.fields.len() > LIST_LIMIT {
        Some(Member::Fields)
    } else if class.methods.len() > LIST_LIMIT {
        Some(Member::Methods)
    } else {
        None
    };
    if let Some(list) = many {
        let cause = Cause::Many(list, LIST_LIMIT);
        return Detail { cause, path };
    }
    if let Some(place) = first_bad(&PassesLimit, &class.fields) {
        return Detail {
            cause: Cause::Long(TEXT_LIMIT),
            path: path.to(Member::Fields, place),
        };
    }
    if let Some(place) = first_bad(&PassesLimit, &class.methods) {
        return method_detail(&class.methods[place], path.to(Member::Methods, place));
    }
    Detail {
        cause: Cause::Long(TEXT_LIMIT),
        path,
    }
}

/// Which limit a method passes.
fn method_detail(method: &Method, path: Path) -> Detail {
    if method.lines.len() > LIST_LIMIT {
        let cause = Cause::Many(Member::Lines, LIST_LIMIT);
        return Detail { cause, path };
    }
    if method.slots.len() > LIST_LIMIT {
        let cause = Cause::Many(Member::Slots, LIST_LIMIT);
        return Detail { cause, path };
    }
    let path = match first_bad(&PassesLimit, &method.slots) {
        Some(place) => path.to(Member::Slots, place),
        None => path,
    };
    Detail {
        cause: Cause::Long(TEXT_LIMIT),
        path,
    }
}

/// Which limit an object passes.
fn object_cause(object: &Object) -> Cause {
    if object.fields.len() > LIST_LIMIT {
        Cause::Many(Member::Fields, LIST_LIMIT)
    } else if is_string_long(object) {
        Cause::Long(STRING_LIMIT)
    } else {
        Cause::Many(Member::Array, ELEMENT_LIMIT)
    }
}

/// Which limit a thread passes.
fn thread_detail(thread: &Thread, path: Path) -> Detail {
    if thread.steps.len() > STEP_LIMIT {
        let cause = Cause::Many(Member::Steps, STEP_LIMIT);
        return Detail { cause, path };
    }
    if let Some(place) = first_bad(&PassesLimit, &thread.steps) {
        return Detail {
            cause: Cause::Many(Member::Slots, LIST_LIMIT),
            path: path.to(Member::Steps, place),
        };
    }
    let cause = if is_deep(&thread.steps) {
        Cause::Deep(LIST_LIMIT)
    } else {
        Cause::Long(TEXT_LIMIT)
    };
    Detail { cause, path }
}
