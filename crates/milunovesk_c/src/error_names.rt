//! The names of error codes (JDWP specification, "Error Constants").
ghost use Rattle.std.specs.Prelude.{◌≡◌, option_map};
ghost use Rattle.jdwp_layout.specs.Rows.{look_up};
ghost use Rattle.milunovesk_c.specs.Names as names;

/// The name of an error code; None where the specification has no such code.
pub(crate) fn error_name(code: u16) -> Option<&'static str>
    ensures { option_map (λ name. name.now) result ≡ names.error_name code }
{
    if let Some(name) = of_ids(code) {
        return Some(name);
    }
    if let Some(name) = of_classes(code) {
        return Some(name);
    }
    if let Some(name) = of_machine(code) {
        return Some(name);
    }
    of_values(code)
}

/// Those of what a command names.
fn of_ids(code: u16) -> Option<&'static str>
    ensures { option_map (λ name. name.now) result ≡ look_up code names.id_errors }
{
    match code {
        0 => Some("NONE"),
        10 => Some("INVALID_THREAD"),
        11 => Some("INVALID_THREAD_GROUP"),
        12 => Some("INVALID_PRIORITY"),
        13 => Some("THREAD_NOT_SUSPENDED"),
        14 => Some("THREAD_SUSPENDED"),
        15 => Some("THREAD_NOT_ALIVE"),
        20 => Some("INVALID_OBJECT"),
        21 => Some("INVALID_CLASS"),
        22 => Some("CLASS_NOT_PREPARED"),
        23 => Some("INVALID_METHODID"),
        24 => Some("INVALID_LOCATION"),
        25 => Some("INVALID_FIELDID"),
        30 => Some("INVALID_FRAMEID"),
        31 => Some("NO_MORE_FRAMES"),
        32 => Some("OPAQUE_FRAME"),
        33 => Some("NOT_CURRENT_FRAME"),
        34 => Some("TYPE_MISMATCH"),
        35 => Some("INVALID_SLOT"),
        40 => Some("DUPLICATE"),
        41 => Some("NOT_FOUND"),
        42 => Some("INVALID_MODULE"),
        _ => None,
    }
}

/// Those of monitors and classes.
fn of_classes(code: u16) -> Option<&'static str>
    ensures { option_map (λ name. name.now) result ≡ look_up code names.class_errors }
{
    match code {
        50 => Some("INVALID_MONITOR"),
        51 => Some("NOT_MONITOR_OWNER"),
        52 => Some("INTERRUPT"),
        60 => Some("INVALID_CLASS_FORMAT"),
        61 => Some("CIRCULAR_CLASS_DEFINITION"),
        62 => Some("FAILS_VERIFICATION"),
        63 => Some("ADD_METHOD_NOT_IMPLEMENTED"),
        64 => Some("SCHEMA_CHANGE_NOT_IMPLEMENTED"),
        65 => Some("INVALID_TYPESTATE"),
        66 => Some("HIERARCHY_CHANGE_NOT_IMPLEMENTED"),
        67 => Some("DELETE_METHOD_NOT_IMPLEMENTED"),
        68 => Some("UNSUPPORTED_VERSION"),
        69 => Some("NAMES_DONT_MATCH"),
        70 => Some("CLASS_MODIFIERS_CHANGE_NOT_IMPLEMENTED"),
        71 => Some("METHOD_MODIFIERS_CHANGE_NOT_IMPLEMENTED"),
        72 => Some("CLASS_ATTRIBUTE_CHANGE_NOT_IMPLEMENTED"),
        _ => None,
    }
}

/// Those of the machine and its threads.
fn of_machine(code: u16) -> Option<&'static str>
    ensures { option_map (λ name. name.now) result ≡ look_up code names.machine_errors }
{
    match code {
        99 => Some("NOT_IMPLEMENTED"),
        100 => Some("NULL_POINTER"),
        101 => Some("ABSENT_INFORMATION"),
        102 => Some("INVALID_EVENT_TYPE"),
        103 => Some("ILLEGAL_ARGUMENT"),
        110 => Some("OUT_OF_MEMORY"),
        111 => Some("ACCESS_DENIED"),
        112 => Some("VM_DEAD"),
        113 => Some("INTERNAL"),
        115 => Some("UNATTACHED_THREAD"),
        _ => None,
    }
}

/// Those of values and of what is sent.
fn of_values(code: u16) -> Option<&'static str>
    ensures { option_map (λ name. name.now) result ≡ look_up code names.value_errors }
{
    match code {
        500 => Some("INVALID_TAG"),
        502 => Some("ALREADY_INVOKING"),
        503 => Some("INVALID_INDEX"),
        504 => Some("INVALID_LENGTH"),
        506 => Some("INVALID_STRING"),
        507 => Some("INVALID_CLASS_LOADER"),
        508 => Some("INVALID_ARRAY"),
        509 => Some("TRANSPORT_LOAD"),
        510 => Some("TRANSPORT_INIT"),
        511 => Some("NATIVE_METHOD"),
        512 => Some("INVALID_COUNT"),
        _ => None,
    }
}
