//! Faults in words, by the numbers that programs print.
ghost use Rattle.std.specs.Prelude.{◌≡◌, option_map};
ghost use Rattle.jdwp_layout.specs.Rows.{look_up};
ghost use Rattle.milunovesk_c.specs.Names as names;

/// What the fault of this number is; None where there is no such fault.
pub(crate) fn fault_text(number: u16) -> Option<&'static str>
    ensures { option_map (λ text. text.now) result ≡ names.fault_text number }
{
    if let Some(text) = of_bytes(number) {
        return Some(text);
    }
    of_sessions(number)
}

/// Those of packets, of data and of scripts.
fn of_bytes(number: u16) -> Option<&'static str>
    ensures { option_map (λ text. text.now) result ≡ look_up number names.byte_faults }
{
    match number {
        1 => Some("a packet length below 11"),
        2 => Some("a packet length above the limit"),
        3 => Some("packet flags other than 00 and 80"),
        4 => Some("not the handshake"),
        11 => Some("too few bytes"),
        12 => Some("bytes are left over"),
        13 => Some("a bad tag"),
        14 => Some("a negative count"),
        15 => Some("a string is not UTF-8"),
        16 => Some("a width that is not 1 to 8"),
        21 => Some("the text is not JSON"),
        22 => Some("a member is missing or of another type"),
        23 => Some("an id stands twice"),
        24 => Some("an id is too wide"),
        25 => Some("a bad reference"),
        26 => Some("a limit is passed"),
        _ => None,
    }
}

/// Those of a debugger and of captures.
fn of_sessions(number: u16) -> Option<&'static str>
    ensures { option_map (λ text. text.now) result ≡ look_up number names.session_faults }
{
    match number {
        31 => Some("the widths of ids are not known yet"),
        32 => Some("too much waits"),
        33 => Some("the session is closed"),
        34 => Some("a command longer than a packet may be"),
        36 => Some("a command that no target has, or data that do not read in its layout"),
        41 => Some("no message begins so"),
        42 => Some("a reply to no command that waits"),
        43 => Some("a reply whose data do not read, or an error reply with data"),
        44 => Some("more composites than may wait for the widths of ids"),
        45 => Some("events that don't fit the suspend counts known, or another command"),
        46 => Some("no memory"),
        51 => Some("not a line of a capture"),
        53 => Some("the id of a command that waits for its reply"),
        54 => Some("a reply to no command"),
        55 => Some("data in a reply with an error"),
        56 => Some("a message of the other end"),
        _ => None,
    }
}
