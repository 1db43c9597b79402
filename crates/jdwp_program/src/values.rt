//! The values of options.
ghost use Rattle.std.specs.Prelude.{◌≡◌, ◌↔◌, ℕ, List, Some, IfSome, MatchOption, true, false, codes};
ghost use Rattle.jdwp_debugger.specs.declared.order.Order.TheVariants as orders;
ghost use Rattle.jdwp_machine.specs.declared.profile.Profile.TheVariants as profiles;
ghost use Rattle.jdwp_show.specs.declared.table.Table.TheVariants as tables;
ghost use Rattle.jdwp_wire.specs.Limits as wire;
ghost use Rattle.jdwp_program.specs.Values.{AreNumbers, IsDecimal, IsPartedByComma, IsSaidBy};

use jdwp_debugger::Order;
use jdwp_machine::Profile;
use jdwp_show::Table;
use jdwp_wire::Limits;

/// Whether a target starts with every thread suspended: `all`, or `none`.
pub fn is_all(text: &str) -> Option<bool>
    ensures all { (result ≡ Some true) ↔ (text.now ≡ codes "all") }
    ensures none { (result ≡ Some false) ↔ (text.now ≡ codes "none") }
{
    if text == "all" {
        Some(true)
    } else if text == "none" {
        Some(false)
    } else {
        None
    }
}

/// In which order a target sends replies and events: `one`, as it acts, or `apart`, by threads of their own.
pub fn order(text: &str) -> Option<Order>
    ensures one { (result ≡ Some orders.One) ↔ (text.now ≡ codes "one") }
    ensures apart { (result ≡ Some orders.Apart) ↔ (text.now ≡ codes "apart") }
{
    if text == "one" {
        Some(Order::One)
    } else if text == "apart" {
        Some(Order::Apart)
    } else {
        None
    }
}

/// The profile of a target: `standard`, or `jdi` for debuggers over the Java Debug Interface.
pub fn profile(text: &str) -> Option<Profile>
    ensures standard { (result ≡ Some profiles.Standard) ↔ (text.now ≡ codes "standard") }
    ensures jdi { (result ≡ Some profiles.Jdi) ↔ (text.now ≡ codes "jdi") }
{
    if text == "standard" {
        Some(Profile::Standard)
    } else if text == "jdi" {
        Some(Profile::Jdi)
    } else {
        None
    }
}

/// The table of commands by which the data of a session are read whose target has this profile.
pub fn table_of(profile: Profile) -> Table
    ensures standard { (result ≡ tables.Standard) ↔ (profile ≡ profiles.Standard) }
    ensures jdi { (result ≡ tables.Jdi) ↔ (profile ≡ profiles.Jdi) }
{
    match profile {
        Profile::Standard => Table::Standard,
        Profile::Jdi => Table::Jdi,
    }
}

/// A decimal number below 2^32, of digits alone.
pub fn decimal(text: &str) -> Option<u32>
    ensures { (number : ℕ) → (result ≡ Some number) ↔ IsDecimal text.now number }
{
    if text.as_bytes().first() == Some(&b'+') {
        return None;
    }
    text.parse::<u32>().ok()
}

/// The limits of a session that four numbers say, in decimal with a comma between each two: the most bytes of a packet, and how many live
/// threads, event requests and commands that wait there may be. None where the text is something else, or these are no limits.
pub fn limits(text: &str) -> Option<Limits>
    ensures { (limits : wire.Limits) → (result ≡ Some limits) ↔ IsSaidBy text.now limits }
{
    let (packet, others) = parted(text)?;
    let (live, others) = parted(others)?;
    let (requests, pending) = parted(others)?;
    of_numbers(packet, live, requests, pending)
}

/// What stands before the first comma of a text, and what behind it; None where it has none.
fn parted(text: &str) -> Option<(&str, &str)>
    ensures some { IfSome result (λ parts. IsPartedByComma text.now parts.0.now parts.1.now) }
    ensures only { (before behind : List ℕ) → IsPartedByComma text.now before behind
        → MatchOption result ⊥ (λ parts. (parts.0.now ≡ before) × (parts.1.now ≡ behind)) }
{
    text.split_once(',')
}

/// The limits that these numbers are.
fn of_numbers(packet: &str, live: &str, requests: &str, pending: &str) -> Option<Limits>
    ensures { (limits : wire.Limits) → (result ≡ Some limits)
        ↔ AreNumbers packet.now live.now requests.now pending.now limits }
{
    Limits::new(
        decimal(packet)?,
        decimal(live)?,
        decimal(requests)?,
        decimal(pending)?,
    )
}
