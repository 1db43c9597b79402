//! What a target says that it can do (JDWP specification, "VirtualMachine": Capabilities and CapabilitiesNew).
ghost use Rattle.std.specs.Prelude.{◌≡◌, [], ◌∷◌, IfSome, length, refl, replicate};
ghost use Rattle.jdwp_layout.specs.Grammar.{kind_of};
ghost use Rattle.jdwp_layout.specs.declared.item.Field.TheVariants as held;
ghost use Rattle.jdwp_layout.specs.Meanings.{Boolean, entry_meaning, scalar_meaning};
ghost use Rattle.jdwp_answer.specs.Shaped.{Converted, HasFields, booleans, one_each, ones};
ghost use Rattle.jdwp_answer.specs.ShapedLaws.{booleans_fit};
ghost use Rattle.jdwp_answer.specs.Truths.{new_truths};

use crate::fields::{Record, record_of};
use crate::reply::Reply;
use crate::table::reply_of;
use jdwp_layout::numbers::{CAPABILITIES, CAPABILITIES_NEW, VIRTUAL_MACHINE};
use jdwp_layout::{Datum, Layout, Scalar};
use jdwp_wire::NoMemory;
use std::alloc::Global;

/// What Capabilities is answered: whether the target can do each of these.
#[derive(Clone, Copy, Debug, PartialEq, Eq)]
pub struct Capabilities {
    /// A change of a field's value can be reported.
    pub can_watch_field_modification: bool,
    /// A read of a field's value can be reported.
    pub can_watch_field_access: bool,
    /// Method.Bytecodes is answered.
    pub can_get_bytecodes: bool,
    /// Fields and methods tell whether the compiler made them.
    pub can_get_synthetic_attribute: bool,
    /// ThreadReference.OwnedMonitors is answered.
    pub can_get_owned_monitor_info: bool,
    /// ThreadReference.CurrentContendedMonitor is answered.
    pub can_get_current_contended_monitor: bool,
    /// ObjectReference.MonitorInfo is answered.
    pub can_get_monitor_info: bool,
}

impl Record for Capabilities {
    ghost kinds = { replicate 7 held.Boolean };

    ghost fields = { λ c. booleans (c.can_watch_field_modification ∷ c.can_watch_field_access ∷ c.can_get_bytecodes ∷ c.can_get_synthetic_attribute ∷ c.can_get_owned_monitor_info ∷ c.can_get_current_contended_monitor ∷ c.can_get_monitor_info ∷ []) };

    fn of_fields(_alloc: Global, scalars: Vec<Scalar>) -> Option<Capabilities> {
        let [
            can_watch_field_modification,
            can_watch_field_access,
            can_get_bytecodes,
            can_get_synthetic_attribute,
            can_get_owned_monitor_info,
            can_get_current_contended_monitor,
            can_get_monitor_info,
        ] = truths_of::<7>(scalars)?;
        Some(Capabilities {
            can_watch_field_modification,
            can_watch_field_access,
            can_get_bytecodes,
            can_get_synthetic_attribute,
            can_get_owned_monitor_info,
            can_get_current_contended_monitor,
            can_get_monitor_info,
        })
    }

    ghost has = { λ c. refl };
}

impl Reply for Capabilities {
    ghost shape = { one_each (replicate 7 held.Boolean) };

    ghost says = { λ c. ones (booleans (c.can_watch_field_modification ∷ c.can_watch_field_access ∷ c.can_get_bytecodes ∷ c.can_get_synthetic_attribute ∷ c.can_get_owned_monitor_info ∷ c.can_get_current_contended_monitor ∷ c.can_get_monitor_info ∷ [])) };

    fn layout() -> &'static Layout {
        reply_of(VIRTUAL_MACHINE, CAPABILITIES)
    }

    fn of_items(alloc: Global, items: Vec<Datum>) -> Result<Option<Capabilities>, NoMemory> {
        record_of::<Capabilities>(alloc, items)
    }

    ghost fits = { λ c. booleans_fit (c.can_watch_field_modification ∷ c.can_watch_field_access ∷ c.can_get_bytecodes ∷ c.can_get_synthetic_attribute ∷ c.can_get_owned_monitor_info ∷ c.can_get_current_contended_monitor ∷ c.can_get_monitor_info ∷ []) };
}

/// What CapabilitiesNew is answered: whether the target can do each of these.
#[derive(Clone, Copy, Debug, PartialEq, Eq)]
pub struct CapabilitiesNew {
    /// A change of a field's value can be reported.
    pub can_watch_field_modification: bool,
    /// A read of a field's value can be reported.
    pub can_watch_field_access: bool,
    /// Method.Bytecodes is answered.
    pub can_get_bytecodes: bool,
    /// Fields and methods tell whether the compiler made them.
    pub can_get_synthetic_attribute: bool,
    /// ThreadReference.OwnedMonitors is answered.
    pub can_get_owned_monitor_info: bool,
    /// ThreadReference.CurrentContendedMonitor is answered.
    pub can_get_current_contended_monitor: bool,
    /// ObjectReference.MonitorInfo is answered.
    pub can_get_monitor_info: bool,
    /// VirtualMachine.RedefineClasses is answered.
    pub can_redefine_classes: bool,
    /// A class that is redefined may get methods.
    pub can_add_method: bool,
    /// A class may be redefined in any way.
    pub can_unrestrictedly_redefine_classes: bool,
    /// StackFrame.PopFrames is answered.
    pub can_pop_frames: bool,
    /// Requests of events may name an instance.
    pub can_use_instance_filters: bool,
    /// ReferenceType.SourceDebugExtension is answered.
    pub can_get_source_debug_extension: bool,
    /// VM_DEATH may be requested.
    pub can_request_vm_death_event: bool,
    /// VirtualMachine.SetDefaultStratum is answered.
    pub can_set_default_stratum: bool,
    /// VirtualMachine.InstanceCounts and what asks for instances and referrers are answered.
    pub can_get_instance_info: bool,
    /// Events of monitors may be requested.
    pub can_request_monitor_events: bool,
    /// ThreadReference.OwnedMonitorsStackDepthInfo is answered.
    pub can_get_monitor_frame_info: bool,
    /// Requests of events may name a source file.
    pub can_use_source_name_filters: bool,
    /// ReferenceType.ConstantPool is answered.
    pub can_get_constant_pool: bool,
    /// ThreadReference.ForceEarlyReturn is answered.
    pub can_force_early_return: bool,
    /// Kept for later versions of the protocol.
    pub reserved22: bool,
    /// Kept for later versions of the protocol.
    pub reserved23: bool,
    /// Kept for later versions of the protocol.
    pub reserved24: bool,
    /// Kept for later versions of the protocol.
    pub reserved25: bool,
    /// Kept for later versions of the protocol.
    pub reserved26: bool,
    /// Kept for later versions of the protocol.
    pub reserved27: bool,
    /// Kept for later versions of the protocol.
    pub reserved28: bool,
    /// Kept for later versions of the protocol.
    pub reserved29: bool,
    /// Kept for later versions of the protocol.
    pub reserved30: bool,
    /// Kept for later versions of the protocol.
    pub reserved31: bool,
    /// Kept for later versions of the protocol.
    pub reserved32: bool,
}

impl Record for CapabilitiesNew {
    ghost kinds = { replicate 32 held.Boolean };

    ghost fields = { λ c. booleans (new_truths c) };

    fn of_fields(_alloc: Global, scalars: Vec<Scalar>) -> Option<CapabilitiesNew> {
        match truths_of::<32>(scalars) {
            Some(truths) => Some(new_of(truths)),
            None => None,
        }
    }

    ghost has = { λ c. refl };
}

impl Reply for CapabilitiesNew {
    ghost shape = { one_each (replicate 32 held.Boolean) };

    ghost says = { λ c. ones (booleans (new_truths c)) };

    fn layout() -> &'static Layout {
        reply_of(VIRTUAL_MACHINE, CAPABILITIES_NEW)
    }

    fn of_items(alloc: Global, items: Vec<Datum>) -> Result<Option<CapabilitiesNew>, NoMemory> {
        record_of::<CapabilitiesNew>(alloc, items)
    }

    ghost fits = { λ c. booleans_fit (new_truths c) };
}

/// What 32 truths say, in order.
fn new_of(truths: [bool; 32]) -> CapabilitiesNew
    requires { length truths ≡ 32 }
    ensures { new_truths result ≡ truths }
{
    let [
        can_watch_field_modification,
        can_watch_field_access,
        can_get_bytecodes,
        can_get_synthetic_attribute,
        can_get_owned_monitor_info,
        can_get_current_contended_monitor,
        can_get_monitor_info,
        can_redefine_classes,
        can_add_method,
        can_unrestrictedly_redefine_classes,
        can_pop_frames,
        can_use_instance_filters,
        can_get_source_debug_extension,
        can_request_vm_death_event,
        can_set_default_stratum,
        can_get_instance_info,
        can_request_monitor_events,
        can_get_monitor_frame_info,
        can_use_source_name_filters,
        can_get_constant_pool,
        can_force_early_return,
        reserved22,
        reserved23,
        reserved24,
        reserved25,
        reserved26,
        reserved27,
        reserved28,
        reserved29,
        reserved30,
        reserved31,
        reserved32,
    ] = truths;
    CapabilitiesNew {
        can_watch_field_modification,
        can_watch_field_access,
        can_get_bytecodes,
        can_get_synthetic_attribute,
        can_get_owned_monitor_info,
        can_get_current_contended_monitor,
        can_get_monitor_info,
        can_redefine_classes,
        can_add_method,
        can_unrestrictedly_redefine_classes,
        can_pop_frames,
        can_use_instance_filters,
        can_get_source_debug_extension,
        can_request_vm_death_event,
        can_set_default_stratum,
        can_get_instance_info,
        can_request_monitor_events,
        can_get_monitor_frame_info,
        can_use_source_name_filters,
        can_get_constant_pool,
        can_force_early_return,
        reserved22,
        reserved23,
        reserved24,
        reserved25,
        reserved26,
        reserved27,
        reserved28,
        reserved29,
        reserved30,
        reserved31,
        reserved32,
    }
}

/// The truths that so many booleans are; None where there are not so many, or one is something else.
fn truths_of<const N: usize>(scalars: Vec<Scalar>) -> Option<[bool; N]>
    ensures value { Converted booleans (HasFields (replicate N held.Boolean)) (entry_meaning scalars)
        result }
    ensures many { IfSome result (λ truths. length truths ≡ N) }
{
    if scalars.len() != N {
        return None;
    }
    let mut truths = [false; N];
    for (place, scalar) in scalars.iter().enumerate() {
        match truth_of(scalar) {
            Some(truth) => truths[place] = truth,
            None => return None,
        }
    }
    Some(truths)
}

/// The truth that a boolean is; None where the value is something else.
fn truth_of(scalar: &Scalar) -> Option<bool>
    ensures { Converted (λ b. Boolean b) (λ x. kind_of x ≡ held.Boolean) (scalar_meaning scalar.now)
        result }
{
    match scalar {
        Scalar::Boolean(truth) => Some(*truth),
        _ => None,
    }
}
