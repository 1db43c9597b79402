//! What a target is made with.
ghost use Rattle.std.specs.Prelude.{◌≡◌, ◌↔◌, IsSome, IfSome};
ghost use Rattle.jdwp_debuggee.specs.Settings.{IsCountLimit};
ghost use Rattle.jdwp_target.specs.Options.{settings_at};

use jdwp_debuggee::Settings;
use jdwp_machine::Profile;
use jdwp_wire::Limits;
use jdwp_wire::number::GREATEST_INT;
use std::marker::Model;

/// Whether all threads begin suspended, the greatest suspend count that a Suspend gives, and the profile.
#[derive(Clone, Copy, Debug, PartialEq, Eq)]
pub struct TargetOptions {
    start_all: bool,
    count_limit: u32,
    profile: Profile,
}

impl Model for TargetOptions {
    ghost use Rattle.jdwp_debuggee.specs.Settings.{IsCountLimit};
    ghost use Rattle.jdwp_target.specs.Options as spec;

    ghost Value = { spec.TargetOptions };

    ghost view = { λ o. record { start_all = o.start_all; count_limit = o.count_limit; profile = o.profile } };

    ghost invariant = { λ o. IsCountLimit o.count_limit };

    ghost inverse = { λ o. record { start_all = o.start_all; count_limit = o.count_limit; profile = o.profile } };
}

impl TargetOptions {
    /// These options, in the standard profile: VM_START suspends all threads where `start_all`, else none; no Suspend raises a count above
    /// `count_limit`.
    ///
    /// None exactly where the limit is outside 1 to 2,147,483,647.
    pub fn new(start_all: bool, count_limit: u32) -> Option<TargetOptions>
        ensures some { IsSome result ↔ IsCountLimit count_limit }
        ensures same { IfSome result (λ o.
            o ≡ record {
              start_all = start_all;
              count_limit = count_limit;
              profile = Profile.Standard;
            }) }
    {
        if count_limit < 1 || count_limit > GREATEST_INT {
            return None;
        }
        Some(TargetOptions {
            start_all,
            count_limit,
            profile: Profile::Standard,
        })
    }

    /// The same options in this profile.
    pub fn with_profile(self, profile: Profile) -> TargetOptions
        ensures { result ≡ record self { profile = profile } }
    {
        TargetOptions {
            start_all: self.start_all,
            count_limit: self.count_limit,
            profile,
        }
    }

    /// The settings that these options stand for, within these limits.
    pub fn settings(&self, limits: Limits) -> Settings
        ensures { result ≡ settings_at limits self.now }
    {
        match Settings::new(self.start_all, self.count_limit, limits) {
            Some(settings) => settings.with_profile(self.profile),
            None => unreachable!(),
        }
    }
}
