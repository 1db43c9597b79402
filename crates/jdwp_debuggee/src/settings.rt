//! What a debuggee is made with.
ghost use Rattle.std.specs.Prelude.{◌≡◌, ◌↔◌, IsSome, IfSome};
ghost use Rattle.jdwp_debuggee.specs.Settings.{IsCountLimit};

use jdwp_machine::Profile;
use jdwp_wire::Limits;
use jdwp_wire::number::GREATEST_INT;
use std::marker::Model;

/// Whether all threads begin suspended, the greatest suspend count that a Suspend gives, how much a session may hold, and the profile.
#[derive(Clone, Copy, Debug, PartialEq, Eq)]
pub struct Settings {
    start_all: bool,
    count_limit: u32,
    limits: Limits,
    profile: Profile,
}

impl Model for Settings {
    ghost use Rattle.jdwp_debuggee.specs.Settings as spec;

    ghost Value = { spec.Settings };

    ghost view = { λ s. record { start_all = s.start_all; count_limit = s.count_limit; limits = s.limits; profile = s.profile } };

    ghost invariant = { λ s. spec.IsCountLimit s.count_limit };

    ghost inverse = { λ s. record { start_all = s.start_all; count_limit = s.count_limit; limits = s.limits; profile = s.profile } };
}

impl Settings {
    /// These settings, in the standard profile: VM_START suspends all threads where `start_all`, else none; no Suspend raises a count above
    /// `count_limit`.
    ///
    /// None exactly where the limit is outside 1 to 2,147,483,647.
    pub fn new(start_all: bool, count_limit: u32, limits: Limits) -> Option<Settings>
        ensures some { IsSome result ↔ IsCountLimit count_limit }
        ensures same { IfSome result (λ s.
            s ≡ record {
              start_all = start_all;
              count_limit = count_limit;
              limits = limits;
              profile = Profile.Standard;
            }) }
    {
        if count_limit < 1 || count_limit > GREATEST_INT {
            return None;
        }
        Some(Settings {
            start_all,
            count_limit,
            limits,
            profile: Profile::Standard,
        })
    }

    /// The same settings in this profile.
    pub fn with_profile(self, profile: Profile) -> Settings
        ensures { result ≡ record self { profile = profile } }
    {
        Settings {
            start_all: self.start_all,
            count_limit: self.count_limit,
            limits: self.limits,
            profile,
        }
    }

    /// Whether VM_START suspends all threads.
    pub fn start_all(&self) -> bool
        ensures { result ≡ self.now.start_all }
    {
        self.start_all
    }

    /// The greatest suspend count that a Suspend gives.
    pub fn count_limit(&self) -> u32
        ensures value { result ≡ self.now.count_limit }
        ensures within { IsCountLimit result }
    {
        self.count_limit
    }

    /// The profile.
    pub fn profile(&self) -> Profile
        ensures { result ≡ self.now.profile }
    {
        self.profile
    }

    /// How much a session may hold.
    pub fn limits(&self) -> Limits
        ensures { result ≡ self.now.limits }
    {
        self.limits
    }
}
