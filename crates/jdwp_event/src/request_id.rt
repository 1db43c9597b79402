//! The ids of event requests (JDWP specification, "EventRequest": Set).
ghost use Rattle.std.specs.Prelude.{◌≡◌, ◌≤◌, ◌↔◌, IsSome, IfSome};
ghost use Rattle.jdwp_wire.specs.Numbers.{greatest_int};

use jdwp_wire::number::GREATEST_INT;
use std::marker::Model;

/// The id of an event request, 0 to 2,147,483,647: an int on the wire that is not below 0.
#[derive(Clone, Copy, Debug, PartialEq, Eq)]
pub struct RequestId(u32);

impl Model for RequestId {
    ghost use Rattle.std.specs.Prelude.{ℕ, ◌≤◌};
    ghost use Rattle.jdwp_wire.specs.Numbers.{greatest_int};

    ghost Value = { ℕ };

    ghost view = { λ id. id.0 };

    ghost invariant = { λ id. id.0 ≤ greatest_int };

    ghost inverse = { λ n. record { 0 = n } };
}

impl RequestId {
    /// The id of this number; None where it is above 2,147,483,647.
    pub fn new(number: u32) -> Option<RequestId>
        ensures some { IsSome result ↔ (number ≤ greatest_int) }
        ensures same { IfSome result (λ id. id ≡ number) }
    {
        if number <= GREATEST_INT {
            Some(RequestId(number))
        } else {
            None
        }
    }

    /// Its number, 0 to 2,147,483,647.
    pub fn number(self) -> u32
        ensures value { result ≡ self }
        ensures within { result ≤ greatest_int }
    {
        self.0
    }
}
