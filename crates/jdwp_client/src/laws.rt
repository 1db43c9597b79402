//! Laws: each function says what holds, in its contract, and does nothing; to call it is to cite it.

use crate::client::Client;
use jdwp_end::Pipe;

impl<P: Pipe> Client<P> {
    ghost use Rattle.std.specs.Prelude.{Bool, List, ℕ};
    ghost use Rattle.jdwp_debugger.specs.DebuggerTurns.{Told};
    ghost use Rattle.jdwp_client.specs.Exact.{KeepsExact};
    ghost use Rattle.jdwp_client.specs.Clients as clients;
    ghost use Rattle.jdwp_client.specs.Clients.{KeepsTold, Waits};
    ghost use Rattle.jdwp_client.specs.Tickets.{KeepsGiven};

    /// What turns told in a wait is kept, each once and in order, behind what was kept before, until it is handed out.
    pub fn keeps_what_is_told()
        ensures { (is_missing : clients.Client P → Bool) (base new : clients.Client P)
            (n : ℕ) (told : List Told) → Waits P.story is_missing base n told new → KeepsTold base told new }
    {}

    /// In a session of a client its debugger is fed what is read, all of it and in order, and what it puts is written, in order, or where a write
    /// fails a beginning of that; and before each read all that was written has left.
    pub fn keeps_what_went_through()
        ensures { KeepsExact P.story }
    {}

    /// In a session of a client each answer that is kept is under a ticket that was given, and so none is under one that was not given yet: the
    /// answer that `ask` gives was told behind the command that it sent.
    pub fn keeps_answers_of_given_tickets()
        ensures { KeepsGiven P.story }
    {}
}
