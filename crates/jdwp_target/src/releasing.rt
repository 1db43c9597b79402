//! Replies that a target over any machine defers.
ghost use Rattle.std.specs.Prelude.{◌≡◌, ◌≤◌, length, IfOk};
ghost use Rattle.jdwp_debuggee.specs.Deferring.{MOST_DEFERRED};
ghost use Rattle.jdwp_target.specs.Targets.{with_deferring};
ghost use Rattle.jdwp_target.specs.Turns.{EncodesReleased, ReleasesAt, SendsReleased, deferred_at};

use crate::target::{Target, TargetFault, Turn};
use crate::turning::{error_of, fits_reply, handle_command, reply};
use jdwp_machine::Machine;

impl<M: Machine + Drop> Target<M> {
    /// From now on a turn defers the reply to a command of the sets ReferenceType and Method, whatever its number and its data, while
    /// fewer than 16 are deferred; or it answers each at once, as a new target does. What is deferred stays so, and a loss leaves the
    /// choice as it is. It takes no memory.
    pub fn set_deferring(&mut self, deferring: bool)
        ensures { self.new ≡ with_deferring deferring self.old }
    {
        self.deferral.set_on(deferring);
    }

    /// How many commands wait for replies that are deferred, 0 to 16.
    pub fn deferred(&self) -> usize
        ensures count { result ≡ length self.now.deferred }
        ensures bound { result ≤ MOST_DEFERRED }
    {
        self.deferral.len()
    }

    /// Answers the deferred command at this place, 0 for the oldest, as a turn would answer it now; those behind it move up by one place.
    /// `Nothing`, and nothing changes, exactly where no session is established, the end is paused, or no command is deferred at that
    /// place. What it is answered is encoded by the bytes that are sent, and each packet that is sent is within the limit.
    ///
    /// # Errors
    /// `NoMemory` where an allocation was refused, which only commands call for where the debuggee may want memory as it stands, as at a
    /// turn. Then nothing has changed.
    pub fn release(&mut self, place: usize) -> Result<Turn, TargetFault>
        ensures releases { ReleasesAt M.meaning place (deferred_at place self.old) self.old result
            self.new }
        ensures encoded { IfOk result (λ _.
            EncodesReleased M.meaning (deferred_at place self.old) self.old) }
        ensures packets { IfOk result (λ _.
            SendsReleased M.meaning place (deferred_at place self.old) self.old) }
    {
        if !self.end.is_established() || self.end.is_paused() || place >= self.deferral.len() {
            return Ok(Turn::Nothing);
        }
        let sizes = self.debuggee.sizes();
        let command = self.deferral.command(place);
        let id = command.id;
        let done = handle_command(
            &mut self.debuggee,
            self.alloc,
            command.set,
            command.number,
            &sizes,
            &command.body,
        )?;
        fits_reply(id, &done, &sizes, &self.debuggee);
        reply(id, &done, &sizes, &mut self.debuggee, &mut self.end);
        self.deferral.remove(place);
        self.deferral.keep_where(self.end.is_established());
        Ok(Turn::Replied(id, error_of(&done.sent)))
    }
}
