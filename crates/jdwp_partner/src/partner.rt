//! A target as the other end of a debugger's pipe.
ghost use Rattle.std.specs.Prelude.{◌≡◌, ◌≤◌, IfOk, length};
ghost use Rattle.jdwp_end.specs.Story.{after_flush, after_read, after_write};
ghost use Rattle.jdwp_target.specs.Options.{LivesWithin};
ghost use Rattle.jdwp_partner.specs.Partners.{IsPartner, first_target, new_partner};

use crate::keeping::{read_from, write_to};
use crate::rounds::wait_for;
use crate::standing::Standing;
use crate::through::Through;
use jdwp_debuggee::Settings;
use jdwp_end::Pipe;
use jdwp_machine::Machine;
use jdwp_target::Target;
use jdwp_wire::NoMemory;
use std::alloc::Global;
use std::io;
use std::marker::Model;
use trace::Trace;

/// A target in this process as the other end of a debugger's pipe, in one session.
///
/// What is written comes to it at once, as much as it has room for; what is written once its session is over is dropped. A read has it go on,
/// round by round, until it has something to say: in a round a message is handled; where none is whole, the newest deferred command is answered,
/// or where nothing is deferred each live thread makes a step, by rising id. Where its session is over, a round did nothing, or no round is left,
/// a read gives 0, the end of the input, and `standing` tells why. A read and a write wait for nobody, so there is no limit of time.
#[derive(Drop)]
pub struct Partner<M: Machine> {
    target: Box<Target<M>>,
    /// The target as its session began, for contracts alone.
    opened: Trace<Target<M>>,
    rounds: u64,
    standing: Standing,
    through: Through,
}

impl<M: Machine> Model for Partner<M> {
    ghost use Rattle.jdwp_partner.specs.Partners as partners;
    ghost use Rattle.jdwp_partner.specs.Insides.{partner_of};

    ghost Value = { partners.Partner M };

    ghost view = { λ p. partner_of p.target.value p.opened.items p.rounds p.standing p.through };

    ghost invariant = { λ p. partners.IsServing M.meaning (partner_of p.target.value p.opened.items p.rounds p.standing p.through) };
}

impl<M: Machine + Drop> Partner<M> {
    /// A target over this machine, whose first session begins: it waits for the handshake. It goes on for at most so many rounds. Where `defer`
    /// says so it defers the replies to commands of the sets ReferenceType and Method, at most 16 at a time. The machine has 1 to
    /// `settings.limits().live()` live threads.
    ///
    /// # Errors
    /// `NoMemory` where an allocation was refused.
    pub fn new(
        alloc: Global,
        machine: M,
        settings: Settings,
        defer: bool,
        rounds: u32,
    ) -> Result<Partner<M>, NoMemory>
        requires { LivesWithin M.meaning settings.limits machine }
        ensures { IfOk result (λ p. p ≡ new_partner M.meaning settings defer machine rounds) }
    {
        let target = opened_over(alloc, machine, settings, defer)?;
        let mut opened = Trace::new();
        opened.push(&*target);
        Ok(Partner {
            target,
            opened,
            rounds: u64::from(rounds),
            standing: Standing::Goes,
            through: Through::new(),
        })
    }

    /// How the target stands.
    pub fn standing(&self) -> Standing
        ensures { result ≡ self.now.standing }
    {
        self.standing
    }

    /// What holds of every partner, whatever went through it. It changes nothing.
    pub fn session(&self)
        ensures { IsPartner M.meaning self.now }
    {
        self.target.session();
    }
}

/// A target over this machine whose first session begins, on the heap.
fn opened_over<M: Machine + Drop>(
    alloc: Global,
    machine: M,
    settings: Settings,
    defer: bool,
) -> Result<Box<Target<M>>, NoMemory>
    requires { LivesWithin M.meaning settings.limits machine }
    ensures { IfOk result (λ target. target.value
        ≡ first_target M.meaning settings defer machine) }
{
    let mut target = Target::with_settings(alloc, machine, settings)?;
    target.set_deferring(defer);
    target.accept();
    Ok(Box::new(alloc, target)?)
}

impl<M: Machine + Drop> Pipe for Partner<M> {
    ghost story = { λ p. p.story };

    fn read(&mut self, buffer: &mut [u8]) -> io::Result<usize>
        ensures within { IfOk result (λ n. n ≤ length buffer.new) }
        ensures story { self.new.story ≡ after_read self.old.story result buffer.new }
        ensures opened { self.new.opened ≡ self.old.opened }
        ensures fewer { self.new.rounds ≤ self.old.rounds }
    {
        let is_waited = !buffer.is_empty();
        self.standing = wait_for(&mut self.target, &mut self.rounds, self.standing, is_waited);
        let count = read_from(&mut self.target, &mut self.through, buffer);
        Ok(count)
    }

    fn write(&mut self, bytes: &[u8]) -> io::Result<usize>
        ensures within { IfOk result (λ n. n ≤ length bytes.now) }
        ensures story { self.new.story ≡ after_write self.old.story result bytes.now }
        ensures opened { self.new.opened ≡ self.old.opened }
        ensures rounds { self.new.rounds ≡ self.old.rounds }
    {
        self.standing = Standing::Goes;
        let count = write_to(&mut self.target, &mut self.through, bytes);
        Ok(count)
    }

    fn flush(&mut self) -> io::Result<()>
        ensures story { self.new.story ≡ after_flush self.old.story result }
        ensures others { self.new ≡ record self.old { story = self.new.story } }
    {
        self.through.note_flush();
        Ok(())
    }
}
