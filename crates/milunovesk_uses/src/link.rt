//! A target and a debugger in one process.
ghost use Rattle.std.specs.Prelude.{◌≡◌, ◌<◌, ◌+◌, ◌++◌, ℕ, IfOk, Some, true};
ghost use Rattle.milunovesk.specs.Debuggee.State.{Moment, count_of, count_or_zero};
ghost use Rattle.milunovesk.specs.Debugger.Debuggers.{unanswered};
ghost use Rattle.milunovesk.specs.Link.Clauses.{IsUnbroken, unanswered_by};
ghost use Rattle.milunovesk.specs.Link.Outcomes.{settled_in, waiting_at};
ghost use Rattle.milunovesk.specs.Link.Stands.{StandsFor};
ghost use Rattle.milunovesk.specs.Model.Seen.{lowers, seen_moment};
ghost use Rattle.milunovesk.specs.Model.Tickets.{tickets_to, times};
ghost use Rattle.milunovesk.specs.Model.World.{World};

use milunovesk::{Link, LinkEvent, Machine, ObjectId, Outcome, Stopped};

/// Lets these events happen, and answers whether the debugger shows the thread as suspended then. Where it does, the thread is suspended in
/// the target: unless the machine died, the target lost the connection, or a Dispose or a Resume of the thread or of all is unanswered.
///
/// # Errors
/// `Stopped` where an event met want of memory.
pub fn shows_suspended<M: Machine + Drop>(
    link: &mut Link<M>,
    events: &[LinkEvent],
    thread: ObjectId,
) -> Result<bool, Stopped>
    ensures { IfOk result (λ shown. shown ≡ true → IsUnbroken link.new
        → unanswered_by lowers (unanswered link.new.debugger.pending) thread.0 ≡ 0
        → 0 < count_or_zero link.new.target.moment.state thread.0) }
{
    let _outcomes = link.run(events)?;
    Ok(link.debugger().mirror().is_held(thread))
}

/// The suspend count that the debugger of a link shows of a thread, whatever happened to the link before. The link stands for a session in
/// which it is the one that the target had when it sent the last packet that the debugger read, if the thread lived then.
pub fn shown_count<M: Machine + Drop>(link: &Link<M>, thread: ObjectId) -> Option<u32>
    ensures { (session : World M) × StandsFor M.meaning link.now session
        × ((shown had : ℕ) (then : Moment M) → result ≡ Some shown
        → seen_moment session.read ≡ Some then → count_of then.state thread.0 ≡ Some had
        → shown ≡ had) }
{
    link.session();
    link.debugger().mirror().count(thread)
}

/// Lets these events happen to a link, whatever happened to it before, and answers what is told of them. Each ticket is answered or lost, once:
/// those that are, and those that wait then, are those that waited before and those that were given.
///
/// # Errors
/// `Stopped` where an event met want of memory.
pub fn settle<M: Machine + Drop>(
    link: &mut Link<M>,
    events: &[LinkEvent],
) -> Result<Vec<Outcome>, Stopped>
    ensures { IfOk result (λ told. (k : ℕ)
        → times k (settled_in told.items ++ waiting_at link.new.debugger)
        + times k (tickets_to link.old.debugger.tickets)
        ≡ times k (waiting_at link.old.debugger) + times k (tickets_to link.new.debugger.tickets)) }
{
    link.session();
    milunovesk::laws::settles_each_ticket_once::<M>();
    link.run(events)
}
