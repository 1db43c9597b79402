//! Calls on a debugger.
ghost use Rattle.std.specs.Prelude.{◌≡◌, ◌++◌, ◌↔◌, ◌==◌, ◌+◌, ◌<◌, ◌≤◌, IfOk, IsTrue, IsFalse, None, Some, drop, false, is_some, length, map, min, slice_get, take, true, unwrap_or};
ghost use Rattle.jdwp_debugger.specs.Debuggers.{at_place, attached, has_tickets, lost_debugger, new_debugger, tickets_of, unanswered, with_fed, with_taken};
ghost use Rattle.jdwp_debugger.specs.RefusedNumbers.{refused_number};
ghost use Rattle.jdwp_debugger.specs.declared.turning.Read.TheVariants as read;
ghost use Rattle.jdwp_end.specs.Ends.{is_open, room_of};
ghost use Rattle.jdwp_debugger.specs.Holding.{is_held};
ghost use Rattle.jdwp_debugger.specs.declared.order.Order.TheVariants.{Apart};
ghost use Rattle.jdwp_wire.specs.Limits.{standard_limits};
ghost use Rattle.milunovesk_c.specs.KeptIn.{AtDebugger, IsMade, KeepsDebugger, KeepsNoDebugger, seated};
ghost use Rattle.milunovesk_c.specs.Seats.{HasAskedBytes, HasLost, TellsRequest, attached_where, count_told, is_known, new_seat, new_seat_in, numbers_of, unanswered_told, widths_told};
ghost use Rattle.milunovesk_c.specs.Numbers.{DONE, NO_MEMORY, REFUSED, SHORT_BUFFER};
ghost use Rattle.milunovesk_c.specs.Telling.{HasTurned, IsGiven, told_bytes};
ghost use Rattle.milunovesk_c.specs.declared.kept.Kept.TheVariants as kept;

use crate::copying::copy_out;
use crate::handle::Handle;
use crate::heard::Heard;
use crate::kept::Kept;
use crate::seat::Seat;
use crate::widths::{Asked, IdWidths, Request};
use crate::{DONE, EMPTY, FAULT, LIVE, NO_ITEM, NO_MEMORY, OTHER_KIND, REFUSED, SHORT_BUFFER};
use jdwp_debugger::{Debugger, DebuggerFault, Order, Refused, Ticket};
use jdwp_value::ObjectId;
use jdwp_wire::{DataFault, NoMemory};
use std::alloc::Global;

/// The most tickets that a loss leaves.
const MOST_TICKETS: usize = 1_024;

/// The greatest suspend count that is told.
const COUNT_MOST: u64 = u32::MAX as u64;

/// Keeps a debugger before its first session at a handle that keeps nothing; the id of its first packet is this. `LIVE` where something is kept,
/// `NO_MEMORY` where an allocation was refused: then nothing changes.
#[unsafe(no_mangle)]
pub extern "C" fn mv_debugger_new(alloc: Global, handle: &mut Handle, first_id: u32) -> u32
    ensures { IsMade handle.old.value result handle.new.value (kept.Debugger (new_seat first_id)) }
{
    make(alloc, handle, Order::One, first_id)
}

/// The same of a target that sends replies and composites by threads of their own, as Java machines do.
#[unsafe(no_mangle)]
pub extern "C" fn mv_debugger_new_apart(alloc: Global, handle: &mut Handle, first_id: u32) -> u32
    ensures { IsMade handle.old.value result handle.new.value (kept.Debugger (new_seat_in Apart first_id)) }
{
    make(alloc, handle, Order::Apart, first_id)
}

fn make(alloc: Global, handle: &mut Handle, order: Order, first_id: u32) -> u32
    ensures { IsMade handle.old.value result handle.new.value (kept.Debugger (new_seat_in order first_id)) }
{
    match handle.take_out(alloc) {
        Some(kept) => {
            handle.put(kept);
            LIVE
        }
        None => match boxed(alloc, order, first_id) {
            Ok(kept) => {
                handle.put(kept);
                DONE
            }
            Err(_) => NO_MEMORY,
        },
    }
}

fn boxed(alloc: Global, order: Order, first_id: u32) -> Result<Box<Kept>, NoMemory>
    ensures { IfOk result (λ b. b.value ≡ kept.Debugger (new_seat_in order first_id)) }
{
    let seat = Seat::new(alloc, order, first_id)?;
    Ok(Box::new(alloc, Kept::Debugger(seat))?)
}

/// Begins a session; `opened` says whether it did: not where one is open, or a ticket of the last one waits for `mv_debugger_lose`.
#[unsafe(no_mangle)]
pub extern "C" fn mv_debugger_attach(alloc: Global, handle: &mut Handle, opened: &mut bool) -> u32
    ensures attached { AtDebugger handle.old.value result handle.new.value (λ s. (result ≡ DONE)
        × (IsTrue opened.new ↔ ((is_open s.debugger.end ≡ false)
        × (has_tickets s.debugger.pending ≡ false)))
        × (handle.new.value ≡ seated (attached_where opened.new s.debugger) s)) }
    ensures untouched { IsFalse (result == DONE) → opened.new ≡ false }
{
    *opened = false;
    match handle.take_out(alloc) {
        None => EMPTY,
        Some(kept) => {
            let mut kept = kept;
            let code = match &mut *kept {
                Kept::Debugger(seat) => {
                    *opened = seat.debugger.attach();
                    DONE
                }
                Kept::Target(_) => OTHER_KIND,
            };
            handle.put(kept);
            code
        }
    }
}

/// Takes as many of the bytes as fit, and says how many.
#[unsafe(no_mangle)]
pub extern "C" fn mv_debugger_feed(
    alloc: Global,
    handle: &mut Handle,
    bytes: &[u8],
    count: &mut usize,
) -> u32
    ensures fed { AtDebugger handle.old.value result handle.new.value (λ s. (result ≡ DONE)
        × (count.new ≡ min (length bytes.now) (room_of s.debugger.end))
        × (handle.new.value ≡ seated (with_fed (take count.new bytes.now) s.debugger) s)) }
    ensures untouched { IsFalse (result == DONE) → count.new ≡ 0 }
{
    *count = 0;
    match handle.take_out(alloc) {
        None => EMPTY,
        Some(kept) => {
            let mut kept = kept;
            let code = match &mut *kept {
                Kept::Debugger(seat) => {
                    *count = seat.debugger.feed(bytes);
                    DONE
                }
                Kept::Target(_) => OTHER_KIND,
            };
            handle.put(kept);
            code
        }
    }
}

/// Moves as many of the bytes that wait to leave to the front of `out` as fit, and says how many.
#[unsafe(no_mangle)]
pub extern "C" fn mv_debugger_take(
    alloc: Global,
    handle: &mut Handle,
    out: &mut [u8],
    count: &mut usize,
) -> u32
    ensures taken { AtDebugger handle.old.value result handle.new.value (λ s. (result ≡ DONE)
        × (count.new ≡ min (length out.old) (length s.debugger.end.outgoing))
        × (out.new ≡ take count.new s.debugger.end.outgoing ++ drop count.new out.old)
        × (handle.new.value
        ≡ seated (with_taken (take count.new s.debugger.end.outgoing) s.debugger) s)) }
    ensures untouched { IsFalse (result == DONE) → (count.new ≡ 0) × (out.new ≡ out.old) }
{
    *count = 0;
    match handle.take_out(alloc) {
        None => EMPTY,
        Some(kept) => {
            let mut kept = kept;
            let code = match &mut *kept {
                Kept::Debugger(seat) => {
                    *count = seat.debugger.take(out);
                    DONE
                }
                Kept::Target(_) => OTHER_KIND,
            };
            handle.put(kept);
            code
        }
    }
}

/// Says how many bytes `mv_debugger_feed` would take, how many wait to leave, and whether a session is open.
#[unsafe(no_mangle)]
pub extern "C" fn mv_debugger_waiting(
    alloc: Global,
    handle: &mut Handle,
    room: &mut usize,
    waiting: &mut usize,
    opened: &mut bool,
) -> u32
    ensures told { AtDebugger handle.old.value result handle.new.value (λ s. (result ≡ DONE)
        × (room.new ≡ room_of s.debugger.end)
        × (waiting.new ≡ length s.debugger.end.outgoing)
        × (opened.new ≡ is_open s.debugger.end)
        × (handle.new.value ≡ Some (kept.Debugger s))) }
    ensures untouched { IsFalse (result == DONE)
        → (room.new ≡ 0) × (waiting.new ≡ 0) × (opened.new ≡ false) }
{
    *room = 0;
    *waiting = 0;
    *opened = false;
    match handle.take_out(alloc) {
        None => EMPTY,
        Some(kept) => {
            let code = match &*kept {
                Kept::Debugger(seat) => {
                    *room = seat.debugger.room();
                    *waiting = seat.debugger.waiting();
                    *opened = seat.debugger.is_open();
                    DONE
                }
                Kept::Target(_) => OTHER_KIND,
            };
            handle.put(kept);
            code
        }
    }
}

/// Asks the command of this set and number whose data these bytes are, and says its ticket. `REFUSED` where it is not asked, with the number of the
/// reason, 31 to 36; `NO_MEMORY` where an allocation was refused: then nothing changes.
#[unsafe(no_mangle)]
pub extern "C" fn mv_debugger_ask(
    alloc: Global,
    handle: &mut Handle,
    set: u8,
    number: u8,
    bytes: &[u8],
    ticket: &mut u64,
    refused: &mut u16,
) -> u32
    ensures asked { AtDebugger handle.old.value result handle.new.value
        (λ s. KeepsDebugger handle.new.value
        (HasAskedBytes set number bytes.now s result ticket.new refused.new)) }
    ensures untouched { KeepsNoDebugger handle.old.value → (ticket.new ≡ 0) × (refused.new ≡ 0) }
{
    *ticket = 0;
    *refused = 0;
    match handle.take_out(alloc) {
        None => EMPTY,
        Some(kept) => {
            let mut kept = kept;
            let code = match &mut *kept {
                Kept::Debugger(seat) => match seat.ask(alloc, set, number, bytes) {
                    Ok(given) => {
                        *ticket = given.0;
                        DONE
                    }
                    Err(Refused::NoMemory) => NO_MEMORY,
                    Err(reason) => {
                        *refused = reason.number();
                        REFUSED
                    }
                },
                Kept::Target(_) => OTHER_KIND,
            };
            handle.put(kept);
            code
        }
    }
}

/// Handles the message in front, and says what it read, which is kept beside the debugger until a turn reads again. `FAULT` where the target may not
/// send what it sent, and the session is closed; `NO_MEMORY` where an allocation was refused, and nothing changes.
#[unsafe(no_mangle)]
pub extern "C" fn mv_debugger_turn(alloc: Global, handle: &mut Handle, out: &mut Heard) -> u32
    ensures turned { AtDebugger handle.old.value result handle.new.value
        (λ s. KeepsDebugger handle.new.value (HasTurned s result out.new)) }
    ensures untouched { KeepsNoDebugger handle.old.value → out.new ≡ out.old }
{
    match handle.take_out(alloc) {
        None => EMPTY,
        Some(kept) => {
            let mut kept = kept;
            let code = match &mut *kept {
                Kept::Debugger(seat) => turn(alloc, seat, out),
                Kept::Target(_) => OTHER_KIND,
            };
            handle.put(kept);
            code
        }
    }
}

fn turn(alloc: Global, seat: &mut Seat, out: &mut Heard) -> u32
    ensures { HasTurned seat.old result out.new seat.new }
{
    match seat.turn(alloc) {
        Ok(()) => {
            *out = Heard::of_read(&seat.read);
            DONE
        }
        Err(fault) => {
            *out = Heard::of_fault(fault);
            match fault {
                DebuggerFault::NoMemory => NO_MEMORY,
                _ => FAULT,
            }
        }
    }
}

/// Moves the data at this place of what the last turn told to the front of `out`, and says how many bytes they are. Nothing changes, so they
/// may be asked for again. `NO_ITEM` where there are none, `SHORT_BUFFER` where `out` has too little room, `NO_MEMORY` where an allocation was
/// refused; `FAULT` where they can't be written: none that a turn told are such.
#[unsafe(no_mangle)]
pub extern "C" fn mv_debugger_data(
    alloc: Global,
    handle: &mut Handle,
    item: usize,
    out: &mut [u8],
    needed: &mut usize,
) -> u32
    ensures given { AtDebugger handle.old.value result handle.new.value
        (λ s. IsGiven (told_bytes s item) result out.old out.new needed.new
        × (handle.new.value ≡ Some (kept.Debugger s))) }
    ensures untouched { KeepsNoDebugger handle.old.value → (out.new ≡ out.old) × (needed.new ≡ 0) }
{
    *needed = 0;
    match handle.take_out(alloc) {
        None => EMPTY,
        Some(kept) => {
            let code = match &*kept {
                Kept::Debugger(seat) => give(alloc, seat, item, out, needed),
                Kept::Target(_) => OTHER_KIND,
            };
            handle.put(kept);
            code
        }
    }
}

fn give(alloc: Global, seat: &Seat, item: usize, out: &mut [u8], needed: &mut usize) -> u32
    ensures { IsGiven (told_bytes seat.now item) result out.old out.new needed.new }
{
    *needed = 0;
    match seat.data(alloc, item) {
        Ok(Some(bytes)) => copy_out(&bytes, out, needed),
        Ok(None) => NO_ITEM,
        Err(DataFault::NoMemory) => NO_MEMORY,
        Err(_) => FAULT,
    }
}

/// Says how many bytes ids have, once that is known; all 0 before.
#[unsafe(no_mangle)]
pub extern "C" fn mv_debugger_widths(
    alloc: Global,
    handle: &mut Handle,
    known: &mut bool,
    out: &mut IdWidths,
) -> u32
    ensures told { AtDebugger handle.old.value result handle.new.value (λ s. (result ≡ DONE)
        × (known.new ≡ is_some s.debugger.sizes) × (out.new ≡ widths_told s.debugger.sizes)
        × (handle.new.value ≡ Some (kept.Debugger s))) }
    ensures untouched { IsFalse (result == DONE) → (known.new ≡ known.old) × (out.new ≡ out.old) }
{
    match handle.take_out(alloc) {
        None => EMPTY,
        Some(kept) => {
            let code = match &*kept {
                Kept::Debugger(seat) => {
                    let sizes = seat.debugger.sizes();
                    *known = sizes.is_some();
                    *out = IdWidths::of(sizes);
                    DONE
                }
                Kept::Target(_) => OTHER_KIND,
            };
            handle.put(kept);
            code
        }
    }
}

/// Says whether a thread is known, its suspend count, and whether it is held for suspended. Of a target that sends replies and composites by
/// threads of their own: whether the thread was named, that is a composite of its own was read, or an answer without an error about it; in
/// `count` what its suspend count is surely no less than, 4,294,967,295 where that is more; and in `held` whether it is surely suspended. So of a
/// thread that is known and not held nothing is sure.
#[unsafe(no_mangle)]
pub extern "C" fn mv_debugger_thread(
    alloc: Global,
    handle: &mut Handle,
    thread: u64,
    known: &mut bool,
    count: &mut u32,
    held: &mut bool,
) -> u32
    ensures told { AtDebugger handle.old.value result handle.new.value (λ s. (result ≡ DONE)
        × (known.new ≡ is_known s.debugger thread) × (count.new ≡ count_told s.debugger thread)
        × (held.new ≡ is_held s.debugger thread)
        × (handle.new.value ≡ Some (kept.Debugger s))) }
    ensures untouched { IsFalse (result == DONE)
        → (known.new ≡ known.old) × (count.new ≡ count.old) × (held.new ≡ held.old) }
{
    match handle.take_out(alloc) {
        None => EMPTY,
        Some(kept) => {
            let code = match &*kept {
                Kept::Debugger(seat) => {
                    *known = knows(&seat.debugger, ObjectId(thread));
                    *count = told_count(&seat.debugger, ObjectId(thread));
                    *held = seat.debugger.is_held(ObjectId(thread));
                    DONE
                }
                Kept::Target(_) => OTHER_KIND,
            };
            handle.put(kept);
            code
        }
    }
}

fn knows(debugger: &Debugger, thread: ObjectId) -> bool
    ensures { result ≡ is_known debugger.now thread.0 }
{
    match debugger.order() {
        Order::One => debugger.mirror().count(thread).is_some(),
        Order::Apart => debugger.is_named(thread),
    }
}

fn told_count(debugger: &Debugger, thread: ObjectId) -> u32
    ensures { result ≡ count_told debugger.now thread.0 }
{
    debugger.at_least(thread).min(COUNT_MOST) as u32
}

/// Says the ticket, the set and the number of the command at this place among those that are neither answered nor lost, in the order asked.
#[unsafe(no_mangle)]
pub extern "C" fn mv_debugger_unanswered(
    alloc: Global,
    handle: &mut Handle,
    place: usize,
    out: &mut Asked,
) -> u32
    ensures told { AtDebugger handle.old.value result handle.new.value (λ s. (result ≡ DONE)
        × (out.new ≡ unanswered_told (at_place (unanswered s.debugger.pending) place))
        × (handle.new.value ≡ Some (kept.Debugger s))) }
    ensures untouched { IsFalse (result == DONE) → out.new ≡ out.old }
{
    match handle.take_out(alloc) {
        None => EMPTY,
        Some(kept) => {
            let code = match &*kept {
                Kept::Debugger(seat) => {
                    *out = match seat.debugger.unanswered(place) {
                        None => Asked::none(),
                        Some((ticket, command)) => Asked::of(ticket, command),
                    };
                    DONE
                }
                Kept::Target(_) => OTHER_KIND,
            };
            handle.put(kept);
            code
        }
    }
}

/// Says the id, the kind and the suspend policy of the event request at this place among those that the debugger keeps, the last one asked last.
/// `NO_ITEM` behind the last.
#[unsafe(no_mangle)]
pub extern "C" fn mv_debugger_request(
    alloc: Global,
    handle: &mut Handle,
    place: usize,
    out: &mut Request,
) -> u32
    ensures told { AtDebugger handle.old.value result handle.new.value
        (λ s. TellsRequest (slice_get s.debugger.mirror.requests place) result out.old out.new
        × (handle.new.value ≡ Some (kept.Debugger s))) }
    ensures untouched { IsFalse (result == DONE) → out.new ≡ out.old }
{
    match handle.take_out(alloc) {
        None => EMPTY,
        Some(kept) => {
            let code = match &*kept {
                Kept::Debugger(seat) => tell_request(&seat.debugger, place, out),
                Kept::Target(_) => OTHER_KIND,
            };
            handle.put(kept);
            code
        }
    }
}

#[tactic(auto, using(crate::proofs::Requests::nth_is))]
fn tell_request(debugger: &Debugger, place: usize, out: &mut Request) -> u32
    ensures { TellsRequest (slice_get debugger.now.mirror.requests place) result out.old out.new }
{
    match debugger.mirror().requests().nth(place) {
        None => NO_ITEM,
        Some(kept) => {
            *out = Request::of(kept);
            DONE
        }
    }
}

/// The connection is lost: the session is closed, and nothing waits and nothing is known. Moves the tickets that will never be answered to the
/// front of `out`, and says how many. `SHORT_BUFFER` where `out` has no room for 1,024, and nothing changes.
#[unsafe(no_mangle)]
pub extern "C" fn mv_debugger_lose(
    alloc: Global,
    handle: &mut Handle,
    out: &mut [u64],
    count: &mut usize,
) -> u32
    ensures lost { AtDebugger handle.old.value result handle.new.value
        (λ s. KeepsDebugger handle.new.value (HasLost s result out.old out.new count.new)) }
    ensures untouched { KeepsNoDebugger handle.old.value → (out.new ≡ out.old) × (count.new ≡ 0) }
{
    *count = 0;
    match handle.take_out(alloc) {
        None => EMPTY,
        Some(kept) => {
            let mut kept = kept;
            let code = match &mut *kept {
                Kept::Debugger(seat) => lose(seat, out, count),
                Kept::Target(_) => OTHER_KIND,
            };
            handle.put(kept);
            code
        }
    }
}

fn lose(seat: &mut Seat, out: &mut [u64], count: &mut usize) -> u32
    ensures { HasLost seat.old result out.old out.new count.new seat.new }
{
    if out.len() < MOST_TICKETS {
        *count = MOST_TICKETS;
        return SHORT_BUFFER;
    }
    let lost = seat.debugger.lose();
    let tickets = lost.as_slice();
    *count = tickets.len();
    copy_tickets(tickets, &mut out[..tickets.len()]);
    DONE
}

/// Puts the numbers of the tickets there, one behind the other.
fn copy_tickets(tickets: &[Ticket], out: &mut [u64])
    requires { length tickets.now ≡ length out.old }
    ensures { out.new ≡ numbers_of tickets.now }
{
    let mut next = 0;
    for slot in out.iter_mut() {
        *slot = tickets[next].0;
        next += 1;
    }
}
