//! What both ends of a session have in common for whoever moves their bytes.
ghost use Rattle.std.specs.Prelude.{◌≡◌, ◌++◌, ℕ, [], List, drop, length, min, take};
ghost use Rattle.jdwp_end.specs.Ends as ends;
ghost use Rattle.jdwp_end.specs.Ends.{End, room_of};

/// One end of a session, the debuggee's or the debugger's: bytes that came are fed to it, those that wait to leave are taken from it, and
/// it may lose the connection.
///
/// Contracts see what it has of an `End`, and what each call makes of it as a whole.
pub trait SessionEnd {
    /// What it has of an end: the phase, the bytes that came, those that wait to leave, and what happened in the session.
    ghost end: { Self → End };
    /// It, where these bytes came, too.
    ghost with_fed: { List ℕ → Self → Self };
    /// It, where these bytes of those that waited have left.
    ghost with_taken: { List ℕ → Self → Self };
    /// It, where the connection was lost.
    ghost lost_end: { Self → Self };

    /// Whether a session is open: it began, and did not end.
    fn is_open(&self) -> bool
        ensures { result ≡ ends.is_open (end self.now) };

    /// How many bytes `feed` would take, 0 at a closed end.
    fn room(&self) -> usize
        ensures { result ≡ room_of (end self.now) };

    /// Takes as many of the bytes as fit, and answers how many.
    fn feed(&mut self, bytes: &[u8]) -> usize
        ensures count { result ≡ min (length bytes.now) (room_of (end self.old)) }
        ensures fed { self.new ≡ with_fed (take result bytes.now) self.old };

    /// How many bytes wait to leave.
    fn waiting(&self) -> usize
        ensures { result ≡ length (end self.now).outgoing };

    /// All bytes that wait to leave, where they lie, in two pieces of which the first leaves first. It is empty only where none waits.
    fn waiting_slices(&self) -> (&[u8], &[u8])
        ensures all { result.0.now ++ result.1.now ≡ (end self.now).outgoing }
        ensures none { result.0.now ≡ [] → (end self.now).outgoing ≡ [] };

    /// So many of the bytes that wait, the first, have left, or all where no more wait.
    fn leave(&mut self, count: usize)
        ensures { self.new ≡ with_taken (take count (end self.old).outgoing) self.old };

    /// Moves as many of the bytes that wait to the front of `out` as fit, and answers how many.
    fn take(&mut self, out: &mut [u8]) -> usize
        ensures count { result ≡ min (length out.old) (length (end self.old).outgoing) }
        ensures bytes { out.new ≡ take result (end self.old).outgoing ++ drop result out.old }
        ensures taken { self.new ≡ with_taken (take result (end self.old).outgoing) self.old };

    /// The connection is lost.
    fn lose(&mut self)
        ensures { self.new ≡ lost_end self.old };

    /// Bytes that have left have left its end.
    ghost taken_end: { (bytes : List ℕ) (e : Self) → end (with_taken bytes e) ≡ ends.with_taken bytes (end e) };
    /// Where none has, nothing has changed.
    ghost taken_none: { (e : Self) → with_taken [] e ≡ e };
    /// Bytes that have left, and then others, have left one behind the other.
    ghost taken_twice: { (first then : List ℕ) (e : Self) → with_taken then (with_taken first e) ≡ with_taken (first ++ then) e };
}
