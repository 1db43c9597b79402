//! Laws: each function says what holds, in its contract, and does nothing; to call it is to cite it.
ghost use Rattle.jdwp_pair.specs.Followers.{TakesNoLess};

/// A debugger of a target that sends replies and events by threads of its own takes each packet that one takes whose target sends each packet
/// as it acts, where both read it by the same widths of ids, composites that wait and commands that wait; and it says the same to both.
pub fn takes_what_the_first_takes()
    ensures { TakesNoLess }
{}
