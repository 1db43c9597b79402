//! Laws: each function says what holds, in its contract, and does nothing; to call it is to cite it.
ghost use Rattle.std.specs.Prelude.{◌≡◌};
ghost use Rattle.jdwp_action.specs.Actions.{Command, about, action_of, thread_of};

/// The thread that a command's action is about is the one that the command is about, and none where it is about none.
pub fn acts_on_its_thread()
    ensures { (c : Command) → about (action_of c) ≡ thread_of c }
{}
