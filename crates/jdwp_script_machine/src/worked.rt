//! A worked machine: its steps, answers, written slots and strings are those that were worked out by hand.
ghost use Rattle.jdwp_script_machine.specs.Worked.{StepsAreWorked, AnswersAreWorked, SlotsAreWorked, StringsAreWorked};

/// The definitions give what was worked out by hand for a machine of two threads.
pub fn definitions_give_worked_machine()
    ensures steps { StepsAreWorked }
    ensures answers { AnswersAreWorked }
    ensures slots { SlotsAreWorked }
    ensures strings { StringsAreWorked }
{}
