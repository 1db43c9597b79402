//! A law of the definition by which lines are read, as the contract of a function that does nothing.
ghost use Rattle.std.specs.Prelude.{◌≡◌, ◌↔◌, ℕ, List, Ok};
ghost use Rattle.jdwp_attach.specs.Forms.{Spells};
ghost use Rattle.jdwp_attach.specs.Lines.{Said, line_of};

/// A line says something exactly where it is one of the texts of that.
pub fn reads_each_form()
    ensures { (line : List ℕ) (said : Said) → (line_of line ≡ Ok said) ↔ Spells said line }
{}
