//! The values that lines bind.
ghost use Rattle.std.specs.Prelude.{◌≡◌, ◌∷◌, [], OnOk, OnErr};
ghost use Rattle.std.specs.Option.{option_map};
ghost use Rattle.jdwp_plan.specs.Filling.{bindings, value_of};

use jdwp_wire::NoMemory;
use std::alloc::Global;
use std::marker::Model;

/// Names, each with the text that is bound to it: the last one that was.
#[derive(Debug, Drop)]
pub struct Values {
    bound: Vec<(Vec<u8>, Vec<u8>)>,
}

impl Model for Values {
    ghost use Rattle.std.specs.Prelude.{ℕ, List};
    ghost use Rattle.jdwp_plan.specs.Filling.{bindings};

    ghost Value = { List (List ℕ × List ℕ) };

    ghost view = { λ v. bindings v.bound.items };
}

impl Values {
    /// No names.
    pub fn new(alloc: Global) -> Values
        ensures { result ≡ [] }
    {
        Values {
            bound: Vec::new(alloc),
        }
    }

    /// Binds a text to a name. What was bound to it before is no longer.
    ///
    /// # Errors
    /// `NoMemory` where an allocation was refused; nothing has changed then.
    pub fn bind(&mut self, name: Vec<u8>, text: Vec<u8>) -> Result<(), NoMemory>
        ensures ok { OnOk result (self.new ≡ (name.items, text.items) ∷ self.old) }
        ensures err { OnErr result (self.new ≡ self.old) }
    {
        self.bound.insert(0, (name, text))?;
        Ok(())
    }

    /// The text that is bound to a name.
    pub fn get(&self, name: &[u8]) -> Option<&[u8]>
        ensures { option_map (λ t. t.now) result ≡ value_of name.now self.now }
    {
        look_up(&self.bound, name)
    }
}

/// The text that is bound to a name first.
fn look_up<'a>(bound: &'a [(Vec<u8>, Vec<u8>)], name: &[u8]) -> Option<&'a [u8]>
    ensures { option_map (λ t. t.now) result ≡ value_of name.now (bindings bound.now) }
{
    for entry in bound {
        if entry.0.as_slice() == name {
            return Some(entry.1.as_slice());
        }
    }
    None
}
