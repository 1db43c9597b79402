//! The widths of ids (JDWP specification, "VirtualMachine": IDSizes).
ghost use Rattle.std.specs.Prelude.{◌≡◌, ◌↔◌, IsOk, IfOk, IsSome, IfSome};
ghost use Rattle.jdwp_wire.specs.Widths.{IsWidth, width_of};

use std::marker::Model;
use thiserror::Error;

/// How many bytes an id or a number takes, 1 to 8.
#[derive(Clone, Copy, Debug, PartialEq, Eq)]
pub struct Width(u8);

impl Model for Width {
    ghost use Rattle.std.specs.Prelude.{ℕ};
    ghost use Rattle.jdwp_wire.specs.Widths as spec;

    ghost Value = { ℕ };

    ghost view = { λ w. w.0 };

    ghost invariant = { λ w. spec.IsWidth w.0 };

    ghost inverse = { λ n. record { 0 = n } };
}

impl Width {
    /// The width of a byte, 1.
    pub const BYTE: Width = Width(1);
    /// The width of a char and of a short, 2.
    pub const SHORT: Width = Width(2);
    /// The width of an int, a float, a length and a count, 4.
    pub const INT: Width = Width(4);
    /// The width of a long and of a double, 8.
    pub const LONG: Width = Width(8);

    /// A width of so many bytes; None where they are not 1 to 8.
    pub fn new(bytes: u8) -> Option<Width>
        ensures some { IsSome result ↔ IsWidth bytes }
        ensures same { IfSome result (λ w. w ≡ bytes) }
    {
        if bytes >= 1 && bytes <= 8 {
            Some(Width(bytes))
        } else {
            None
        }
    }

    /// How many bytes that is, 1 to 8.
    pub fn bytes(self) -> usize
        ensures value { result ≡ self }
        ensures within { IsWidth result }
    {
        self.0 as usize
    }
}

/// A kind of id (JDWP specification, "Data Types").
#[derive(Clone, Copy, Debug, PartialEq, Eq)]
pub enum IdKind {
    /// A field of a reference type.
    Field,
    /// A method of a reference type.
    Method,
    /// An object, and so a thread, thread group, string, class loader or class object.
    Object,
    /// A class, an interface or an array type.
    ReferenceType,
    /// A frame of a thread.
    Frame,
}

/// How many bytes each kind of id takes, 1 to 8.
#[derive(Clone, Copy, Debug, PartialEq, Eq)]
pub struct IdSizes {
    field: u8,
    method: u8,
    object: u8,
    reference: u8,
    frame: u8,
}

impl Model for IdSizes {
    ghost use Rattle.jdwp_wire.specs.Widths.{Widths, AreWidths};

    ghost Value = { Widths };

    ghost view = { λ s. record {
      field = s.field;
      method = s.method;
      object = s.object;
      reference = s.reference;
      frame = s.frame;
    } };

    ghost invariant = { λ s. AreWidths s.field s.method s.object s.reference s.frame };

    ghost inverse = { λ w. record {
      field = w.field;
      method = w.method;
      object = w.object;
      reference = w.reference;
      frame = w.frame;
    } };
}

/// A width outside 1 to 8.
#[derive(Clone, Copy, Debug, PartialEq, Eq, Error)]
#[error("an id has 1 to 8 bytes")]
pub struct BadSize;

impl IdSizes {
    /// These widths, in the order of the IDSizes reply.
    ///
    /// # Errors
    /// `BadSize` exactly where one of them is outside 1 to 8.
    pub fn new(
        field: u32,
        method: u32,
        object: u32,
        reference: u32,
        frame: u32,
    ) -> Result<IdSizes, BadSize>
        ensures ok { IsOk result ↔ (IsWidth field × IsWidth method
            × IsWidth object × IsWidth reference × IsWidth frame) }
        ensures widths { IfOk result (λ s. s ≡ record {
          field = field;
          method = method;
          object = object;
          reference = reference;
          frame = frame;
        }) }
    {
        Ok(IdSizes {
            field: checked(field)?,
            method: checked(method)?,
            object: checked(object)?,
            reference: checked(reference)?,
            frame: checked(frame)?,
        })
    }

    /// The width of the ids of a kind.
    pub fn width(&self, kind: IdKind) -> Width
        ensures { result ≡ width_of self.now kind }
    {
        match kind {
            IdKind::Field => Width(self.field),
            IdKind::Method => Width(self.method),
            IdKind::Object => Width(self.object),
            IdKind::ReferenceType => Width(self.reference),
            IdKind::Frame => Width(self.frame),
        }
    }

    /// The width of field ids.
    pub fn field(&self) -> u8
        ensures value { result ≡ self.now.field }
        ensures within { IsWidth result }
    {
        self.field
    }

    /// The width of method ids.
    pub fn method(&self) -> u8
        ensures value { result ≡ self.now.method }
        ensures within { IsWidth result }
    {
        self.method
    }

    /// The width of object ids, and so of threads, thread groups, strings, class loaders and class objects.
    pub fn object(&self) -> u8
        ensures value { result ≡ self.now.object }
        ensures within { IsWidth result }
    {
        self.object
    }

    /// The width of reference type ids.
    pub fn reference(&self) -> u8
        ensures value { result ≡ self.now.reference }
        ensures within { IsWidth result }
    {
        self.reference
    }

    /// The width of frame ids.
    pub fn frame(&self) -> u8
        ensures value { result ≡ self.now.frame }
        ensures within { IsWidth result }
    {
        self.frame
    }
}

/// The width as a byte.
fn checked(bytes: u32) -> Result<u8, BadSize>
    ensures ok { IsOk result ↔ IsWidth bytes }
    ensures same { IfOk result (λ w. w ≡ bytes) }
{
    if 1 <= bytes && bytes <= 8 {
        Ok(bytes as u8)
    } else {
        Err(BadSize)
    }
}
