//! Laws: each function says what holds, in its contract, and does nothing; to call it is to cite it.
ghost use Rattle.std.specs.Prelude.{◌≡◌, ℕ, ◌∷◌, [], List, ◌↔◌};
ghost use Rattle.jdwp_wire.specs.Widths.{Widths};
ghost use Rattle.jdwp_layout.specs.declared.item.Field.TheVariants as field;
ghost use Rattle.jdwp_layout.specs.Shapes.{Events, OneOf, ListOf};
ghost use Rattle.jdwp_layout.specs.Grammar.{EncodesData};
ghost use Rattle.jdwp_layout.specs.Writes.{data_canonical};
ghost use Rattle.jdwp_event.specs.Composites.{CompositeMeaning, composite_data};
ghost use Rattle.jdwp_event.specs.CompositeBytes.{EncodesComposite, composite_canonical};

/// The bytes of a composite are those of its data in the layout of its row: a byte and a list of events.
pub fn composites_have_their_layout()
    ensures { (w : Widths) (c : CompositeMeaning) (code : List ℕ) → EncodesComposite w c code
        ↔ EncodesData w (OneOf field.Byte ∷ ListOf Events ∷ []) (composite_data c) code }
{}

/// A composite is written as its data are.
pub fn composites_have_their_bytes()
    ensures { (w : Widths) (c : CompositeMeaning) → composite_canonical w c
        ≡ data_canonical w (composite_data c) }
{}
