//! Laws: each function says what holds, in its contract, and does nothing; to call it is to cite it.
ghost use Rattle.std.specs.Prelude.{◌≡◌, ℕ, List, Ok, Err, None};
ghost use Rattle.jdwp_wire.specs.declared.data_fault.DataFault.{DataFault};
ghost use Rattle.jdwp_wire.specs.Bytes.{IsBytes};
ghost use Rattle.jdwp_wire.specs.Widths.{Widths};
ghost use Rattle.jdwp_layout.specs.Shapes.{ItemShape};
ghost use Rattle.jdwp_layout.specs.Meanings.{DatumMeaning};
ghost use Rattle.jdwp_layout.specs.Grammar.{EncodesData, DataFaults};
ghost use Rattle.jdwp_layout.specs.Reads.{data_at};
ghost use Rattle.jdwp_layout.specs.Writes.{data_refusal};

/// What is encoded, and so what `write` writes, is read again.
pub fn reads_what_is_encoded()
    ensures { (w : Widths) (items : List ItemShape) (xs : List DatumMeaning) (code : List ℕ)
        → EncodesData w items xs code → data_at w items code ≡ Ok xs }
{}

/// What is read is encoded.
pub fn reads_only_encoded()
    ensures { (w : Widths) (items : List ItemShape) (bytes : List ℕ) (xs : List DatumMeaning)
        → IsBytes bytes → data_at w items bytes ≡ Ok xs → EncodesData w items xs bytes }
{}

/// Bytes encode at most one list of data under a layout.
pub fn encodes_one_list()
    ensures { (w : Widths) (items : List ItemShape) (xs ys : List DatumMeaning) (code : List ℕ)
        → EncodesData w items xs code → EncodesData w items ys code → xs ≡ ys }
{}

/// What is encoded, and so what `read` reads, is not refused by `write`.
pub fn writes_what_is_encoded()
    ensures { (w : Widths) (items : List ItemShape) (xs : List DatumMeaning) (code : List ℕ)
        → EncodesData w items xs code → data_refusal w items xs ≡ None }
{}

/// A fault is answered exactly where it is the first from the left.
pub fn answers_first_fault()
    ensures blamed { (w : Widths) (items : List ItemShape) (bytes : List ℕ) (f : DataFault)
        → IsBytes bytes → data_at w items bytes ≡ Err f → DataFaults w items bytes f }
    ensures judged { (w : Widths) (items : List ItemShape) (bytes : List ℕ) (f : DataFault)
        → DataFaults w items bytes f → data_at w items bytes ≡ Err f }
{}
