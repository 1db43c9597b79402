//! Laws: each function says what holds, in its contract, and does nothing; to call it is to cite it.
ghost use Rattle.std.specs.Prelude.{◌≡◌, ℕ, List, [], ◌++◌, Some, None};
ghost use Rattle.jdwp_judge.specs.CaptureJudges.{told_text, fault_so_far, unfinished};
ghost use Rattle.jdwp_judge.specs.Told.{told_under, told_fault_under, whole_under, whole_fault_under};
ghost use Rattle.jdwp_show.specs.CaptureLines.{capture_lines_under};
ghost use Rattle.jdwp_show.specs.Lines.{Line, capture_of, bad_line};
ghost use Rattle.jdwp_show.specs.Sessions.{first_fault_under};
ghost use Rattle.jdwp_show.specs.declared.capture_fault.CaptureFault.{CaptureFault};
ghost use Rattle.jdwp_show.specs.declared.table.Table.{Table};

/// What is told of a session is a beginning of what is told of it with more pieces, and of what `show` says of it if it ends here. A fault that
/// is told is the first fault of both.
pub fn tells_beginnings()
    ensures goes_on { (table : Table) (pieces more : List Line) → (rest : List ℕ)
        × (told_under table (pieces ++ more) ≡ told_under table pieces ++ rest) }
    ensures ends { (table : Table) (pieces : List Line) → (rest : List ℕ)
        × (whole_under table pieces ≡ told_under table pieces ++ rest) }
    ensures fault_goes_on { (table : Table) (pieces more : List Line) (place : ℕ × CaptureFault)
        → told_fault_under table pieces ≡ Some place
        → told_fault_under table (pieces ++ more) ≡ Some place }
    ensures fault_ends { (table : Table) (pieces : List Line) (place : ℕ × CaptureFault)
        → told_fault_under table pieces ≡ Some place
        → whole_fault_under table pieces ≡ Some place }
{}

/// The whole is what `show` says of a capture each line of which reads, where its lines are the pieces.
pub fn says_what_show_says()
    ensures lines { (table : Table) (text : List ℕ) → bad_line text ≡ None
        → whole_under table (capture_of text) ≡ capture_lines_under table text }
    ensures fault { (table : Table) (text : List ℕ) → bad_line text ≡ None
        → whole_fault_under table (capture_of text) ≡ first_fault_under table text }
{}

/// What is told of the text of a capture is a beginning of what is told of it with more behind it, and of what `show` says of it if it ends here.
pub fn tells_beginnings_of_text()
    ensures goes_on { (table : Table) (text more : List ℕ) → (rest : List ℕ)
        × (told_text table (text ++ more) ≡ told_text table text ++ rest) }
    ensures ends { (table : Table) (text : List ℕ) → (rest : List ℕ)
        × (capture_lines_under table text ≡ told_text table text ++ rest) }
{}

/// Where the first fault of a capture's text is known, each line of the text is whole and each line of it with more behind it reads, then what
/// `show` says of the text with more behind it is what it says of the text, lines and fault.
pub fn a_fault_ends_what_is_told()
    ensures fault { (table : Table) (text more : List ℕ) (place : ℕ × CaptureFault)
        → fault_so_far table text ≡ Some place
        → unfinished text ≡ []
        → bad_line (text ++ more) ≡ None
        → (first_fault_under table (text ++ more) ≡ Some place)
        × (first_fault_under table text ≡ Some place) }
    ensures lines { (table : Table) (text more : List ℕ) (place : ℕ × CaptureFault)
        → fault_so_far table text ≡ Some place
        → unfinished text ≡ []
        → bad_line (text ++ more) ≡ None
        → capture_lines_under table (text ++ more) ≡ capture_lines_under table text }
{}
