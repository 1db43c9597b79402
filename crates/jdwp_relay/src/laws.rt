//! Laws: each function says what holds, in its contract, and does nothing; to call it is to cite it.
ghost use Rattle.std.specs.Prelude.{◌≡◌, All, List, None};
ghost use Rattle.jdwp_show.specs.Lines.{Line, bad_line, capture_of};
ghost use Rattle.jdwp_relay.specs.LineText.{IsLine, lines_text};

/// Lines that are written, each of some bytes, are read again by `show` and `check` as just those lines.
pub fn lines_read_again()
    ensures lines { (lines : List Line) → All IsLine lines → capture_of (lines_text lines) ≡ lines }
    ensures none_bad { (lines : List Line) → All IsLine lines → bad_line (lines_text lines) ≡ None }
{}
