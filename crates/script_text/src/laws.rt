//! Laws on what is read of lines, over the definitions alone: each is the contract of a function without a body.

ghost use Rattle.std.specs.Prelude.{◌≡◌, ℕ, List, Some, Ok};
ghost use Rattle.script_text.specs.Rows.{read_of};
ghost use Rattle.script_text.specs.Written.{text_of_line};
ghost use Rattle.script_text.specs.declared.line.Line.{Line};

/// A line is read from the text that writes it, and from no other, so that each line has one text.
pub fn only_written_lines_are_read()
    ensures { (text : List ℕ) (line : Line) → read_of text ≡ Ok (Some line)
        → text_of_line line ≡ text }
{}
