//! A law on printed lines, over the definitions alone: the contract of a function without a body.

ghost use Rattle.std.specs.Prelude.{◌≡◌};
ghost use Rattle.report_text.specs.Held.{IsHappening};
ghost use Rattle.report_text.specs.Lines.{line_of};
ghost use Rattle.report_text.specs.declared.happening.Happening.{Happening};

/// No two happenings print one line.
pub fn one_line_tells_one_happening()
    ensures { (one other : Happening) → IsHappening one → IsHappening other
        → line_of one ≡ line_of other → one ≡ other }
{}
