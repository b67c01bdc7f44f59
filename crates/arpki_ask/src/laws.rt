//! Laws on what is read, over the definitions alone: each is the contract of a function without a body.

ghost use Rattle.std.specs.Prelude.{◌≡◌, ℕ, List, Ok};
ghost use Rattle.arpki_ask.specs.Inquiries.{Inquiry, inquiry_at};
ghost use Rattle.ar_lines.specs.Lines.{lines_of};
ghost use Rattle.ar_lines.specs.Readings.{start_of_lines};
ghost use Rattle.arpki_ask.specs.Questions.{Question, question_at};
ghost use Rattle.arpki_ask.specs.Written.{Asking, IsAsking, IsLearnt, IsQuestion, inquiry_lines, inquiry_text, question_lines, question_text};

/// A question that is written is read as just this question.
pub fn a_question_is_read_as_it_is_written()
    ensures { (question : Question) → IsQuestion question
        → question_at (start_of_lines (question_text question)) ≡ Ok question }
{}

/// A question is read from the lines that write it, and from no others.
pub fn only_written_questions_are_read()
    ensures { (input : List ℕ) (question : Question)
        → question_at (start_of_lines input) ≡ Ok question
        → lines_of input ≡ question_lines question }
{}

/// An inquiry that is written is read as just this inquiry.
pub fn an_inquiry_is_read_as_it_is_written()
    ensures { (asking : Asking) → IsAsking asking
        → inquiry_at (start_of_lines (inquiry_text asking)) ≡ Ok asking.inquiry }
{}

/// An inquiry is read from the lines that write it, and from no others.
pub fn only_written_inquiries_are_read()
    ensures { (input : List ℕ) (inquiry : Inquiry) → inquiry_at (start_of_lines input) ≡ Ok inquiry
        → (asking : Asking) × (IsLearnt asking
        × ((lines_of input ≡ inquiry_lines asking) × (asking.inquiry ≡ inquiry))) }
{}
