//! Laws on what parties are asked and what they write, over the definitions alone: each is the contract of a function that does
//! nothing.

ghost use Rattle.std.specs.Prelude.{◌≡◌, ◌≢◌, ◌∷◌, [], ℕ, List, Some, Ok, codes};
ghost use Rattle.ar_lines.specs.Lines.{lines_of, words_of};
ghost use Rattle.ar_message.specs.Sending.{Letter};
ghost use Rattle.ar_statement.specs.Claims.{authority_party, log_party};
ghost use Rattle.authority_keeper.specs.Keeping as authority;
ghost use Rattle.authority_keeper.specs.Keeping.{AuthorityStanding};
ghost use Rattle.authority_keeper.specs.declared.order.AuthorityOrder.{AuthorityOrder};
ghost use Rattle.authority_keeper.specs.declared.order.AuthorityOrder.TheVariants as authority_orders;
ghost use Rattle.hex.specs.Hex.{IsBytes, encode_lower};
ghost use Rattle.log_journal.specs.Steps.{LogStanding};
ghost use Rattle.log_keeper.specs.Keeping as log;
ghost use Rattle.log_keeper.specs.declared.order.LogOrder.{LogOrder};
ghost use Rattle.log_keeper.specs.declared.order.LogOrder.TheVariants as log_orders;
ghost use Rattle.owner_keeper.specs.Keeping as owner;
ghost use Rattle.owner_keeper.specs.Keeping.{OwnerStanding};
ghost use Rattle.owner_keeper.specs.declared.order.OwnerOrder.{OwnerOrder};
ghost use Rattle.owner_keeper.specs.declared.order.OwnerOrder.TheVariants as owner_orders;
ghost use Rattle.party_desk.specs.Asking.{LessonWords, authority_asked, heard_in, log_asked};
ghost use Rattle.party_desk.specs.Owners.{owner_asked};
ghost use Rattle.party_desk.specs.Telling.{address_text, letter_line};
ghost use Rattle.party_desk.specs.Written.{IsLesson, IsLetter, lesson_text, order_text};
ghost use Rattle.party_desk.specs.declared.reading.Heard.TheVariants as heard;

/// Where a party stands so, its journal has at most one text of what it is asked.
pub fn an_order_has_one_text()
    ensures log { (party : LogStanding) (order : LogOrder) (text other : List ℕ)
        → log.says party order text → log.says party order other → text ≡ other }
    ensures authority { (party : AuthorityStanding) (order : AuthorityOrder) (text other : List ℕ)
        → authority.says party order text → authority.says party order other → text ≡ other }
    ensures owner { (party : OwnerStanding) (order : OwnerOrder) (text other : List ℕ)
        → owner.says party order text → owner.says party order other → text ≡ other }
{}

/// A line that is some bytes in hex asks every party to take the message with these bytes, and nothing else, whatever they are: so
/// what comes in hex is no order. And no other line is a message.
pub fn hex_is_a_message()
    ensures log { (number : ℕ) (bytes : List ℕ) → IsBytes bytes → bytes ≢ []
        → log_asked number (encode_lower bytes) ≡ Ok (Some (log_orders.Take bytes)) }
    ensures authority { (number : ℕ) (bytes : List ℕ) → IsBytes bytes → bytes ≢ []
        → authority_asked number (encode_lower bytes) ≡ Ok (Some (authority_orders.Take bytes)) }
    ensures owner { (party : OwnerStanding) (bytes : List ℕ) → IsBytes bytes → bytes ≢ []
        → owner_asked party (encode_lower bytes) ≡ Ok (Some (owner_orders.Take bytes)) }
    ensures alone { (line bytes : List ℕ) → heard_in line ≡ Ok (heard.Message bytes)
        → line ≡ encode_lower bytes }
{}

/// What is written of a letter is one line of three words, of which the last is the hex of its bytes, and no other letter's.
pub fn a_letter_has_a_line_of_its_own()
    ensures words { (letter : Letter) → IsLetter letter → (line : List ℕ)
        × (lines_of (letter_line letter) ≡ line ∷ [])
        × (words_of line
        ≡ codes "send" ∷ address_text letter.to ∷ encode_lower letter.bytes ∷ []) }
    ensures alone { (one other : Letter) → IsLetter one → IsLetter other
        → letter_line one ≡ letter_line other → one ≡ other }
{}

/// What is written of a lesson is read as just this lesson, by the authority that it names.
pub fn a_lesson_is_read_as_it_is_written()
    ensures teach { (said : LessonWords) → IsLesson said
        → authority_asked said.authority (lesson_text (codes "teach") said)
        ≡ Ok (Some (authority_orders.Learn said.name said.key)) }
    ensures forget { (said : LessonWords) → IsLesson said
        → authority_asked said.authority (lesson_text (codes "forget") said)
        ≡ Ok (Some (authority_orders.Forget said.name said.key)) }
{}

/// No other line has an authority learn that a name has a key, or forget it.
pub fn only_written_lessons_are_read()
    ensures teach { (number : ℕ) (line name key : List ℕ)
        → authority_asked number line ≡ Ok (Some (authority_orders.Learn name key))
        → line ≡ lesson_text (codes "teach")
        (record { authority = number; name = name; key = key }) }
    ensures forget { (number : ℕ) (line name key : List ℕ)
        → authority_asked number line ≡ Ok (Some (authority_orders.Forget name key))
        → line ≡ lesson_text (codes "forget")
        (record { authority = number; name = name; key = key }) }
{}

/// No other line has a log propose, say that it passes or go on to its next key, or an authority go on to its next key or retire.
pub fn only_written_orders_are_read()
    ensures propose { (number : ℕ) (line : List ℕ)
        → log_asked number line ≡ Ok (Some log_orders.Propose)
        → line ≡ order_text (codes "propose") (log_party number) }
    ensures pass { (number : ℕ) (line : List ℕ)
        → log_asked number line ≡ Ok (Some log_orders.Pass)
        → line ≡ order_text (codes "pass") (log_party number) }
    ensures log_roll { (number : ℕ) (line : List ℕ)
        → log_asked number line ≡ Ok (Some log_orders.Roll)
        → line ≡ order_text (codes "roll") (log_party number) }
    ensures authority_roll { (number : ℕ) (line : List ℕ)
        → authority_asked number line ≡ Ok (Some authority_orders.Roll)
        → line ≡ order_text (codes "roll") (authority_party number) }
    ensures retire { (number : ℕ) (line : List ℕ)
        → authority_asked number line ≡ Ok (Some authority_orders.Retire)
        → line ≡ order_text (codes "retire") (authority_party number) }
{}
