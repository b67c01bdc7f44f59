//! Laws on the rows, over the definitions alone: each is the contract of a function with an empty body.
ghost use Rattle.std.specs.Prelude.{◌≡◌, ◌≤◌, ◌++◌, ◌∷◌, List, ℕ, All, AllPairs, Some, Ok, Err, length, filter, flat_map, not};
ghost use Rattle.key_roll.specs.Entry.{due_of};
ghost use Rattle.key_roll.specs.Later.{IsServed};
ghost use Rattle.key_roll.specs.Ring.{AreKeysOf};
ghost use Rattle.epoch_log.specs.Later.{LogGrows};
ghost use Rattle.ar_cert.specs.Changes.{Change, IsChange};
ghost use Rattle.party_keys.specs.Signers.{Claimed};
ghost use Rattle.ar_message.specs.Filling.{CanFill};
ghost use Rattle.ar_message.specs.declared.lists.LogStatus.{LogStatus};
ghost use Rattle.lms_tree.specs.KeyParts.{KeyParts};
ghost use Rattle.lms_tree.specs.declared.public_key.LmsPublic.{LmsPublic};
ghost use Rattle.domain_table.specs.Applying.{apply};
ghost use Rattle.domain_table.specs.Tables.{Table};
ghost use Rattle.domain_table.specs.Tree.{root_of};
ghost use Rattle.epoch_log.specs.State.{epoch_of, table_of};
ghost use Rattle.log_sending.specs.Blanks.{IsZero, LiesBefore};
ghost use Rattle.log_sending.specs.Checks.{Check};
ghost use Rattle.log_core.specs.Steps.{given};
ghost use Rattle.log_core.specs.Kept.{IsKeptCore};
ghost use Rattle.log_core.specs.Rolling.{rolling_row};
ghost use Rattle.log_core.specs.Row.{IsLogInput, row};
ghost use Rattle.log_core.specs.Claimed.{SeesClaims, claims_of};
ghost use Rattle.log_core.specs.Sees.{SeesVerified};
ghost use Rattle.ar_claims.specs.Lists.{endorsements_in};
ghost use Rattle.log_sending.specs.Signers.{signers};
ghost use Rattle.log_core.specs.Skipped.{skip_row};
ghost use Rattle.ar_message.specs.Messages.{longest};
ghost use Rattle.log_core.specs.State.{CoreState, Input, LogStep, most_sent, takes};
ghost use Rattle.log_sending.specs.Queued.{is_queued};
ghost use Rattle.log_sending.specs.Walk.{StandIn, bytes_of};
ghost use Rattle.log_core.specs.Proposing.{proposal, proposed_value};
ghost use Rattle.log_sending.specs.declared.refusal.LogRefusal.{LogRefusal};

/// The first check of a row that refuses is its answer, whatever stands behind it; where none does, the answer is what the
/// step makes.
pub fn the_first_refusal_is_the_answer()
    ensures refused { (holding behind : List Check) (refusal : LogRefusal) (reply : LogStep)
        → All (λ c. c ≡ Ok tt) holding
        → given (holding ++ Err refusal ∷ behind) reply ≡ Err refusal }
    ensures made { (checks : List Check) (reply : LogStep) → All (λ c. c ≡ Ok tt) checks
        → given checks reply ≡ Ok reply }
{}

/// What a log proposes are changes of its queue, in their order, that its table takes one behind the other, from its root
/// to the one that is proposed; there are at most 64, whose texts have at most 4,000,000 bytes.
pub fn a_proposal_is_of_the_queue()
    ensures applies { (s : CoreState)
        → (after : Table) × (apply (table_of s.log) (epoch_of s.log) (proposal s) ≡ Some after)
        × (root_of after ≡ (proposed_value s).root) }
    ensures base { (s : CoreState) → (proposed_value s).base ≡ root_of (table_of s.log) }
    ensures in_order { (s : CoreState) → StandIn (proposal s) s.queue }
    ensures few { (s : CoreState) → length (proposal s) ≤ 64 }
    ensures short { (s : CoreState) → bytes_of (proposal s) ≤ 4000000 }
{}

/// A skip that another log tells of leaves the table as it is, also what is ripe in it, and the queue.
pub fn a_skip_leaves_table_and_queue()
    ensures { (s : CoreState) (epoch : ℕ) (statuses : List LogStatus) (reply : LogStep)
        → IsKeptCore s
        → skip_row s epoch statuses ≡ Ok reply
        → (table_of reply.after.log ≡ table_of s.log) × (reply.after.queue ≡ s.queue) }
{}

/// Whatever a log is asked, what is kept of it stays: its record is an honest log's, what it counts was seen, and the
/// endorsements of each queued change were seen and are valid.
pub fn each_row_keeps_a_log()
    ensures { (s : CoreState) (input : Input) (reply : LogStep) → IsKeptCore s → IsLogInput input
        → row s input ≡ Ok reply → IsKeptCore reply.after }
{}

/// Whatever a log is asked, its record only grows: what it saw, signed, voted, stated, ended and confirmed
/// stays as it was, and what is new stands behind it.
pub fn each_row_only_adds()
    ensures { (s : CoreState) (input : Input) (reply : LogStep) → row s input ≡ Ok reply
        → LogGrows s.log.past reply.after.log.past }
{}

/// Each signature of its own that a log sends is that of a generation and a leaf that serve its text in the
/// book behind the step, and is what that book has due for the text.
pub fn each_own_signature_is_of_the_book()
    ensures served { (s : CoreState) (input : Input) (reply : LogStep) → row s input ≡ Ok reply
        → All (λ blank. IsServed reply.after.log.past.signed blank.due) reply.unsigned.blanks }
    ensures due { (s : CoreState) (input : Input) (reply : LogStep) → row s input ≡ Ok reply
        → All (λ blank. due_of reply.after.log.past.signed blank.due.text ≡ Some blank.due)
        reply.unsigned.blanks }
{}

/// Whatever a log newly sees it has verified under its directory: there is a signature by the party that the step accepted;
/// or it is the log's own, which it counts at once.
pub fn what_is_newly_seen_was_verified()
    ensures { (s : CoreState) (input : Input) (reply : LogStep) → row s input ≡ Ok reply
        → SeesVerified s.keys s.log.me s.log.past.seen reply.after.log.past.seen }
{}

/// Whatever a log newly sees stands in the bytes that it takes, with a signature that it verified under the keys that it
/// knew; or it is the log's own, which it counts at once, and stands in the log's book.
pub fn what_is_newly_seen_was_claimed()
    ensures { (s : CoreState) (input : Input) (reply : LogStep) → row s input ≡ Ok reply
        → SeesClaims s.keys s.log.me reply.after.log.past.signed (claims_of input)
        s.log.past.seen reply.after.log.past.seen }
{}

/// The endorsements of queued changes were verified when these were queued, and stay valid: a message's signers are accepted,
/// or the same one is refused, where those of its queued changes are left out.
pub fn queued_endorsements_need_no_second_look()
    ensures { (s : CoreState) (front : List Claimed) (changes : List Change) → IsKeptCore s
        → All IsChange changes
        → signers s.keys (front ++ flat_map endorsements_in changes)
        ≡ signers s.keys (front
        ++ flat_map endorsements_in
        (filter (λ change. not (is_queued s.queue change)) changes)) }
{}

/// Where a signature of the log's own is due a message has zero bytes, as many as the signature has.
pub fn each_own_signature_is_zero_bytes()
    ensures { (s : CoreState) (input : Input) (reply : LogStep) → row s input ≡ Ok reply
        → All (IsZero reply.after.signature_len reply.unsigned.sent.messages)
        reply.unsigned.blanks }
{}

/// No two signatures of the log's own have a byte in common: they stand in different messages, or one behind the other.
pub fn own_signatures_are_apart()
    ensures { (s : CoreState) (input : Input) (reply : LogStep) → row s input ≡ Ok reply
        → AllPairs (LiesBefore reply.after.signature_len) reply.unsigned.blanks }
{}

/// What a step leaves blank the log's keys can sign: those of each generation up to the newest of its book.
pub fn each_step_can_be_signed()
    ensures { (s : CoreState) (input : Input) (reply : LogStep) (keys : List KeyParts)
        → IsKeptCore s
        → IsLogInput input → row s input ≡ Ok reply
        → AreKeysOf reply.after.log.past.signed reply.after.signature_len keys
        → CanFill keys reply.unsigned }
{}

/// A step sends at most two messages.
pub fn each_step_sends_few()
    ensures step { (s : CoreState) (input : Input) (reply : LogStep) → row s input ≡ Ok reply
        → length reply.unsigned.sent.messages ≤ most_sent }
    ensures roll { (s : CoreState) (key : LmsPublic) (reply : LogStep)
        → rolling_row s key ≡ Ok reply
        → length reply.unsigned.sent.messages ≤ most_sent }
{}

/// Whatever a log is asked, it stays the log with its number, of the same council.
pub fn each_row_keeps_number_and_council()
    ensures { (s : CoreState) (input : Input) (reply : LogStep) → row s input ≡ Ok reply
        → (reply.after.log.me ≡ s.log.me) × (reply.after.log.council ≡ s.log.council) }
{}

/// A log takes no message of more than 4,194,304 bytes.
pub fn no_long_message_is_taken()
    ensures { (s : CoreState) (bytes : List ℕ) (reply : LogStep) → row s (takes bytes) ≡ Ok reply
        → length bytes ≤ longest }
{}
