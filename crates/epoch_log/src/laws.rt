//! Laws on the definitions of `specs/`: each is the contract of a function with an empty body.
ghost use Rattle.std.specs.Prelude.{◌≡◌, ◌↔◌, ◌⊎◌, ◌<◌, ◌^◌, ◌==◌, ℕ, true, false, List, [], ◌∷◌, Option, Some, All, Contains, IfSome};
ghost use Rattle.std.specs.List.{list_any};
ghost use Rattle.ar_cert.specs.Changes.{Change};
ghost use Rattle.ar_statement.specs.Claims.{text_of};
ghost use Rattle.ar_statement.specs.Ranges.{IsValid, IsValue};
ghost use Rattle.ar_statement.specs.declared.party.Party.{Party};
ghost use Rattle.key_roll.specs.Book.{texts_of};
ghost use Rattle.key_roll.specs.Entry.{MayRoll};
ghost use Rattle.vote_quorum.specs.Ballots.{has_ballot, log_count};
ghost use Rattle.vote_quorum.specs.Statuses.{Excludes, Status};
ghost use Rattle.vote_quorum.specs.declared.value.Value.{Value};
ghost use Rattle.domain_table.specs.Applying.{apply};
ghost use Rattle.domain_table.specs.Tables.{Table};
ghost use Rattle.ar_council.specs.Council.{Council, IsMember};
ghost use Rattle.ar_council.specs.Room.{HasRoom};
ghost use Rattle.ar_council.specs.Values.{confirm_claim, status_claim, vote_claim};
ghost use Rattle.epoch_log.specs.Calls.{AreEndorsers, IsProposed, IsTurn, MayConfirm, MayDecide, MaySkip, MayState, MayVote, SignedStatus, after_ballot, after_confirm, after_decide, after_endorsed, after_learn, after_propose, after_roll, after_skip, after_state, after_status_seen, after_vote, confirmation_text, fresh, own_status_text, own_vote_text, proposal_texts, with_status, with_vote};
ghost use Rattle.epoch_log.specs.Ending.{closed, decided, excludes_all, may_end, own_vote, skipped};
ghost use Rattle.epoch_log.specs.Honest.{EndsInOrder, IsOfHonestLog};
ghost use Rattle.epoch_log.specs.Later.{LogGrows};
ghost use Rattle.epoch_log.specs.Record.{LogRecord};
ghost use Rattle.epoch_log.specs.Right.{SawEndorsements};
ghost use Rattle.epoch_log.specs.State.{CountedStatus, CountedVote, IsKeptLog, LogState, SeesMore, ballots_of, epoch_of, reports_of, table_of};
ghost use Rattle.epoch_log.specs.Told.{HasConfirmed, HasStated, HasVoted, value_of};
ghost use Rattle.epoch_log.specs.declared.entries.Closing.TheVariants as closings;
ghost use Rattle.epoch_log.specs.declared.entries.Newest.{Newest};
ghost use Rattle.epoch_log.specs.declared.entries.Voted.{Voted};
ghost use Rattle.party_keys.specs.Learning.{Announced};

/// A log that has done nothing yet is kept: its record is an honest log's.
pub fn a_fresh_log_is_kept()
    ensures { (me : ℕ) (council : Council) (leaves : ℕ) → me < 2 ^ 16 → 0 < leaves
        → IsKeptLog (fresh me council leaves) }
{}

/// A log is kept where it queues a change of which authorities of the council endorse, and has then seen its endorsements.
pub fn a_queued_change_keeps_a_log()
    ensures kept { (s : LogState) (change : Change) → IsKeptLog s → AreEndorsers s.council change
        → IsKeptLog (after_endorsed s change) }
    ensures endorsed { (s : LogState) (change : Change)
        → SawEndorsements (after_endorsed s change).past.seen change }
{}

/// What a log saw stays so, whatever it does; a confirmation and its own next key leave it as it is.
pub fn what_was_seen_stays_so()
    ensures change { (s : LogState) (change : Change) → SeesMore s (after_endorsed s change) }
    ensures vote { (s : LogState) (proposer : ℕ) (value : Value) (changes : List Change)
        → SeesMore s (after_vote s proposer value changes) }
    ensures proposal { (s : LogState) (value : Value) (changes : List Change)
        → SeesMore s (after_propose s value changes).0 }
    ensures ballot { (s : LogState) (log : ℕ) (value : Value) (signature : List ℕ)
        → SeesMore s (after_ballot s log value signature).0 }
    ensures own { (s : LogState) → SeesMore s (after_state s).0 }
    ensures status { (s : LogState) (log : ℕ) (value : Option Value) (signature : Option (List ℕ))
        → SeesMore s (after_status_seen s log value signature).0 }
    ensures decision { (s : LogState) (value : Value) (changes : List Change)
        (votes : List (ℕ × List ℕ)) → SeesMore s (after_decide s value changes votes) }
    ensures skip { (s : LogState) (statuses : List SignedStatus)
        → SeesMore s (after_skip s statuses) }
    ensures learn { (s : LogState) (a : Announced) → SeesMore s (after_learn s a) }
{}

/// Whatever a log does, its record only grows: what it saw, signed, voted, stated, ended and confirmed stays as it was, and
/// what is new stands behind it.
pub fn a_record_only_grows()
    ensures change { (s : LogState) (change : Change)
        → LogGrows s.past (after_endorsed s change).past }
    ensures vote { (s : LogState) (proposer : ℕ) (value : Value) (changes : List Change)
        → LogGrows s.past (after_vote s proposer value changes).past }
    ensures proposal { (s : LogState) (value : Value) (changes : List Change)
        → LogGrows s.past (after_propose s value changes).0.past }
    ensures ballot { (s : LogState) (log : ℕ) (value : Value) (signature : List ℕ)
        → LogGrows s.past (after_ballot s log value signature).0.past }
    ensures own { (s : LogState) → LogGrows s.past (after_state s).0.past }
    ensures status { (s : LogState) (log : ℕ) (value : Option Value) (signature : Option (List ℕ))
        → LogGrows s.past (after_status_seen s log value signature).0.past }
    ensures decision { (s : LogState) (value : Value) (changes : List Change)
        (votes : List (ℕ × List ℕ))
        → LogGrows s.past (after_decide s value changes votes).past }
    ensures skip { (s : LogState) (statuses : List SignedStatus)
        → LogGrows s.past (after_skip s statuses).past }
    ensures confirmation { (s : LogState) (w : Newest) (name : List ℕ)
        → LogGrows s.past (after_confirm s w name).past }
    ensures learn { (s : LogState) (a : Announced) → LogGrows s.past (after_learn s a).past }
    ensures roll { (s : LogState) (key : List ℕ) → LogGrows s.past (after_roll s key).past }
    ensures on { (r later last : LogRecord) → LogGrows r later → LogGrows later last
        → LogGrows r last }
{}

/// A log is kept where it votes for a proposal as it may, and has a leaf for its vote.
pub fn a_vote_keeps_a_log()
    ensures { (s : LogState) (proposer : ℕ) (value : Value) (changes : List Change) → IsKeptLog s
        → MayVote s value changes
        → IsProposed s proposer changes → HasRoom s.past.signed (own_vote_text s value ∷ [])
        → IsKeptLog (after_vote s proposer value changes) }
{}

/// A log is kept where it proposes in its turn, as it may vote, changes whose endorsements it saw, and has leaves for the
/// proposal and its vote; also where the epoch ends with it.
pub fn a_proposal_keeps_a_log()
    ensures { (s : LogState) (value : Value) (changes : List Change) → IsKeptLog s
        → IsTurn s.council s.me (epoch_of s)
        → MayVote s value changes → All (SawEndorsements s.past.seen) changes
        → HasRoom s.past.signed (proposal_texts s value)
        → IsKeptLog (after_propose s value changes).0 }
{}

/// A log is kept where it counts a ballot of a log of the council; also where the epoch ends with it.
pub fn a_ballot_keeps_a_log()
    ensures { (s : LogState) (log : ℕ) (value : Value) (signature : List ℕ) → IsKeptLog s
        → log < s.council.logs
        → IsKeptLog (after_ballot s log value signature).0 }
{}

/// A log is kept where it states what it did in the epoch, and has a leaf for that; also where the epoch ends with it.
pub fn an_own_status_keeps_a_log()
    ensures { (s : LogState) → IsKeptLog s → MayState s
        → HasRoom s.past.signed (own_status_text s ∷ []) → IsKeptLog (after_state s).0 }
{}

/// A log is kept where it counts a status of a log of the council; also where the epoch ends with it.
pub fn a_status_keeps_a_log()
    ensures { (s : LogState) (log : ℕ) (value : Option Value) (signature : Option (List ℕ))
        → IsKeptLog s → log < s.council.logs
        → IfSome value IsValue → IsKeptLog (after_status_seen s log value signature).0 }
{}

/// A log is kept where it ends the epoch as decided, as it may.
pub fn a_decision_keeps_a_log()
    ensures { (s : LogState) (value : Value) (changes : List Change) (votes : List (ℕ × List ℕ))
        → IsKeptLog s
        → MayDecide s value changes votes → IsKeptLog (after_decide s value changes votes) }
{}

/// A log is kept where it ends the epoch as skipped, as it may.
pub fn a_skip_keeps_a_log()
    ensures { (s : LogState) (statuses : List SignedStatus) → IsKeptLog s → MaySkip s statuses
        → IsKeptLog (after_skip s statuses) }
{}

/// A log is kept where it confirms, by its newest decision, what a name has, and has a leaf for that.
pub fn a_confirmation_keeps_a_log()
    ensures { (s : LogState) (w : Newest) (name : List ℕ) → IsKeptLog s → MayConfirm s w name
        → HasRoom s.past.signed (confirmation_text s w name ∷ [])
        → IsKeptLog (after_confirm s w name) }
{}

/// A log is kept where it sees the Roll of a party of the council, and where it announces its own next key.
pub fn rolls_keep_a_log()
    ensures learn { (s : LogState) (a : Announced) → IsKeptLog s → IsMember s.council a.party
        → IsKeptLog (after_learn s a) }
    ensures roll { (s : LogState) (key : List ℕ) → IsKeptLog s → MayRoll s.past.signed key
        → IsKeptLog (after_roll s key) }
{}

/// An honest log signed a vote, a status or a confirmation, of those that are valid, exactly where its record has the
/// entry with these fields.
pub fn what_is_signed_is_told()
    ensures votes { (council : Council) (me : ℕ) (r : LogRecord) (epoch : ℕ) (value : Value)
        → IsOfHonestLog council me r
        → IsValid (vote_claim me epoch value)
        → Contains (texts_of r.signed) (text_of (vote_claim me epoch value))
        ↔ HasVoted r.voted epoch value }
    ensures statuses { (council : Council) (me : ℕ) (r : LogRecord) (epoch : ℕ)
        (value : Option Value) → IsOfHonestLog council me r
        → IsValid (status_claim me epoch value)
        → Contains (texts_of r.signed) (text_of (status_claim me epoch value))
        ↔ HasStated r.stated epoch value }
    ensures confirmations { (council : Council) (me : ℕ) (r : LogRecord) (epoch : ℕ) (name : List ℕ)
        (certificate : Option (List ℕ)) (root : List ℕ)
        → IsOfHonestLog council me r → IsValid (confirm_claim me epoch name certificate root)
        → Contains (texts_of r.signed) (text_of (confirm_claim me epoch name certificate root))
        ↔ HasConfirmed r.confirmed epoch name certificate root }
{}

/// An honest log votes for one value in an epoch, and what it states of an epoch in which it voted is what it voted for.
pub fn an_honest_log_tells_one_thing()
    ensures votes { (council : Council) (me : ℕ) (r : LogRecord) (epoch : ℕ) (value other : Value)
        → IsOfHonestLog council me r
        → HasVoted r.voted epoch value → HasVoted r.voted epoch other → value ≡ other }
    ensures status { (council : Council) (me : ℕ) (r : LogRecord) (epoch : ℕ) (value : Option Value)
        (cast : Value) → IsOfHonestLog council me r
        → HasStated r.stated epoch value → HasVoted r.voted epoch cast → value ≡ Some cast }
{}

/// A decided epoch leaves the table to which its changes apply, and a skipped one leaves the table as it is.
pub fn an_ending_makes_the_table()
    ensures decided { (s : LogState) (changes : List Change) (value : Value)
        (votes : List (ℕ × Option (List ℕ))) (table : Table)
        → EndsInOrder s.past.ended → apply (table_of s) (epoch_of s) changes ≡ Some table
        → table_of (decided s changes value votes) ≡ table }
    ensures skipped { (s : LogState) (statuses : List Status) → EndsInOrder s.past.ended
        → table_of (skipped s statuses) ≡ table_of s }
{}

/// The statuses exclude each root exactly where the test of those that are reported, and of none, says so.
pub fn a_test_excludes_each_root()
    ensures { (council : Council) (statuses : List Status)
        → (excludes_all council statuses ≡ true) ↔ Excludes council.logs council.quorum statuses }
{}

/// Where the closing rule leaves an epoch open that may end, no quorum is counted for what the log voted for, and the
/// counted statuses leave a root.
pub fn an_open_epoch_has_no_quorum()
    ensures quorum { (s : LogState) (v : Voted) → may_end s.past ≡ true
        → (closed s).1 ≡ closings.Open
        → own_vote s.past.voted (epoch_of s) ≡ Some v
        → log_count (ballots_of s.votes) (value_of v) < s.council.quorum }
    ensures excludes { (s : LogState) → may_end s.past ≡ true → (closed s).1 ≡ closings.Open
        → Excludes s.council.logs s.council.quorum (reports_of s.statuses) → ⊥ }
{}

/// A ballot is counted behind the others unless this log's ballot for this value is, and then nothing changes; a status
/// is counted unless one of this log is. What was counted stays so, and nothing else comes.
pub fn each_is_counted_once()
    ensures vote { (votes : List CountedVote) (v x : CountedVote)
        → has_ballot (ballots_of votes) (v.0, v.1) ≡ false
        → Contains (with_vote votes v) x ↔ (Contains votes x ⊎ (v ≡ x)) }
    ensures vote_again { (votes : List CountedVote) (v : CountedVote)
        → has_ballot (ballots_of votes) (v.0, v.1) ≡ true
        → with_vote votes v ≡ votes }
    ensures status { (statuses : List CountedStatus) (s x : CountedStatus)
        → list_any (λ t. t.0 == s.0) statuses ≡ false
        → Contains (with_status statuses s) x ↔ (Contains statuses x ⊎ (s ≡ x)) }
    ensures status_again { (statuses : List CountedStatus) (s : CountedStatus)
        → list_any (λ t. t.0 == s.0) statuses ≡ true
        → with_status statuses s ≡ statuses }
{}
