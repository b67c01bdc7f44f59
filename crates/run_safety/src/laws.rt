//! Laws on runs: each is the contract of a function with an empty body.
ghost use Rattle.std.specs.Prelude.{◌≡◌, ◌≤◌, ◌+◌, ◌++◌, ℕ, Contains, List, Some, length, map, slice_get};
ghost use Rattle.std.specs.List.{filter_map};
ghost use Rattle.ar_cert.specs.Certificate.{Certificate, digest_of};
ghost use Rattle.ar_claims.specs.Verified.{IsVerifiedIn};
ghost use Rattle.ar_lines.specs.Lines.{lines_of};
ghost use Rattle.ar_message.specs.Confirmation.{absent, present};
ghost use Rattle.ar_message.specs.Filling.{letter_bytes, filled};
ghost use Rattle.ar_message.specs.Messages.{shown_in};
ghost use Rattle.ar_message.specs.declared.message.Confirming.{Confirming};
ghost use Rattle.ar_message.specs.declared.unsigned.Unsigned.{Unsigned};
ghost use Rattle.ar_safety.specs.Accepting.{IsWithRing};
ghost use Rattle.ar_safety.specs.Held.{AreKept, records_of};
ghost use Rattle.ar_safety.specs.Theorem.{NoForgery};
ghost use Rattle.ar_world.specs.ar_nodes.Parties.{AuthorityNode, CheckParts};
ghost use Rattle.ar_statement.specs.Claims.{authority_party};
ghost use Rattle.ar_statement.specs.declared.party.Party.{Party};
ghost use Rattle.ar_statement.specs.declared.text.SeenText.{SeenText};
ghost use Rattle.ar_world.specs.Finding.{authority_at};
ghost use Rattle.ar_world.specs.Records.{HasParties, KeepsRecords, held_of};
ghost use Rattle.ar_world.specs.Run.{Saying, flushed, most_deliveries, run, run_from, taken};
ghost use Rattle.ar_world.specs.State.{Moved, World, first_world};
ghost use Rattle.client_rule.specs.Rule.{Asked, judgement};
ghost use Rattle.client_rule.specs.declared.judgement.Judgement.TheVariants.{Absent, Accepted};
ghost use Rattle.key_roll.specs.Book.{texts_of};
ghost use Rattle.lms_tree.specs.Key.{public_of};
ghost use Rattle.lms_tree.specs.KeyParts.{KeyParts};
ghost use Rattle.party_keys.specs.Directory.{Directory};
ghost use Rattle.party_keys.specs.Learning.{Announced, after_adopting, after_learning, roll_claim};
ghost use Rattle.party_keys.specs.Seen.{seen_of};
ghost use Rattle.party_keys.specs.Signers.{Claimed};
ghost use Rattle.hash_tree.specs.declared.bottom.Bottom.{Bottom};
ghost use Rattle.owner_check.specs.declared.answer.Outcome.{Outcome};
ghost use Rattle.run_safety.specs.Confirmed.{AsksForIt, ConfirmsToo};
ghost use Rattle.run_safety.specs.Flushes.{LeavesNothingDue};
ghost use Rattle.run_safety.specs.Headline.{IsSafeRun, accepted_in, dishonest_in, said_by};
ghost use Rattle.run_safety.specs.Kept.{KeepsWorld};
ghost use Rattle.run_safety.specs.Lasting.{Lasts};
ghost use Rattle.run_safety.specs.Own.{HonestParties, IsNoted, IsOwned, KnowsReal, NoneForged, PartyParts};
ghost use Rattle.run_safety.specs.Passing.{Delivers, GoesThrough};
ghost use Rattle.run_safety.specs.Seats.{IsSeated};
ghost use Rattle.run_safety.specs.Unforged.{AllReal, AllShown, Unforged, messages_of};
ghost use Rattle.script_text.specs.declared.line.EventLine.TheVariants.{Flush};
ghost use Rattle.script_text.specs.declared.line.Line.TheVariants.{Event};

/// Whatever lines a script has: each honest log and authority is the one with the number of its place, by one council; the
/// place of each other is empty, and it is one of the dishonest parties; and what clients hold they accepted, by their
/// directory as it is. Before the line `authorities` there is none of them.
pub fn a_run_keeps_its_parties()
    ensures { (saying : Saying) (checks : List CheckParts) (input : List ℕ)
        → IsSeated (run saying checks input).world }
{}

/// What is written of a script as accepted, a certificate or that there is none, is what its clients hold, each by its
/// verdict, in order; and whom the written lines tell to be dishonest are those that are, in order.
pub fn what_is_written_as_accepted_is_held()
    ensures accepted { (saying : Saying) (checks : List CheckParts) (input : List ℕ)
        → filter_map accepted_in (run saying checks input).said
        ≡ map (said_by (held_of (run saying checks input).world))
        (held_of (run saying checks input).world).judged }
    ensures dishonest { (saying : Saying) (checks : List CheckParts) (input : List ℕ)
        → filter_map dishonest_in (run saying checks input).said
        ≡ (held_of (run saying checks input).world).dishonest }
{}

/// Where all parties are seated, and each keeps its own record, what they hold is what the theorem speaks of: the records of
/// all honest logs and authorities, none left out, and what clients accepted.
pub fn what_seated_parties_hold_is_kept()
    ensures { (w : World) → IsSeated w → KeepsRecords w → AreKept (held_of w) }
{}

/// Whatever lines a script has, and whatever checks of owners say: each honest log and authority is kept, its ring has a key
/// for each generation of its book, behind the first each the next of the one before, which is announced; each message is bytes,
/// and the clients' directory is one. So each honest party's record is an honest one's. (That the first key of a ring is the one
/// of its place is in `a_run_keeps_its_parties`.)
pub fn a_run_keeps_its_nodes()
    ensures nodes { (saying : Saying) (checks : List CheckParts) (input : List ℕ)
        → KeepsWorld (run saying checks input).world }
    ensures records { (w : World) → KeepsWorld w → HasParties w → KeepsRecords w }
{}

/// What is signed stays signed: from the line `authorities` on, whoever is honest at the end of a run was honest behind each
/// front of its lines, and its book, its keys and what it saw have only grown since; and each message of then is there,
/// with its bytes.
pub fn what_is_signed_stays_signed()
    ensures { (saying : Saying) (checks : List CheckParts) (input : List ℕ)
        (front rest : List (List ℕ))
        → lines_of input ≡ front ++ rest
        → Lasts (run_from saying 1 (first_world checks) front).world
        (run saying checks input).world }
{}

/// Where none of some claims is forged, a directory that knows of honest parties no keys but their real ones goes on so: a key
/// that it learns of one, by a note that is one of the claims and that it verified, is the party's own next one, and so is
/// one that a party takes as its own. And what it verified of an honest party stands in that party's book.
pub fn what_is_learnt_stays_real()
    ensures learnt { (own : HonestParties) (claims : List Claimed) (keys : Directory)
        (a : Announced) → NoneForged own claims
        → ((party : Party) (p : PartyParts) → own party ≡ Some p → IsOwned party p) → IsNoted a
        → IsVerifiedIn keys claims (seen_of a.party (roll_claim a)) → KnowsReal own keys
        → KnowsReal own (after_learning keys a) }
    ensures adopted { (own : HonestParties) (keys : Directory) (who : Party) (generation : ℕ)
        (key : KeyParts)
        → ((p : PartyParts) → own who ≡ Some p → slice_get p.ring (generation + 1) ≡ Some key)
        → KnowsReal own keys
        → KnowsReal own (after_adopting keys who generation (public_of key)) }
    ensures seen { (own : HonestParties) (claims : List Claimed) (keys : Directory) (t : SeenText)
        (p : PartyParts)
        → NoneForged own claims
        → KnowsReal own keys → own t.party ≡ Some p → IsVerifiedIn keys claims t
        → Contains (texts_of p.book) t.text }
{}

/// Whatever is taken from others in a run stands in its messages, with a signature that is valid under the keys that its holder
/// knows: what each honest log and authority saw of another party, each Roll from which clients learnt a key, and each of the
/// three statements of a confirmation that they accepted.
pub fn what_a_run_took_was_shown()
    ensures { (saying : Saying) (checks : List CheckParts) (input : List ℕ)
        → AllShown (run saying checks input).world }
{}

/// Where no signature that is valid under an honest party's own key stands in any message of a run, but on what that party
/// signed: clients and honest parties know of each honest party no keys but its real ones; whatever they saw of it stands in
/// its book; and so no signature was forged, as the theorem's records tell of it.
pub fn what_a_run_knows_is_real()
    ensures known { (saying : Saying) (checks : List CheckParts) (input : List ℕ)
        → Unforged (run saying checks input).world → AllReal (run saying checks input).world }
    ensures records { (saying : Saying) (checks : List CheckParts) (input : List ℕ)
        → Unforged (run saying checks input).world
        → NoForgery (records_of (held_of (run saying checks input).world)) }
{}

/// Each run is safe, whatever lines a script has, and whatever checks of owners say: with at most two dishonest parties, no
/// forged signature and no collision, of which the one on signatures speaks of keys and of the bytes of messages alone.
pub fn a_run_is_safe()
    ensures { (saying : Saying) (checks : List CheckParts) (input : List ℕ)
        → IsSafeRun (run saying checks input) }
{}

/// In each world through which a run goes, behind each line and behind each delivery of a `flush`, each honest authority has its
/// ring: a key for each generation of its book, which its own directory knows. So what it sends where it is the second of two
/// authorities that confirm, by a message of the pool, a client accepts that asks for this name, in time, and whose directory
/// has the keys of the three signatures, as the clients' at the end of the run may. And what it sends so in a delivery of the
/// run is one of the messages at its end. A run goes through each world in which it delivers, and through its last.
pub fn what_a_run_confirms_is_accepted()
    ensures ring { (saying : Saying) (checks : List CheckParts) (input : List ℕ) (w : World)
        (number : ℕ) (node : AuthorityNode)
        → GoesThrough saying checks input w → authority_at w number ≡ Some node
        → IsWithRing node.state node.keys }
    ensures accepted { (saying : Saying) (checks : List CheckParts) (input : List ℕ) (w : World)
        (message number : ℕ) (node : AuthorityNode)
        (part : Confirming) (first_signature : List ℕ) (sent : Unsigned) (asked : Asked)
        (certificate : Certificate)
        → GoesThrough saying checks input w
        → ConfirmsToo w message number node part first_signature sent
        → AsksForIt node part first_signature asked → shown_in part.body ≡ present certificate
        → judgement asked (letter_bytes (filled node.keys sent).messages 0)
        ≡ Accepted certificate (digest_of certificate) part.epoch part.root }
    ensures absent { (saying : Saying) (checks : List CheckParts) (input : List ℕ) (w : World)
        (message number : ℕ) (node : AuthorityNode)
        (part : Confirming) (first_signature : List ℕ) (sent : Unsigned) (asked : Asked)
        (bottom : Bottom)
        → GoesThrough saying checks input w
        → ConfirmsToo w message number node part first_signature sent
        → AsksForIt node part first_signature asked → shown_in part.body ≡ absent bottom
        → judgement asked (letter_bytes (filled node.keys sent).messages 0)
        ≡ Absent part.epoch part.root }
    ensures sent { (saying : Saying) (checks : List CheckParts) (input : List ℕ) (w : World)
        (message number : ℕ) (node : AuthorityNode)
        (part : Confirming) (first_signature : List ℕ) (sent : Unsigned) (made : Moved)
        → Delivers saying checks input w message (authority_party number) made
        → ConfirmsToo w message number node part first_signature sent
        → Contains (messages_of (run saying checks input).world.pool)
        (letter_bytes (filled node.keys sent).messages 0) }
    ensures delivered { (saying : Saying) (checks : List CheckParts) (input : List ℕ) (w : World)
        (message : ℕ) (who : Party) (made : Moved)
        → Delivers saying checks input w message who made → GoesThrough saying checks input w }
    ensures ended { (saying : Saying) (checks : List CheckParts) (input : List ℕ)
        → GoesThrough saying checks input (run saying checks input).world }
{}

/// A `flush` goes to its end, whatever checks of owners say: of at most 16 logs nothing is due behind its deliveries, unless
/// one of them was refused. A world has no more logs, whatever lines a script has: so it is of each `flush` of a script.
pub fn a_flush_goes_to_its_end()
    ensures deliveries { (says : ℕ → Outcome) (w : World) → length w.logs ≤ 16
        → LeavesNothingDue (flushed most_deliveries says 0 w) }
    ensures logs { (saying : Saying) (checks : List CheckParts) (input : List ℕ)
        → length (run saying checks input).world.logs ≤ 16 }
    ensures line { (saying : Saying) (checks : List CheckParts) (input : List ℕ)
        (says : ℕ → Outcome)
        → LeavesNothingDue (taken says (run saying checks input).world (Event Flush)) }
{}
