//! Laws on the definitions of `specs/`: each is the contract of a function with an empty body.
ghost use Rattle.std.specs.Prelude.{◌≡◌, ◌↔◌, ℕ, ◌<◌, ◌≤◌, ◌-◌, ◌^◌, List, [], ◌∷◌, ◌++◌, Some, Ok, Contains, length, slice_get};
ghost use Rattle.ar_statement.specs.declared.party.Party.{Party};
ghost use Rattle.ar_base.specs.Bytes.{IsDigest};
ghost use Rattle.party_keys.specs.Directory.{Directory, IsDirectory, keys_of};
ghost use Rattle.ar_council.specs.Council.{Council, council_of};
ghost use Rattle.domain_table.specs.Tables.{Table, no_table};
ghost use Rattle.domain_table.specs.Tree.{root_of};
ghost use Rattle.epoch_log.specs.Record.{ending};
ghost use Rattle.epoch_log.specs.declared.entries.How.TheVariants.{Decided};
ghost use Rattle.lms_tree.specs.Key.{public_of};
ghost use Rattle.lms_tree.specs.KeyParts.{KeyParts};
ghost use Rattle.lms_tree.specs.LmsKind.{leaves_of};
ghost use Rattle.lms_tree.specs.PublicKey.{key_text};
ghost use Rattle.key_roll.specs.Ring.{IsNext};
ghost use Rattle.party_keys.specs.Learning.{Announced, after_adopting, after_all};
ghost use Rattle.hash_tree.specs.declared.bottom.Bottom.{Bottom};
ghost use Rattle.ar_cert.specs.Certificate.{Certificate, digest_of};
ghost use Rattle.ar_cert.specs.Changes.{Change};
ghost use Rattle.ar_message.specs.declared.message.Confirming.{Confirming};
ghost use Rattle.ar_message.specs.Confirmation.{absent, confirmation_text, present};
ghost use Rattle.ar_message.specs.Messages.{IsMessage, shown_in};
ghost use Rattle.ar_message.specs.declared.message.Message.TheVariants.{HalfConfirmed};
ghost use Rattle.ar_message.specs.declared.unsigned.Unsigned.{Unsigned};
ghost use Rattle.ar_message.specs.declared.address.Address.TheVariants.{One};
ghost use Rattle.ar_message.specs.Filling.{letter_bytes, filled};
ghost use Rattle.ar_statement.specs.Claims.{authority_party, client_party, log_party, party};
ghost use Rattle.key_roll.specs.Book.{IsRollBook};
ghost use Rattle.authority_core.specs.ConfirmRows.{half_confirmed_row};
ghost use Rattle.authority_core.specs.State.{AuthorityState};
ghost use Rattle.client_rule.specs.Rule.{judgement, Asked};
ghost use Rattle.client_rule.specs.declared.judgement.Judgement.TheVariants.{Absent, Accepted};
ghost use Rattle.ar_safety.specs.Accepting.{IsConfirmer, IsHalfConfirmed, IsInTime, IsWithRing, KnowsRing, KnowsSigners, bytes_to_client, confirmer_of};
ghost use Rattle.ar_safety.specs.Agreed.{Agreed, Backed, Confirms, HasChange, SawQuorum, backing};
ghost use Rattle.ar_safety.specs.Hashed.{StandsIn};
ghost use Rattle.ar_safety.specs.Examples.{decided_run, forged_run, split_run};
ghost use Rattle.epoch_log.specs.State.{LogState};
ghost use Rattle.authority_core.specs.Record.{AuthorityRecord};
ghost use Rattle.authority_core.specs.declared.entries.Approved.{Approved};
ghost use Rattle.ar_safety.specs.Held.{AreKept, AreSafe, Held, IsAccepting, AcceptedBytes, asked_by, honest_below, honest_records, records_of, verdict_on};
ghost use Rattle.ar_safety.specs.Records.{AreQuorums, IsHonest, IsHonestLog, AcceptedConfirmation, Records, fresh_records};
ghost use Rattle.ar_safety.specs.RegisteredRun.{a_name, confirmation, directory_of_five, first_certificate, one_table, registered_run, registration};
ghost use Rattle.ar_safety.specs.Succession.{AcceptedOf, AreInOrder, accepted_by, accepted_of};
ghost use Rattle.ar_safety.specs.Theorem.{AreHonest, Few, NoCollision, NoForgery, Safe};

/// With at most two dishonest logs and authorities, and where no signature of an honest one was forged and no two of the
/// listed strings collide, whatever messages came: one root alone is backed in an epoch and one table alone agreed; where
/// two honest logs ended an epoch, they ended it alike and begin the next with equal tables; the chains of an agreed table
/// begin those of each later one; an honest authority vouches for each certificate of an agreed table, in a chain or
/// waiting, and so does each honest endorser of a change; what honest parties confirm of an epoch is under one root; what a
/// client accepted is, within its ages, the newest certificate of the name's one chain in the table that is agreed, or that
/// it has none there, and an honest one of the three that signed it saw a quorum's votes for the root; and each change of a
/// chain of an agreed table that is no full update of the one before it waited, in the agreed tables, as that one's policy says.
pub fn records_are_safe()
    ensures { (r : Records) → AreHonest r → Few r → NoForgery r → NoCollision r → Safe r }
{}

/// The same of a run as its nodes hold it, where each judgement of a client is bytes with their verdict: the clauses hold, and
/// what the verdict says was accepted is the newest certificate of the name in the table that is agreed, or the name has none.
pub fn a_run_is_safe()
    ensures { (h : Held) → AreKept h → Few (records_of h) → NoForgery (records_of h)
        → NoCollision (records_of h) → AreSafe h }
{}

/// What clients accept of a name never goes back. Of one epoch they accept the same, one certificate under one root or that there
/// is none. And what one accepts of a later epoch is no older: the certificate that another accepted, or one with a higher
/// serial number, and not that there is none.
pub fn what_is_accepted_does_not_go_back()
    ensures records { (r : Records) → Safe r → (j k : AcceptedConfirmation) → Contains r.judged j
        → Contains r.judged k → j.asked.name ≡ k.asked.name
        → AreInOrder (accepted_by j) (accepted_by k) }
    ensures verdicts { (h : Held) → AreSafe h → (t u : AcceptedBytes) (one other : AcceptedOf)
        → Contains h.judged t → Contains h.judged u → t.name ≡ u.name
        → accepted_of (verdict_on h.directory t) ≡ Some one
        → accepted_of (verdict_on h.directory u) ≡ Some other → AreInOrder one other }
{}

/// Behind a certificate that a client accepted stands an honest authority whose check had said yes to the name that the client
/// asked for, with the certificate's key.
pub fn what_is_accepted_was_vouched_for()
    ensures { (r : Records) → Safe r → (j : AcceptedConfirmation) (certificate : Certificate)
        → Contains r.judged j → j.confirmation.body ≡ present certificate
        → (authority : ℕ) × (asked : Approved) × IsHonest r (authority_party authority)
        × Contains (r.authorities authority).asked asked
        × (asked.name ≡ j.asked.name) × (asked.key ≡ key_text certificate.subject)
        × (asked.certificate ≡ digest_of certificate) }
{}

/// The certificate of each change that a table has for a name, in its chain or waiting, stands in the table for this name: so
/// there is none of which nobody has to vouch.
pub fn what_a_table_has_stands_in_it()
    ensures { (table : Table) (name : List ℕ) (change : Change) → HasChange table name change
        → StandsIn table name change.cert }
{}

/// A root for which an honest party saw a quorum's votes is backed: the votes were cast, but for those of dishonest logs.
pub fn what_a_quorum_was_seen_to_vote_for_is_backed()
    ensures { (r : Records) (party : Party) (epoch : ℕ) (to : List ℕ) → AreHonest r
        → NoForgery r → IsHonest r party → 1 ≤ epoch → epoch ≤ 2 ^ 63 → IsDigest to
        → SawQuorum r party epoch to → Backed r epoch to }
{}

/// The theorem's records leave out nothing that the nodes hold: where these hold the records of all honest logs and
/// authorities, ascending by number, each has its own record, and each judgement that accepted is among the judged.
pub fn the_records_leave_nothing_out()
    ensures logs { (h : Held) (states : ℕ → LogState)
        → h.logs ≡ honest_records log_party h.dishonest (λ log.
        (states log).past) (length h.directory.logs)
        → (log : ℕ) → IsHonestLog (records_of h) log → (records_of h).logs log ≡ (states log).past }
    ensures authorities { (h : Held) (of : ℕ → AuthorityRecord)
        → h.authorities ≡ honest_records authority_party h.dishonest
        of (length h.directory.authorities)
        → (authority : ℕ) → IsHonest (records_of h) (authority_party authority)
        → (records_of h).authorities authority ≡ of authority }
    ensures log_count { (h : Held) (states : ℕ → LogState)
        → h.logs ≡ honest_records log_party h.dishonest (λ log.
        (states log).past) (length h.directory.logs)
        → length h.logs ≡ honest_below log_party h.dishonest (length h.directory.logs) }
    ensures authority_count { (h : Held) (of : ℕ → AuthorityRecord)
        → h.authorities ≡ honest_records authority_party h.dishonest
        of (length h.directory.authorities)
        → length h.authorities
        ≡ honest_below authority_party h.dishonest (length h.directory.authorities) }
    ensures judged { (h : Held) (t : AcceptedBytes) → Contains h.judged t
        → IsAccepting (verdict_on h.directory t)
        → (j : AcceptedConfirmation)
        × (Contains (records_of h).judged j × (j.asked ≡ asked_by h.directory t)
        × (j.bytes ≡ t.bytes)) }
{}

/// The sizes of a directory are such that two quorums share more than two logs.
pub fn a_directory_has_quorums()
    ensures { (keys : Directory) → IsDirectory keys → AreQuorums (council_of keys) }
{}

/// A root is backed exactly where the honest logs that voted for it and the dishonest logs are together a quorum.
pub fn a_backed_root_is_counted()
    ensures { (r : Records) (epoch : ℕ) (to : List ℕ)
        → Backed r epoch to ↔ (r.council.quorum ≤ backing r epoch to) }
{}

/// The premises can be met: logs that have done nothing yet meet them.
pub fn fresh_logs_meet_the_premises()
    ensures honest { (council : Council) (leaves : ℕ) → AreQuorums council → 0 < leaves
        → AreHonest (fresh_records council leaves) }
    ensures premises { (council : Council) (leaves : ℕ)
        → Few (fresh_records council leaves) × NoForgery (fresh_records council leaves)
        × NoCollision (fresh_records council leaves) }
{}

/// The premises can be met where an epoch is decided: five logs, of which any two may be dishonest, decided the first epoch
/// by the votes of all, and meet them; and a table is agreed.
pub fn a_decided_epoch_meets_the_premises()
    ensures honest { (dishonest : List Party) → AreHonest (decided_run dishonest) }
    ensures premises { (dishonest : List Party)
        → NoForgery (decided_run dishonest) × NoCollision (decided_run dishonest) }
    ensures decided { (dishonest : List Party) (log : ℕ) → IsHonestLog (decided_run dishonest) log
        → ending ((decided_run dishonest).logs log).ended 1 ≡ Some (Decided [] (root_of no_table)) }
    ensures agreed { (dishonest : List Party) → Few (decided_run dishonest)
        → (table : Table) × Agreed (decided_run dishonest) 1 table }
    ensures two { Few (decided_run (log_party 3 ∷ log_party 4 ∷ [])) }
{}

/// The premises can be met where a client accepts a certificate: three authorities endorsed it, five logs decided the first
/// epoch with its registration, a client accepts what one log and two authorities signed of it, and all is met. The table with
/// the registration, which names its endorsers, is agreed, and the log and an authority confirm something under its root.
pub fn an_accepting_run_meets_the_premises()
    ensures honest { AreHonest registered_run }
    ensures premises { Few registered_run
        × (NoForgery registered_run × NoCollision registered_run) }
    ensures accepted { judgement (record {
      keys = directory_of_five;
      name = a_name;
      epoch = 1;
      age = 0;
    }) (confirmation_text confirmation)
        ≡ Accepted first_certificate (digest_of first_certificate) 1 (root_of one_table) }
    ensures registered { Agreed registered_run 1 one_table
        × HasChange one_table a_name registration }
    ensures confirmed { Confirms registered_run (log_party 0) 1 (root_of one_table)
        × Confirms registered_run (authority_party 0) 1 (root_of one_table) }
{}

/// With three dishonest logs of five, one more than may be, what honest logs agree on can fail: all else is met, and of the
/// two honest logs one decided the first epoch and the other skipped it.
pub fn three_dishonest_logs_are_too_many()
    ensures honest { AreHonest split_run }
    ensures premises { NoForgery split_run × NoCollision split_run }
    ensures three { length split_run.dishonest ≡ 3 }
    ensures not_safe { Safe split_run → ⊥ }
{}

/// That no signature was forged is needed: no party is dishonest and all else is met, and of two honest logs, which saw votes
/// and statuses that three others never signed, one decided the first epoch and the other skipped it.
pub fn forged_statements_are_too_many()
    ensures honest { AreHonest forged_run }
    ensures premises { Few forged_run × NoCollision forged_run }
    ensures not_safe { Safe forged_run → ⊥ }
{}

/// What an honest authority, the second of two, sends to the client where its row answers Ok to a confirmation that a log and
/// a first authority made, the client accepts, once the signature is filled in: it asks for this name, in time, and knows the
/// keys by which the authority verified the log's signature and the first authority's, and its own. (That the client's
/// directory has the three parties follows from this.)
pub fn an_honest_confirmation_is_accepted()
    ensures accepted { (s : AuthorityState) (ring : List KeyParts) (part : Confirming)
        (first_signature : List ℕ) (later : AuthorityState) (sent : Unsigned)
        (asked : Asked) (certificate : Certificate) → IsWithRing s ring
        → IsMessage (HalfConfirmed part first_signature)
        → half_confirmed_row s part first_signature ≡ Ok (later, sent)
        → KnowsSigners (confirmer_of s ring) part first_signature asked.keys → IsInTime part asked
        → shown_in part.body ≡ present certificate
        → judgement asked (letter_bytes (filled ring sent).messages 0)
        ≡ Accepted certificate (digest_of certificate) part.epoch part.root }
    ensures absent { (s : AuthorityState) (ring : List KeyParts) (part : Confirming)
        (first_signature : List ℕ) (later : AuthorityState) (sent : Unsigned)
        (asked : Asked) (bottom : Bottom) → IsWithRing s ring
        → IsMessage (HalfConfirmed part first_signature)
        → half_confirmed_row s part first_signature ≡ Ok (later, sent)
        → KnowsSigners (confirmer_of s ring) part first_signature asked.keys → IsInTime part asked
        → shown_in part.body ≡ absent bottom
        → judgement asked (letter_bytes (filled ring sent).messages 0)
        ≡ Absent part.epoch part.root }
{}

/// Where the row of an authority answers Ok to a confirmation that a first authority confirmed, the authority has checked all
/// of it, also the votes; and what it sends, once the signature is filled in, is one message to the client. Where all that it
/// checks is so, its row answers Ok.
pub fn a_second_authority_confirms_so()
    ensures checked { (s : AuthorityState) (ring : List KeyParts) (part : Confirming)
        (first_signature : List ℕ) (later : AuthorityState) (sent : Unsigned)
        → IsRollBook s.past.signed → IsMessage (HalfConfirmed part first_signature)
        → half_confirmed_row s part first_signature ≡ Ok (later, sent)
        → IsHalfConfirmed (confirmer_of s ring) part first_signature }
    ensures confirms { (s : AuthorityState) (ring : List KeyParts) (part : Confirming)
        (first_signature : List ℕ)
        → IsConfirmer (confirmer_of s ring)
        → IsHalfConfirmed (confirmer_of s ring) part first_signature
        → (later : AuthorityState) × ((sent : Unsigned)
        × (half_confirmed_row s part first_signature ≡ Ok (later, sent))) }
    ensures sent { (s : AuthorityState) (ring : List KeyParts) (part : Confirming)
        (first_signature : List ℕ) (later : AuthorityState) (sent : Unsigned)
        → IsWithRing s ring → IsMessage (HalfConfirmed part first_signature)
        → half_confirmed_row s part first_signature ≡ Ok (later, sent)
        → (filled ring sent).messages ≡ record {
          to = One (client_party part.client);
          bytes = bytes_to_client (confirmer_of s ring) part first_signature;
        } ∷ [] }
{}

/// A directory knows the keys of a party of which it has the key of generation 0, as its first, and goes on to know them where
/// it learns Rolls, of any party, and where it takes the party's next key at a roll.
pub fn a_known_ring_stays_known()
    ensures first { (keys : Directory) (party : Party) (leaves : ℕ) (key : KeyParts)
        → slice_get (keys_of keys party) 0 ≡ Some (public_of key)
        → leaves ≡ leaves_of key.lms → KnowsRing keys party leaves (key ∷ []) }
    ensures learnt { (keys : Directory) (announced : List Announced) (party : Party) (leaves : ℕ)
        (ring : List KeyParts)
        → KnowsRing keys party leaves ring
        → KnowsRing (after_all keys announced) party leaves ring }
    ensures rolled { (keys : Directory) (party : Party) (leaves : ℕ) (ring : List KeyParts)
        (next : KeyParts)
        → KnowsRing keys party leaves ring → IsNext ring next
        → KnowsRing (after_adopting keys party (length ring - 1) (public_of next)) party leaves
        (ring ++ next ∷ []) }
{}
