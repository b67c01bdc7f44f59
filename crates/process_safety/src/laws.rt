//! Laws on networks of processes: each is the contract of a function with an empty body.
ghost use Rattle.std.specs.Prelude.{◌≡◌, ◌↔◌, ◌++◌, ◌∷◌, [], ℕ, Contains, List, true};
ghost use Rattle.ar_base.specs.Bytes.{AreBytes};
ghost use Rattle.ar_cert.specs.Certificate.{Certificate};
ghost use Rattle.ar_message.specs.declared.sent.Sent.{Sent};
ghost use Rattle.ar_message.specs.declared.unsigned.Unsigned.{Unsigned};
ghost use Rattle.ar_safety.specs.Agreed.{Agreed, HasNewest, HasNone};
ghost use Rattle.ar_safety.specs.Held.{AcceptedBytes, AreKept, AreSafe, IsAccepting, records_of, verdict_on};
ghost use Rattle.ar_safety.specs.Theorem.{Few, NoCollision, NoForgery};
ghost use Rattle.ar_statement.specs.Claims.{authority_party, log_party};
ghost use Rattle.ar_statement.specs.declared.party.Party.{Party};
ghost use Rattle.authority_core.specs.Later.{AuthorityGrows};
ghost use Rattle.authority_keeper.specs.Keeping as authority_keeping;
ghost use Rattle.authority_keeper.specs.Keeping.{AuthorityStanding};
ghost use Rattle.domain_table.specs.Tables.{Table};
ghost use Rattle.epoch_log.specs.Later.{LogGrows};
ghost use Rattle.kept_journal.specs.Replays.{ReachesBy};
ghost use Rattle.kept_party.specs.Taking.{Becomes};
ghost use Rattle.lms_tree.specs.KeyParts.{KeyParts};
ghost use Rattle.log_journal.specs.Steps as log_standings;
ghost use Rattle.log_journal.specs.Steps.{LogStanding};
ghost use Rattle.log_keeper.specs.Keeping as log_keeping;
ghost use Rattle.party_keys.specs.Directory.{Directory};
ghost use Rattle.process_safety.specs.Examples.{first_statement, one_passed};
ghost use Rattle.process_safety.specs.Going.{AreFirstKeys, new_network, with_act, with_authority_text, with_clients, with_log_text};
ghost use Rattle.process_safety.specs.Lasting.{AreSignedIn, AuthoritySends, LogSends, TookOnce};
ghost use Rattle.process_safety.specs.Network.{ClientAct, IsNetwork, Network, after_acts, bytes_of_act, held_in, is_honest_in, judges, new_clients};
ghost use Rattle.process_safety.specs.Unforged.{IsRealIn, NoneForgedIn};

/// Any set of parties whose journals each replay, whatever their histories, has the records of which the theorem speaks: those
/// of all honest logs and authorities, none left out, each an honest one's; and what its clients hold they accepted, by their
/// directory as it is, which is one.
pub fn any_histories_are_kept()
    ensures { (n : Network) → IsNetwork n → AreKept (held_in n) }
{}

/// The theorem's record of each honest log and authority is the one that its journal leaves.
pub fn each_record_is_that_of_a_journal()
    ensures logs { (n : Network) (number : ℕ) → is_honest_in n (log_party number) ≡ true
        → (records_of (held_in n)).logs number ≡ (n.logs number).standing.core.log.past }
    ensures authorities { (n : Network) (number : ℕ)
        → is_honest_in n (authority_party number) ≡ true
        → (records_of (held_in n)).authorities number
        ≡ (n.authorities number).standing.state.past }
{}

/// Parties that did nothing yet are a network, by the keys that the directory knows of the honest ones; and whatever its
/// parties and clients do next leaves it one: each text that a log or an authority takes, by its keeper, and each act of
/// clients.
pub fn a_network_goes_on()
    ensures new { (directory : Directory) (dishonest : List Party)
        (log_keys authority_keys : ℕ → KeyParts)
        → AreFirstKeys directory dishonest log_keys authority_keys
        → IsNetwork (new_network directory dishonest log_keys authority_keys) }
    ensures log { (n : Network) (number : ℕ) (text : List ℕ) (sent : Sent) (new : LogStanding)
        → IsNetwork n → AreBytes text
        → log_keeping.takes (n.logs number).standing text sent new
        → IsNetwork (with_log_text n number text new) }
    ensures authority { (n : Network) (number : ℕ) (text : List ℕ) (sent : Sent)
        (new : AuthorityStanding)
        → IsNetwork n → AreBytes text
        → authority_keeping.takes (n.authorities number).standing text sent new
        → IsNetwork (with_authority_text n number text new) }
    ensures client { (n : Network) (act : ClientAct) → IsNetwork n → AreBytes (bytes_of_act act)
        → IsNetwork (with_act n act) }
{}

/// A log whose journal `log_journal` keeps is as good as one that is kept by its keeper: what texts make of the one they make
/// of the other. So both may be logs of one network.
pub fn a_log_of_either_journal_is_one()
    ensures { (texts : List (List ℕ)) (first last : LogStanding)
        → ReachesBy log_standings.takes first texts last
        ↔ ReachesBy (Becomes log_keeping.takes) first texts last }
{}

/// What is agreed is told by the logs of a network, whatever its clients do. So a table that is agreed for one client is agreed
/// for each other one that is a client of the same parties, with a directory of its own; and what one accepted is the newest
/// certificate of the name there, or that there is none, for the other too.
pub fn what_is_agreed_is_so_for_each_client()
    ensures agreed { (n : Network) (acts : List ClientAct) (epoch : ℕ) (table : Table)
        → IsNetwork n → IsNetwork (with_clients n acts)
        → Agreed (records_of (held_in n)) epoch table
        → Agreed (records_of (held_in (with_clients n acts))) epoch table }
    ensures newest { (n : Network) (acts : List ClientAct) (name : List ℕ) (epoch : ℕ)
        (root : List ℕ) (certificate : Certificate)
        → IsNetwork n → IsNetwork (with_clients n acts)
        → HasNewest (records_of (held_in n)) name epoch root certificate
        → HasNewest (records_of (held_in (with_clients n acts))) name epoch root certificate }
    ensures none { (n : Network) (acts : List ClientAct) (name : List ℕ) (epoch : ℕ)
        (root : List ℕ)
        → IsNetwork n → IsNetwork (with_clients n acts)
        → HasNone (records_of (held_in n)) name epoch root
        → HasNone (records_of (held_in (with_clients n acts))) name epoch root }
{}

/// What a client accepts is held, with the verdict by which it was accepted, whatever clients learn and judge since.
pub fn what_clients_accepted_is_held()
    ensures { (n : Network) (front rest : List ClientAct) (t : AcceptedBytes)
        → n.acts ≡ front ++ (judges t ∷ rest)
        → IsAccepting (verdict_on (after_acts (new_clients n.directory) front).directory t)
        → Contains (held_in n).judged t × (verdict_on (held_in n).directory t
        ≡ verdict_on (after_acts (new_clients n.directory) front).directory t) }
{}

/// Where no signature that is valid under an honest party's own key stands in a message that was taken, learnt from or judged,
/// but on what that party signed: clients and honest parties know of each honest party no keys but its real ones; whatever they
/// saw of it stands in its book; and so no signature was forged, as the theorem's records tell of it.
pub fn what_a_network_knows_is_real()
    ensures known { (n : Network) → IsNetwork n → NoneForgedIn n → IsRealIn n }
    ensures records { (n : Network) → IsNetwork n → NoneForgedIn n
        → NoForgery (records_of (held_in n)) }
{}

/// Each network is safe, whatever its parties' histories: with at most two dishonest parties, no forged signature and no
/// collision, of which the one on signatures speaks of keys and of the bytes of messages alone.
pub fn a_network_is_safe()
    ensures { (n : Network) → IsNetwork n → Few (records_of (held_in n)) → NoneForgedIn n
        → NoCollision (records_of (held_in n)) → AreSafe (held_in n) }
{}

/// What a log or an authority sent in some life of its file it has signed, whatever crashes and openings came since: its record
/// in the network has all that it had then, and the statement of each signature of its own that it sent stands in its book, at
/// the generation and leaf of that signature. So a crash makes no forgery of what was sent before it.
pub fn what_was_sent_stays_signed()
    ensures log { (n : Network) (number : ℕ) (mark : List ℕ) (before after : LogStanding)
        (text : List ℕ) (sent : Sent) (unsigned : Unsigned)
        → IsNetwork n → is_honest_in n (log_party number) ≡ true
        → TookOnce (Becomes log_keeping.takes) mark
        (log_standings.new_standing number n.directory (n.logs number).key) before text
        (n.logs number).texts
        → (taken : log_keeping.takes before text sent after)
        → LogSends before taken.input unsigned
        → LogGrows after.core.log.past (n.logs number).standing.core.log.past
        × AreSignedIn (n.logs number).standing.core.log.past.signed unsigned }
    ensures authority { (n : Network) (number : ℕ) (mark : List ℕ)
        (before after : AuthorityStanding) (text : List ℕ) (sent : Sent) (unsigned : Unsigned)
        → IsNetwork n → is_honest_in n (authority_party number) ≡ true
        → TookOnce (Becomes authority_keeping.takes) mark
        (authority_keeping.new_standing number n.directory (n.authorities number).key) before text
        (n.authorities number).texts
        → (taken : authority_keeping.takes before text sent after)
        → AuthoritySends before taken.input after unsigned
        → AuthorityGrows after.state.past (n.authorities number).standing.state.past
        × AreSignedIn (n.authorities number).standing.state.past.signed unsigned }
{}

/// A network of three logs and three authorities, in which one log took the order to state what it did in its first epoch, and
/// no party anything else, is one; and its statement stands in the theorem's record.
pub fn a_network_may_do_something()
    ensures network { IsNetwork one_passed }
    ensures stated { ((records_of (held_in one_passed)).logs 0).stated ≡ first_statement ∷ [] }
{}
