//! Laws on chained journals, over the definitions alone: each is the contract of a function that does nothing.

ghost use Rattle.std.specs.Prelude.{◌≡◌, ◌<◌, ◌*◌, ◌^◌, ◌++◌, ◌∷◌, ◌⊎◌, ◌==◌, [], ℕ, false, List, length};
ghost use Rattle.std.specs.List.{list_all};
ghost use Rattle.ar_base.specs.Prefixes.{BeginsWith};
ghost use Rattle.chained_journal.specs.Appending.{staged_text};
ghost use Rattle.chained_journal.specs.Damage.{Collide, InSectors, IsChanged, strings_of};
ghost use Rattle.chained_journal.specs.Journal.{AreShort, IsTornEnd, Stands, chained, journal, open_gate, recovered, shut_gate, start};
ghost use Rattle.chained_journal.specs.Refusals.{BearsOut, Refusal};
ghost use Rattle.chained_journal.specs.Replays.{ReachesBy};
ghost use Rattle.chained_journal.specs.declared.fault.OpenFault.{OpenFault};
ghost use Rattle.chained_journal.specs.declared.fault.OpenFault.TheVariants as faults;
ghost use Rattle.chained_journal.specs.declared.title.Title.{Title};
ghost use Rattle.chained_journal.specs.declared.title.Witness.{Witness};

use crate::Replay;

/// A file stands for one list of texts, and has these texts. What stands for texts is not the one torn end, and that is of one list
/// of texts and one text behind them.
pub fn a_file_stands_for_one_history()
    ensures one { (title : Title) (texts others : List (List ℕ)) (file : List ℕ)
        → Stands title texts file → Stands title others file → texts ≡ others }
    ensures has { (title : Title) (texts : List (List ℕ)) (file : List ℕ)
        → length title.header ≡ 40 → Stands title texts file → recovered file ≡ texts }
    ensures torn { (title : Title) (texts others : List (List ℕ)) (text file : List ℕ)
        → Stands title texts file → ¬ IsTornEnd title others text file }
    ensures torn_once { (title : Title) (texts others : List (List ℕ)) (text other file : List ℕ)
        → IsTornEnd title texts text file → IsTornEnd title others other file
        → (texts ≡ others) × (text ≡ other) }
{}

/// A file that stands for texts which a party can take again, and which bear out the witness, is refused for want of memory alone.
/// The title has a byte that is not 0.
pub fn a_file_that_can_be_replayed_is_not_refused<P: Replay>()
    ensures { (title : Title) (witness : Witness) (texts : List (List ℕ)) (file : List ℕ)
        (first last : P) (fault : OpenFault) → length title.header ≡ 40
        → list_all (λ byte. byte == 0) title.header ≡ false → Stands title texts file
        → BearsOut title witness texts → ReachesBy P.takes first texts last
        → Refusal P.takes title witness first file fault → fault ≡ faults.Memory }
{}

/// Of a journal that ends with its shut gate, of which one byte was changed, nothing stands for texts, unless two strings that are
/// hashed for its texts and for those have one digest: these two are shown.
pub fn a_changed_byte_is_seen()
    ensures { (title : Title) (texts others : List (List ℕ)) (file : List ℕ) → AreShort texts
        → IsChanged (journal title texts shut_gate) file → Stands title others file
        → Collide (strings_of title texts) (strings_of title others) }
{}

/// Of a journal that ends with its shut gate no proper front stands for texts.
pub fn a_front_is_seen()
    ensures { (title : Title) (texts others : List (List ℕ)) (front more : List ℕ)
        → AreShort texts → front ++ more ≡ journal title texts shut_gate → 0 < length more
        → ¬ Stands title others front }
{}

/// Equal chains of one title are of equal texts, unless two strings that are hashed for them have one digest: these two are shown.
pub fn one_chain_is_of_one_history()
    ensures { (title : Title) (texts others : List (List ℕ))
        → chained (start title) texts ≡ chained (start title) others
        → (texts ≡ others) ⊎ Collide (strings_of title texts) (strings_of title others) }
{}

/// Texts that bear out a witness begin with those of which it was noted, unless two strings that are hashed for them have one digest.
/// So an older journal of the same texts does not bear it out.
pub fn a_witness_tells_an_older_journal()
    ensures begins { (title : Title) (witness : Witness) (texts others : List (List ℕ))
        → witness.count ≡ length texts → witness.chain ≡ chained (start title) texts
        → BearsOut title witness others
        → BeginsWith others texts ⊎ Collide (strings_of title texts) (strings_of title others) }
    ensures older { (title : Title) (witness : Witness) (front more : List (List ℕ))
        (text : List ℕ) → witness.count ≡ length (front ++ text ∷ more)
        → ¬ BearsOut title witness front }
{}

/// On a disk of which a crash leaves each sector as it was or as it was to be, where sectors have a multiple of 8 bytes, the write
/// of a gate leaves the texts from before, with the new one or without: no end is torn.
pub fn no_end_is_torn_in_sectors()
    ensures { (title : Title) (texts : List (List ℕ)) (text : List ℕ) (eighths sectors : ℕ)
        (file : List ℕ) → length title.header ≡ 40 → AreShort texts → length text < 2 ^ 32
        → InSectors (8 * eighths) sectors
        (journal title texts (shut_gate ++ staged_text (chained (start title) texts) text))
        (journal title texts (open_gate ++ staged_text (chained (start title) texts) text)) file
        → Stands title texts file ⊎ Stands title (texts ++ text ∷ []) file }
{}
