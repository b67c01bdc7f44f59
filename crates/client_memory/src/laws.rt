//! Laws on what a client keeps, over the definitions alone: each is the contract of a function without a body.

ghost use Rattle.std.specs.Prelude.{◌≡◌, ◌≢◌, All, List, [], None, true, ℕ};
ghost use Rattle.std.specs.List.{AllByRecursion};
ghost use Rattle.ar_base.specs.Prefixes.{BeginsWith};
ghost use Rattle.ar_cert.specs.Certificate.{Certificate, IsCertificate};
ghost use Rattle.ar_cert.specs.Changes.{Change};
ghost use Rattle.client_rule.specs.Rule.{Asked};
ghost use Rattle.client_memory.specs.Answers.{is_this, pinned_by};
ghost use Rattle.client_memory.specs.Book.{Pin, pinned_chain, without};
ghost use Rattle.client_memory.specs.Calls.{Call, IsKeptChain, Spares, after_calls, kept_of};
ghost use Rattle.client_memory.specs.Meaning.{Moves, OthersStay, PinsFirst};
ghost use Rattle.client_memory.specs.declared.answers.Pinned.TheVariants as pinned;

/// Whatever calls are made, one after the other, under whatever directories: what is kept of each name has a first
/// change, and each next one follows the one before it by the policy rule, as a full update that the old key hands over
/// where the old policy asks for it.
pub fn what_is_kept_follows()
    ensures { (calls : List Call) → All (λ pin. IsKeptChain pin.chain) (after_calls [] calls) }
{}

/// What is kept of a name only grows at its end, as long as no call forgets it.
pub fn what_is_kept_only_grows()
    ensures { (book : List Pin) (calls : List Call) (name : List ℕ)
        → AllByRecursion (Spares name) calls
        → BeginsWith (kept_of (after_calls book calls) name) (kept_of book name) }
{}

/// What a call pins or takes was vouched for by the directory of that call. The first certificate of a name is one that the
/// client's rule accepts, of that name. Links are taken only where each is linked behind the one before it, with all its
/// endorsements valid under the directory's keys, the first behind the newest certificate that was pinned, and where
/// the last is the certificate that the client's rule accepts. All other names stay as they were.
pub fn what_is_pinned_was_vouched_for()
    ensures first { (asked : Asked) (bytes : List ℕ) (book : List Pin) (links : List Change)
        (later : List Pin)
        → pinned_by book asked bytes links ≡ (pinned.First, later)
        → PinsFirst asked bytes book later }
    ensures moved { (asked : Asked) (bytes : List ℕ) (book : List Pin) (links : List Change)
        (count : ℕ) (later : List Pin)
        → pinned_by book asked bytes links ≡ (pinned.Moved count, later)
        → Moves asked bytes links count book later }
{}

/// Every other answer leaves all that is kept as it was.
pub fn other_answers_change_nothing()
    ensures { (asked : Asked) (bytes : List ℕ) (book : List Pin) (links : List Change)
        → (pinned_by book asked bytes links).0 ≢ pinned.First
        → ((count : ℕ) → (pinned_by book asked bytes links).0 ≢ pinned.Moved count)
        → (pinned_by book asked bytes links).1 ≡ book }
{}

/// A name that is forgotten is not pinned, and all other names stay as they were.
pub fn one_name_is_forgotten()
    ensures out { (book : List Pin) (name : List ℕ) → pinned_chain (without book name) name ≡ None }
    ensures others { (book : List Pin) (name : List ℕ) → OthersStay name book (without book name) }
{}

/// Two certificates that are taken for one are equal in all that they say, whatever their digests are.
pub fn the_same_are_equal()
    ensures { (one other : Certificate) → IsCertificate one → IsCertificate other
        → is_this one other ≡ true → one ≡ other }
{}
