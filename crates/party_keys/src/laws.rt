//! Laws on the definitions of `specs/`: each is the contract of a function with an empty body.
ghost use Rattle.std.specs.Prelude.{◌≡◌, ◌≢◌, ◌+◌, ◌<◌, ◌≤◌, ◌++◌, ◌∷◌, [], ℕ, All, List, Ok, Err, length, take};
ghost use Rattle.ar_base.specs.Prefixes.{BeginsWith};
ghost use Rattle.ar_statement.specs.Claims.{Claim};
ghost use Rattle.ar_statement.specs.declared.party.Party.{Party};
ghost use Rattle.ar_statement.specs.declared.text.SeenText.{SeenText};
ghost use Rattle.party_keys.specs.Seen.{Saw};
ghost use Rattle.party_keys.specs.Directory.{Directory, IsDirectory, directory_of, keys_of};
ghost use Rattle.party_keys.specs.Learning.{Announced, after_adopting, after_all, after_learning, learned};
ghost use Rattle.party_keys.specs.declared.learning.Learned.TheVariants.{New};
ghost use Rattle.party_keys.specs.Signatures.{IsVerified, verified};
ghost use Rattle.party_keys.specs.declared.fault.VerifyFault.TheVariants.{Bad};
ghost use Rattle.lms_tree.specs.declared.public_key.LmsPublic.{LmsPublic};

/// A directory that is made keeps the bounds, and a quorum has at least three logs.
pub fn a_directory_keeps_its_bounds()
    ensures bounds { (logs authorities : List LmsPublic) (q : ℕ) (keys : Directory)
        → directory_of logs authorities q ≡ Ok keys → IsDirectory keys }
    ensures three { (keys : Directory) → IsDirectory keys → 3 ≤ keys.quorum }
{}

/// Learning adds keys and takes none away, so it never changes what was verified before: a signature that is
/// valid under a directory is valid under every directory that learnt from it, and one that is bad is bad by
/// the same test there, but where the generation was not known.
pub fn what_was_verified_stays_so()
    ensures keys { (keys : Directory) (announced : List Announced) (party : Party)
        → BeginsWith (keys_of (after_all keys announced) party) (keys_of keys party) }
    ensures valid { (keys : Directory) (announced : List Announced) (party : Party)
        (text signature : List ℕ)
        → IsVerified keys party text signature
        → IsVerified (after_all keys announced) party text signature }
    ensures bad { (keys : Directory) (announced : List Announced) (party : Party)
        (text signature : List ℕ) (k : ℕ)
        → k ≢ 6 → verified keys party text signature ≡ Err (Bad k)
        → verified (after_all keys announced) party text signature ≡ Err (Bad k) }
{}

/// What a directory learns or adopts of one party leaves what it knows of every other party as it was.
pub fn other_parties_keys_stay()
    ensures learn { (keys : Directory) (a : Announced) (other : Party) → other ≢ a.party
        → keys_of (after_learning keys a) other ≡ keys_of keys other }
    ensures learn_all { (keys : Directory) (announced : List Announced) (other : Party)
        → All (λ a. other ≢ a.party) announced
        → keys_of (after_all keys announced) other ≡ keys_of keys other }
    ensures adopt { (keys : Directory) (party other : Party) (generation : ℕ) (key : LmsPublic)
        → other ≢ party
        → keys_of (after_adopting keys party generation key) other ≡ keys_of keys other }
{}

/// Of the party itself, a key that is new stands behind all that are known, and a party's own next key behind
/// those of the generations up to the one that it follows.
pub fn a_party_gets_one_key_more()
    ensures learn { (keys : Directory) (a : Announced) → learned keys a ≡ Ok New
        → keys_of (after_learning keys a) a.party ≡ keys_of keys a.party ++ a.key ∷ [] }
    ensures adopt { (keys : Directory) (party : Party) (generation : ℕ) (key : LmsPublic)
        → generation < length (keys_of keys party)
        → keys_of (after_adopting keys party generation key) party
        ≡ take (generation + 1) (keys_of keys party) ++ key ∷ [] }
{}

/// A statement that was seen stays seen, whatever is seen after it.
pub fn what_was_seen_stays_seen()
    ensures { (seen more : List SeenText) (signer : Party) (claim : Claim) → Saw seen signer claim
        → Saw (seen ++ more) signer claim }
{}
