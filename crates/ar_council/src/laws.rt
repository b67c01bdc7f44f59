//! Laws on the definitions of `specs/`: each is the contract of a function with an empty body.
ghost use Rattle.std.specs.Prelude.{◌≡◌, ◌↔◌, ◌⊎◌, ℕ, List, Contains};
ghost use Rattle.ar_statement.specs.declared.party.Party.{Party};
ghost use Rattle.ar_statement.specs.declared.text.SeenText.{SeenText};
ghost use Rattle.lms_tree.specs.declared.public_key.LmsPublic.{LmsPublic};
ghost use Rattle.party_keys.specs.Directory.{Directory};
ghost use Rattle.party_keys.specs.Learning.{Announced, after_adopting, after_all, after_learning};
ghost use Rattle.ar_council.specs.Council.{council_of};
ghost use Rattle.ar_council.specs.Seen.{seen_after};

/// What is seen afterwards is what was seen and what is new, and nothing else.
pub fn what_is_seen_is_old_or_new()
    ensures { (seen more : List SeenText) (t : SeenText)
        → Contains (seen_after seen more) t ↔ (Contains seen t ⊎ Contains more t) }
{}

/// What a directory learns, and a party's own next key, leaves the council as it is.
pub fn what_is_learnt_leaves_the_council()
    ensures learnt { (keys : Directory) (a : Announced)
        → council_of (after_learning keys a) ≡ council_of keys }
    ensures all_learnt { (keys : Directory) (announced : List Announced)
        → council_of (after_all keys announced) ≡ council_of keys }
    ensures adopted { (keys : Directory) (party : Party) (generation : ℕ) (key : LmsPublic)
        → council_of (after_adopting keys party generation key) ≡ council_of keys }
{}
