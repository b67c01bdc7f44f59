//! Laws on the definitions of `specs/`: each is the contract of a function with an empty body.
ghost use Rattle.std.specs.Prelude.{◌≡◌, ℕ, List, IsTrue, Contains, false, true};
ghost use Rattle.std.specs.List.{list_all};
ghost use Rattle.run_safety.specs.ar_nodes.Parties.{CheckParts};
ghost use Rattle.ar_base.specs.Apart.{Apart, none_collide};
ghost use Rattle.ar_safety.specs.Hashed.{hashed};
ghost use Rattle.ar_safety.specs.Held.{Held, records_of};
ghost use Rattle.ar_safety.specs.Records.{Records, signed_by};
ghost use Rattle.ar_safety.specs.Theorem.{NoCollision};
ghost use Rattle.ar_statement.specs.Claims.{has_party};
ghost use Rattle.run_safety.specs.ar_world.Records.{held_of};
ghost use Rattle.run_safety.specs.ar_world.Run.{Saying, run};
ghost use Rattle.hashed_strings.specs.Index.{Collide};
ghost use Rattle.party_keys.specs.Signatures.{IsVerified};
ghost use Rattle.party_keys.specs.Signers.{Claimed};
ghost use Rattle.run_premises.specs.Books.{NoneForgedIn, are_fair, is_fair};
ghost use Rattle.run_premises.specs.Hashing.{AreAskedAlike};
ghost use Rattle.run_premises.specs.Known.{KnowAsMany, NoneRolled};
ghost use Rattle.run_safety.specs.Unforged.{Unforged, messages_of};

/// Where each claim of each message is fair, none is forged; and a claim that is not fair is a forgery: its party is not dishonest,
/// its signature is valid under the keys that clients know, and the party's book does not have its text.
pub fn what_is_not_fair_is_forged()
    ensures fair { (h : Held) (messages : List (List ℕ)) → IsTrue (list_all (are_fair h) messages)
        → NoneForgedIn h messages }
    ensures forged { (h : Held) (c : Claimed) → is_fair h c ≡ false
        → (has_party h.dishonest c.party ≡ false)
        × IsVerified h.directory c.party c.text c.signature
        × ¬ Contains (signed_by (records_of h) c.party) c.text }
{}

/// Where the premise on forgery of the theorem of a run holds, which speaks of honest parties' own keys, no claim is forged by
/// the keys that clients know: so a run of which one is found does not meet it. And where clients know as many keys of each
/// honest party as it has, the premise holds where none is found. They do where no honest party went on to a second key.
pub fn the_test_is_of_the_premise()
    ensures finds { (saying : Saying) (checks : List CheckParts) (input : List ℕ)
        → Unforged (run saying checks input).world
        → NoneForgedIn (held_of (run saying checks input).world)
        (messages_of (run saying checks input).world.pool) }
    ensures meets { (saying : Saying) (checks : List CheckParts) (input : List ℕ)
        → KnowAsMany (run saying checks input).world
        → NoneForgedIn (held_of (run saying checks input).world)
        (messages_of (run saying checks input).world.pool)
        → Unforged (run saying checks input).world }
    ensures first { (saying : Saying) (checks : List CheckParts) (input : List ℕ)
        → NoneRolled (run saying checks input).world
        → KnowAsMany (run saying checks input).world }
{}

/// What it means whether the hashed strings of a run collide (`none_collide`). Where they do not, two of them with one digest are
/// one string; where they do, two of them differ and have one digest. The premise on collisions of the theorem says first that
/// they do not, in these words: so a run of which they do does not meet it, and where they do not, what is left of it is
/// what it says of the certificates that authorities were asked for.
pub fn the_strings_of_the_premise_are_told()
    ensures apart { (r : Records) → none_collide (hashed r) ≡ true → Apart (hashed r) }
    ensures collide { (r : Records) → none_collide (hashed r) ≡ false → Collide (hashed r) }
    ensures needed { (r : Records) → NoCollision r → none_collide (hashed r) ≡ true }
    ensures enough { (r : Records) → none_collide (hashed r) ≡ true → AreAskedAlike r
        → NoCollision r }
{}
