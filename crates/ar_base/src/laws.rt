//! Laws on the definitions of `specs/`: each is the contract of a function with an empty body.
ghost use Rattle.std.specs.Prelude.{◌≡◌, ◌+◌, ◌<◌, ◌≤◌, ◌↔◌, ℕ, Bool, false, List, length, get_or, Result, Ok, Err, All, IsTrue};
ghost use Rattle.sha2.specs.Sha256.{sha256};
ghost use Rattle.ar_base.specs.Bytes.{IsDigest};
ghost use Rattle.ar_base.specs.Apart.{Apart, IsIn, none_collide};
ghost use Rattle.ar_base.specs.Faults.{HasRisen, most_faults, one_more};
ghost use Rattle.ar_base.specs.FirstFailing.{first_failing};
ghost use Rattle.ar_base.specs.Gives.{GivesOrWants, GivesUnless};

/// A count after one more has risen.
pub fn one_more_has_risen()
    ensures { (count : ℕ) → HasRisen count (one_more count) }
{}

/// A count that stays has not risen, unless it stands at the greatest.
pub fn a_count_that_stays_has_not_risen()
    ensures { (count : ℕ) → HasRisen count count → count ≡ most_faults }
{}

/// What rose in a part of a run rose in the whole of it, where counts never fall.
pub fn a_rise_lasts()
    ensures before { (start old new : ℕ) → start ≤ old → HasRisen old new → HasRisen start new }
    ensures behind { (old new end : ℕ) → old ≤ new → new ≤ end → HasRisen old new
        → HasRisen old end }
{}

/// Of two strings of a list in which none collide, the digest tells which it is.
pub fn a_digest_is_of_one_string()
    ensures { (strings : List (List ℕ)) → IsTrue (none_collide strings) → Apart strings }
{}

/// Where no two strings of a list collide, no two of a part of it do.
pub fn no_part_collides()
    ensures { (part strings : List (List ℕ)) → ((x : List ℕ) → IsIn part x → IsIn strings x)
        → IsTrue (none_collide strings) → IsTrue (none_collide part) }
{}

/// No test of a list fails exactly where all hold. The fault of the list is that of a test which does
/// not hold, behind tests that all hold.
pub fn the_first_that_fails<E>()
    ensures none { (tests : List (E × Bool))
        → (first_failing tests ≡ Ok tt) ↔ All (λ t. IsTrue t.1) tests }
    ensures fault { (tests : List (E × Bool)) (error : E) → first_failing tests ≡ Err error
        → (place : ℕ) × ((place < length tests)
        × (((d : E × Bool) → get_or tests place d ≡ (error, false))
        × ((k : ℕ) (d : E × Bool) → k < place → IsTrue (get_or tests k d).1))) }
{}

/// Where want of memory never stands in a refusal's place, each refusal that is expected is given, and
/// the answer is one that may be given at all.
pub fn a_refusal_is_given<T, V, E>()
    ensures refused { (memory : E) (view : T → V) (result : Result T E) (expected : Result V E)
        (error : E)
        → GivesOrWants memory view result expected → expected ≡ Err error → result ≡ Err error }
    ensures given { (memory : E) (view : T → V) (result : Result T E) (expected : Result V E)
        → GivesOrWants memory view result expected → GivesUnless memory view result expected }
{}

/// A digest under SHA-256 has 32 bytes.
pub fn a_digest_has_32_bytes()
    ensures { (string : List ℕ) → IsDigest (sha256 string) }
{}
