//! What holds of the definitions: each is the contract of a function that does nothing.
ghost use Rattle.std.specs.Prelude.{◌≡◌, ℕ, ◌<◌, ◌↔◌, ◌⊎◌, Bool, false, List, None, Ok, Err, All, Contains, IsTrue, map};
ghost use Rattle.std.specs.List.Sorted.{IsStrictlyIncreasing};
ghost use Rattle.cert_policy.specs.Clauses.{Follows, IsUpdate, Registers, Succeeds, follow_answer, follow_clauses, in_manner, recovery_clauses, registration_answer, registration_clauses, update_answer};
ghost use Rattle.ar_base.specs.FirstFailing.{first_failing};
ghost use Rattle.cert_policy.specs.Refusals.{Clause, number_of};
ghost use Rattle.vote_quorum.specs.Numbers.{distinct_count, shared_count};
ghost use Rattle.cert_policy.specs.Terms.{CertTerms};
ghost use Rattle.cert_policy.specs.declared.manner.Manner.{Manner};
ghost use Rattle.cert_policy.specs.declared.manner.Manner.TheVariants.{Full};
ghost use Rattle.cert_policy.specs.declared.refusal.PolicyRefusal.{PolicyRefusal};
ghost use Rattle.cert_policy.specs.declared.refusal.PolicyRefusal.TheVariants.{Handover, Threshold};

/// Each list of clauses stands in order of number.
pub fn clauses_stand_in_order()
    ensures follow { (old new : CertTerms) (endorsers : List ℕ) (handover : Bool)
        → IsStrictlyIncreasing (map (λ c.
        number_of c.0) (follow_clauses old new endorsers handover)) }
    ensures recovery { (old new : CertTerms) (endorsers : List ℕ) (pending : Bool)
        → IsStrictlyIncreasing (map (λ c.
        number_of c.0) (recovery_clauses old new endorsers pending)) }
    ensures registration { (new : CertTerms) (endorsers : List ℕ)
        → IsStrictlyIncreasing (map (λ c. number_of c.0) (registration_clauses new endorsers)) }
{}

/// The answer is the least clause that fails.
pub fn the_least_clause_answers()
    ensures fails { (clauses : List Clause) (refusal : PolicyRefusal)
        → first_failing clauses ≡ Err refusal
        → Contains clauses (refusal, false) }
    ensures least { (clauses : List Clause) (refusal : PolicyRefusal)
        → IsStrictlyIncreasing (map (λ c. number_of c.0) clauses)
        → first_failing clauses ≡ Err refusal
        → All (λ c. number_of c.0 < number_of refusal → IsTrue c.1) clauses }
{}

/// Endorsers count as a set: neither their order nor repeats change a count.
pub fn endorsers_count_as_a_set()
    ensures distinct { (one other : List ℕ)
        → ((number : ℕ) → Contains one number ↔ Contains other number)
        → distinct_count one ≡ distinct_count other }
    ensures among { (trusted one other : List ℕ)
        → ((number : ℕ) → Contains one number ↔ Contains other number)
        → shared_count one trusted ≡ shared_count other trusted }
{}

/// The answers say what they mean: a certificate follows, or registers a name, exactly where its facts hold.
pub fn clauses_are_facts()
    ensures follow { (old new : CertTerms) (endorsers : List ℕ) (handover : Bool)
        → (follow_answer old new endorsers handover ≡ Ok tt) ↔ Follows old new endorsers handover }
    ensures registration { (new : CertTerms) (endorsers : List ℕ)
        → (registration_answer new endorsers ≡ Ok tt) ↔ Registers new endorsers }
{}

/// An update is taken in a manner exactly where the facts of that manner hold; so a full update meets all
/// eight clauses, and a recovery fails the domain's own alone, under a policy that has a wait and where nothing
/// is pending.
pub fn each_manner_has_its_facts()
    ensures { (manner : Manner) (old new : CertTerms) (endorsers : List ℕ) (handover pending : Bool)
        → (update_answer old new endorsers handover pending ≡ Ok manner)
        ↔ IsUpdate manner old new endorsers handover pending }
{}

/// Each update keeps the common clauses, in whatever manner it is taken.
pub fn each_update_succeeds()
    ensures { (manner : Manner) (old new : CertTerms) (endorsers : List ℕ) (handover pending : Bool)
        → IsUpdate manner old new endorsers handover pending → Succeeds old new endorsers }
{}

/// Without a wait an update is judged as a certificate that follows, whatever is pending.
pub fn no_wait_is_no_recovery()
    ensures { (old new : CertTerms) (endorsers : List ℕ) (handover pending : Bool)
        → old.policy.wait ≡ None
        → update_answer old new endorsers handover pending
        ≡ in_manner Full (follow_answer old new endorsers handover) }
{}

/// An update is refused by the sixth or the seventh clause only where the old policy has no wait.
pub fn only_without_a_wait_are_the_own_clauses_refusals()
    ensures { (old new : CertTerms) (endorsers : List ℕ) (handover pending : Bool)
        (refusal : PolicyRefusal)
        → update_answer old new endorsers handover pending ≡ Err refusal
        → (refusal ≡ Threshold) ⊎ (refusal ≡ Handover) → old.policy.wait ≡ None }
{}
