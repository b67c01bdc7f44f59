//! Laws over the definitions alone: each is the contract of a function with an empty body.
ghost use Rattle.std.specs.Prelude.{◌≡◌, ℕ, List, Option, Some, Err, slice_get, take};
ghost use Rattle.std.specs.Result.{result_ok};
ghost use Rattle.ar_cert.specs.Changes.{Change};
ghost use Rattle.domain_table.specs.Applying.{apply, judge_ripe};
ghost use Rattle.domain_table.specs.Tables.{Table};
ghost use Rattle.domain_table.specs.declared.refusal.ChangeRefusal.{ChangeRefusal};
ghost use Rattle.log_sending.specs.Judged.{judged};
ghost use Rattle.log_sending.specs.Reported.{most_reported};
ghost use Rattle.vote_quorum.specs.Statuses.{IsMostReported, Status};

/// A list of changes is judged as it is applied: where none is refused they apply, and else the first is refused that the
/// table behind those before it does not take.
pub fn changes_are_judged_as_they_apply()
    ensures applied { (table : Table) (epoch : ℕ) (changes : List Change)
        → result_ok (judged table epoch changes) ≡ apply table epoch changes }
    ensures refused { (table : Table) (epoch : ℕ) (changes : List Change) (index : ℕ)
        (refusal : ChangeRefusal)
        → judged table epoch changes ≡ Err (index, refusal)
        → (before : Table) × (change : Change)
        × (apply table epoch (take index changes) ≡ Some before)
        × (slice_get changes index ≡ Some change) × (judge_ripe before change ≡ Err refusal) }
{}

/// The root that a refused skip tells, with its count, is the one that the most statuses report, the least by bytes among
/// equals; or none and 0 where none is reported.
pub fn a_refused_skip_tells_the_most_reported()
    ensures { (statuses : List Status) (most : Option (List ℕ)) (count : ℕ)
        → IsMostReported statuses most count
        → most_reported statuses ≡ (most, count) }
{}
