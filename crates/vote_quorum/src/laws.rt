//! What holds of the definitions: each is the contract of a function that does nothing.
ghost use Rattle.std.specs.Prelude.{◌≡◌, ◌≢◌, ℕ, ◌+◌, ◌*◌, ◌<◌, ◌≤◌, ◌↔◌, ◌⊎◌, ◌==◌, Bool, List, Option, Some, None, All, Contains, IsTrue, length};
ghost use Rattle.std.specs.List.{IsDistinct, filter};
ghost use Rattle.vote_quorum.specs.Ballots.{Ballot, has_ballot, is_same, log_count, quorum_of, with_ballot};
ghost use Rattle.vote_quorum.specs.Counted.{AtLeast, Shares, count_below};
ghost use Rattle.vote_quorum.specs.Numbers.{distinct_count, shared_count};
ghost use Rattle.vote_quorum.specs.Statuses.{AreStatuses, Excludes, IsMostReported, Status, is_for, logs_of, report_count};
ghost use Rattle.vote_quorum.specs.declared.value.Value.{Value};

/// A list without repeats has as many distinct numbers as it is long, and no list has more.
pub fn a_list_without_repeats_counts_all()
    ensures distinct { (numbers : List ℕ) → IsDistinct (λ a b. a == b) numbers
        → distinct_count numbers ≡ length numbers }
    ensures most { (numbers : List ℕ) → distinct_count numbers ≤ length numbers }
{}

/// Among n logs two quorums of q share at least three, where 2q > n + 2: whichever two are dishonest,
/// an honest one is in both. The order in which the logs stand is free.
pub fn quorums_share_three_logs()
    ensures lists { (n q : ℕ) (one other : List ℕ) → n + 2 < 2 * q
        → All (λ log. log < n) one → All (λ log. log < n) other
        → IsDistinct (λ a b. a == b) one → IsDistinct (λ a b. a == b) other
        → q ≤ length one → q ≤ length other → 3 ≤ shared_count one other }
    ensures counts { (n q : ℕ) (one other : List ℕ) → n + 2 < 2 * q
        → All (λ log. log < n) one → All (λ log. log < n) other
        → q ≤ distinct_count one → q ≤ distinct_count other → 3 ≤ shared_count one other }
{}

/// Of three logs or more that two lists share, or that one list has, one is beside any two that are named.
pub fn one_shared_log_is_beside_any_two()
    ensures shared { (one other : List ℕ) (a b : ℕ) → 3 ≤ shared_count one other
        → (log : ℕ) × (Contains one log × Contains other log × (log ≢ a) × (log ≢ b)) }
    ensures alone { (logs : List ℕ) (a b : ℕ) → 3 ≤ distinct_count logs
        → (log : ℕ) × (Contains logs log × (log ≢ a) × (log ≢ b)) }
{}

/// A list shares its distinct numbers with itself.
pub fn a_list_shares_all_with_itself()
    ensures { (numbers : List ℕ) → shared_count numbers numbers ≡ distinct_count numbers }
{}

/// At least q of the numbers below n pass a test exactly where q of them are counted.
pub fn at_least_is_a_count()
    ensures { (q n : ℕ) (test : ℕ → Bool)
        → AtLeast q n (λ k. IsTrue (test k)) ↔ (q ≤ count_below n test) }
{}

/// Of two quorums of q among n logs, where 2q > n + 2, a log beside any two that are named is in both.
pub fn quorums_share_a_log_beside_any_two()
    ensures { (n q : ℕ) (one other : ℕ → Bool) → n + 2 < 2 * q
        → AtLeast q n (λ k. IsTrue (one k)) → AtLeast q n (λ k. IsTrue (other k))
        → (a b : ℕ) → Shares n (λ k. IsTrue (one k)) (λ k. IsTrue (other k)) a b }
{}

/// Where the statuses exclude each root and at most two logs lie, each root has fewer than q votes: a log
/// that votes for it lies, or states nothing, or reports it.
pub fn an_excluded_root_gets_no_quorum()
    ensures { (n q : ℕ) (statuses : List Status) (root : List ℕ) (lies votes : ℕ → Bool)
        → AreStatuses n statuses → Excludes n q statuses → count_below n lies ≤ 2
        → ((log : ℕ) → log < n → IsTrue (votes log)
        → IsTrue (lies log) ⊎ All (λ s. s.0 ≡ log → IsTrue (is_for root s.1)) statuses)
        → count_below n votes < q }
{}

/// Statuses exclude each root exactly where the sums say so, without a difference.
pub fn exclusion_is_by_sums()
    ensures { (n q : ℕ) (statuses : List Status) → AreStatuses n statuses
        → Excludes n q statuses
        ↔ ((root : List ℕ) → report_count root statuses + n + 2 < q + length statuses) }
{}

/// Where 2q > n + 2, the statuses of q logs of which none reports a ballot exclude each root.
pub fn a_silent_quorum_excludes_each_root()
    ensures { (n q : ℕ) (statuses : List Status) → n + 2 < 2 * q → AreStatuses n statuses
        → q ≤ length statuses
        → All (λ s. s.1 ≡ None) statuses → Excludes n q statuses }
{}

/// No log is counted twice: there are as many logs with a status as statuses, and no more logs report a root
/// than statuses do.
pub fn each_status_is_of_one_log()
    ensures all { (n : ℕ) (statuses : List Status) → AreStatuses n statuses
        → distinct_count (logs_of statuses) ≡ length statuses }
    ensures few { (n : ℕ) (statuses : List Status) → AreStatuses n statuses → length statuses ≤ n }
    ensures reports { (root : List ℕ) (statuses : List Status)
        → distinct_count (logs_of (filter (λ s. is_for root s.1) statuses))
        ≤ report_count root statuses }
{}

/// At most one root is the one that is reported most often.
pub fn one_root_is_reported_most()
    ensures { (statuses : List Status) (one other : Option (List ℕ)) (count others : ℕ)
        → IsMostReported statuses one count → IsMostReported statuses other others
        → (one ≡ other) × (count ≡ others) }
{}

/// A count grows by one exactly with a new ballot for the value, and another value's count stays.
pub fn a_count_grows_with_a_new_ballot()
    ensures new { (ballots : List Ballot) (log : ℕ) (value : Value)
        → (Contains ballots (log, value) → ⊥)
        → log_count (with_ballot ballots (log, value)) value ≡ log_count ballots value + 1 }
    ensures again { (ballots : List Ballot) (ballot : Ballot) → Contains ballots ballot
        → with_ballot ballots ballot ≡ ballots }
    ensures others { (ballots : List Ballot) (log : ℕ) (value other : Value) → value ≢ other
        → log_count (with_ballot ballots (log, value)) other ≡ log_count ballots other }
{}

/// The value with a quorum has as many logs; where there is none, no value has.
pub fn a_quorum_is_of_distinct_logs()
    ensures found { (ballots : List Ballot) (q : ℕ) (value : Value)
        → quorum_of ballots q ≡ Some value
        → q ≤ log_count ballots value }
    ensures none { (ballots : List Ballot) (q : ℕ) → 0 < q → quorum_of ballots q ≡ None
        → (value : Value) → log_count ballots value < q }
{}

/// The tests that the definitions make say that two values, or two ballots, are equal.
pub fn tests_are_equalities()
    ensures values { (value other : Value) → IsTrue (is_same value other) ↔ (value ≡ other) }
    ensures ballots { (ballots : List Ballot) (ballot : Ballot)
        → IsTrue (has_ballot ballots ballot) ↔ Contains ballots ballot }
{}
