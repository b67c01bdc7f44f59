ghost use Rattle.std.specs.Prelude.{◌≡◌, ◌≤◌, ◌↔◌, IsOk, IfErr, IfSome, IsSomeAnd, MatchBool, IsTrue, length};
ghost use Rattle.vote_quorum.specs.Statuses.{AreStatuses, Excludes, IsMostReported, ComesBefore, is_for, report_count};

use crate::Value;

/// Whether a ballot is for the root.
fn is_for(ballot: &Option<Value>, root: &[u8; 32]) -> bool
    ensures { result ≡ is_for root.now ballot.now }
{
    match ballot {
        Some(value) => value.root == *root,
        None => false,
    }
}

/// How many statuses report a ballot for the root.
fn report_count(statuses: &[(u16, Option<Value>)], root: &[u8; 32]) -> usize
    ensures count { result ≡ report_count root.now statuses.now }
    ensures most { result ≤ length statuses.now }
{
    let mut count = 0;
    for (_, ballot) in statuses {
        if is_for(ballot, root) {
            count += 1;
        }
    }
    count
}

/// Whether a root, reported `count` times, comes before another one, reported `others` times, or is it.
fn leads(root: &[u8; 32], count: usize, other: &[u8; 32], others: usize) -> bool
    ensures { IsTrue result ↔ ComesBefore root.now count other.now others }
{
    others < count || (others == count && root.cmp(other).is_le())
}

/// Whether a root, reported `count` times, comes before the first one so far, where there is one.
fn comes_first(root: &[u8; 32], count: usize, first: &Option<[u8; 32]>, most: usize) -> bool
    ensures { MatchBool result (IfSome first.now (λ other. ComesBefore root.now count other most))
        (IsSomeAnd first.now (λ other. ComesBefore other most root.now count)) }
{
    match first {
        Some(other) => !leads(other, most, root, count),
        None => true,
    }
}

/// The root that is reported most often, the least by bytes among equals, with the number of its reports;
/// or none and 0 where none is reported.
fn most_reported(statuses: &[(u16, Option<Value>)]) -> (Option<[u8; 32]>, usize)
    ensures most { IsMostReported statuses.now result.0 result.1 }
    ensures within { result.1 ≤ length statuses.now }
{
    let mut first = None;
    let mut most = 0;
    for (_, ballot) in statuses {
        if let Some(value) = ballot {
            let count = report_count(statuses, &value.root);
            if comes_first(&value.root, count, &first, most) {
                first = Some(value.root);
                most = count;
            }
        }
    }
    (first, most)
}

/// Whether the statuses of an epoch exclude that a quorum of `q` of the `n` logs votes for any root in it:
/// for each root, reported or not, the statuses that report a ballot for it, the logs without a status and
/// two logs that may lie are together less than `q`.
///
/// A status is a log's number with the ballot that it reports, if any. An error has the root that is
/// reported most often, the least by bytes among equals, with the number of its reports, or `None` and 0
/// where no root is reported. It takes no memory, and looks at each pair of statuses.
pub fn excluded(
    n: usize,
    q: usize,
    statuses: &[(u16, Option<Value>)],
) -> Result<(), (Option<[u8; 32]>, usize)>
    requires { AreStatuses n statuses.now }
    ensures ok { IsOk result ↔ Excludes n q statuses.now }
    ensures err { IfErr result (λ most. IsMostReported statuses.now most.0 most.1) }
{
    let (root, count) = most_reported(statuses);
    if count + (n - statuses.len()) < q.saturating_sub(2) {
        Ok(())
    } else {
        Err((root, count))
    }
}
