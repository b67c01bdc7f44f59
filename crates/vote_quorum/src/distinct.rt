ghost use Rattle.std.specs.Prelude.{◌≡◌};
ghost use Rattle.vote_quorum.specs.Numbers.{distinct_count, shared_count};

/// How many distinct numbers there are, in whatever order they stand.
///
/// It takes no memory, and compares each number with those before it.
#[tactic(auto, using(crate::proofs::Counting::distinct_more, crate::proofs::Counting::counting))]
pub fn distinct_count(numbers: &[u16]) -> usize
    ensures { result ≡ distinct_count numbers.now }
{
    let mut count = 0;
    for (i, number) in numbers.iter().enumerate() {
        if !numbers[..i].contains(number) {
            count += 1;
        }
    }
    count
}

/// How many distinct numbers stand in both lists, in whatever order.
///
/// It takes no memory, and compares each number with those before it and with the others.
#[tactic(auto, using(crate::proofs::Shared::shared_more, crate::proofs::Shared::sharing))]
pub fn shared_count(numbers: &[u16], others: &[u16]) -> usize
    ensures { result ≡ shared_count numbers.now others.now }
{
    let mut count = 0;
    for (i, number) in numbers.iter().enumerate() {
        if others.contains(number) && !numbers[..i].contains(number) {
            count += 1;
        }
    }
    count
}
