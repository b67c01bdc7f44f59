//! Numbers in order.

ghost use Rattle.std.specs.Prelude.{◌≡◌};
ghost use Rattle.ar_bytes.specs.Ascending.{ascends};

/// Whether numbers ascend strictly.
#[tactic(auto, using(crate::proofs::Ascending::ascends_short))]
pub fn ascends(numbers: &[u64]) -> bool
    ensures { result ≡ ascends numbers.now }
{
    match numbers {
        [first, second, ..] => first < second && ascends(&numbers[1..]),
        [_] => true,
        [] => true,
    }
}
