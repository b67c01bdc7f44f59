//! The policies that words of a script say.

ghost use Rattle.std.specs.Prelude.{◌≡◌, ◌<◌, ◌≤◌, length, nat_lt, true, All, IfOk};
ghost use Rattle.std.specs.List.{list_all};
ghost use Rattle.cert_drafts.specs.Policies.{are_authorities, may_wait, terms_of};

use ar_base::Items;
use ar_bytes::ascends;
use ar_cert::Policy;
use script_text::{NumberList, PolicyWords};
use std::alloc::{AllocError, Global};

/// Whether each number has two bytes.
fn have_two_bytes(numbers: &[u64]) -> bool
    ensures { result ≡ list_all (λ number. nat_lt number 65536) numbers.now }
{
    numbers.iter().all(|number| *number < 65536)
}

/// Whether numbers are those of authorities: they ascend strictly, and have two bytes each.
pub fn are_authorities(numbers: &[u64]) -> bool
    ensures { result ≡ are_authorities numbers.now }
{
    ascends(numbers) && have_two_bytes(numbers)
}

/// Whether a wait is one, where there is any.
pub fn may_wait(wait: Option<u16>) -> bool
    ensures { result ≡ may_wait wait }
{
    match wait {
        Some(wait) => (1..=10000).contains(&wait),
        None => true,
    }
}

/// The same numbers, each of two bytes.
fn in_two_bytes(alloc: Global, numbers: &[u64]) -> Result<Vec<u16>, AllocError>
    requires { All (λ number. number < 65536) numbers.now }
    ensures { IfOk result (λ list. list.items ≡ numbers.now) }
{
    let mut list = Vec::with_capacity(alloc, numbers.len())?;
    for number in numbers {
        list.push(*number as u16)?;
    }
    Ok(list)
}

/// The same numbers, each of two bytes. The only error is want of memory.
pub fn narrow(alloc: Global, numbers: &NumberList) -> Result<Items<u16>, AllocError>
    requires { All (λ number. number < 65536) numbers.now }
    ensures value { IfOk result (λ list. list ≡ numbers.now) }
    ensures few { length numbers.now ≤ 16 }
{
    let _count = numbers.len();
    let list = in_two_bytes(alloc, numbers.as_slice())?;
    Ok(Items::from_vec(list))
}

/// The policy that words say.
#[tactic(auto, using(crate::proofs::Terms::terms))]
pub(crate) fn policy(alloc: Global, words: &PolicyWords) -> Result<Policy, AllocError>
    requires ascend { are_authorities words.now.trusted ≡ true }
    requires wait { may_wait words.now.wait ≡ true }
    ensures { IfOk result (λ policy. policy ≡ terms_of words.now) }
{
    let trusted = narrow(alloc, &words.trusted)?;
    Ok(Policy {
        threshold: words.threshold,
        keyed: words.keyed,
        max_age: words.max_age,
        until: words.until,
        trusted,
        wait: words.wait,
    })
}
