ghost use Rattle.std.specs.Prelude.{◌≡◌, ◌≤◌};
ghost use Rattle.script_text.specs.Forms.{ascending_of, asks_of, list_of, trusted_of};

use crate::numbers::NumberList;
use ar_bytes::ascends;
use ar_lines::{first_part, number_in};

/// At most so many numbers that are not above this one.
fn list_of(count: usize, most: u64, word: &[u8]) -> Option<NumberList>
    requires { count ≤ 16 }
    ensures { result ≡ list_of count most word.now }
{
    let mut numbers = NumberList::new();
    let mut rest = Some(word);
    while let Some(text) = rest {
        let (part, behind) = first_part(text, b',');
        let number = number_in(0, most, part)?;
        if numbers.len() >= count {
            return None;
        }
        numbers = numbers.with(number);
        rest = behind;
    }
    Some(numbers)
}

/// At most so many numbers that ascend strictly, none above this one.
#[tactic(auto, unfolding(crate::specs::Forms::ascending_of))]
fn ascending_of(count: usize, most: u64, word: &[u8]) -> Option<NumberList>
    requires { count ≤ 16 }
    ensures { result ≡ ascending_of count most word.now }
{
    let numbers = list_of(count, most, word)?;
    if !ascends(numbers.as_slice()) {
        return None;
    }
    Some(numbers)
}

/// The authorities that a policy trusts.
#[tactic(auto, unfolding(crate::specs::Forms::trusted_of))]
pub(crate) fn trusted_of(word: &[u8]) -> Option<NumberList>
    ensures { result ≡ trusted_of word.now }
{
    if word == b"-".as_slice() {
        return Some(NumberList::new());
    }
    ascending_of(16, 65535, word)
}

/// The authorities that an owner asks.
#[tactic(auto, unfolding(crate::specs::Forms::asks_of))]
pub(crate) fn asks_of(word: &[u8]) -> Option<NumberList>
    ensures { result ≡ asks_of word.now }
{
    ascending_of(8, u64::MAX, word)
}
