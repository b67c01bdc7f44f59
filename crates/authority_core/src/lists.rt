//! The lists of an authority's record, with one more behind them unless it is there.

ghost use Rattle.std.specs.Prelude.{◌≡◌, ◌+◌, ◌<◌, ◌≤◌, ◌&&◌, length, vec_len, vec_capacity};
ghost use Rattle.std.specs.List.{list_any};
ghost use Rattle.ar_base.specs.Adding.{with_one};
ghost use Rattle.authority_core.specs.Calls.{are_same, is_same_asked, is_same_bottom, is_same_kept};

use crate::entries::{Approved, Kept};
use ar_council::is_same_digest;
use tree_proof::Bottom;

// ---- what the check said yes to

fn is_same_asked(a: &Approved, b: &Approved) -> bool
    ensures { result ≡ is_same_asked a.now b.now }
{
    a.name.text() == b.name.text() && a.key == b.key && a.certificate == b.certificate
}

fn has_asked(asked: &[Approved], a: &Approved) -> bool
    ensures { result ≡ list_any (λ b. is_same_asked b a.now) asked.now }
{
    asked.iter().any(|b| is_same_asked(b, a))
}

/// Puts one more behind what the check said yes to, unless it is there. There is room for it.
pub(crate) fn put_asked(asked: &mut Vec<Approved>, a: Approved)
    requires { vec_len asked.old < vec_capacity asked.old }
    ensures { asked.new.items ≡ with_one is_same_asked asked.old.items a }
{
    if !has_asked(asked, &a) {
        asked.push_reserved(a);
    }
}

// ---- what is kept

fn is_same_bottom(one: &Option<Bottom>, other: &Option<Bottom>) -> bool
    ensures { result ≡ is_same_bottom one.now other.now }
{
    match one {
        None => other.is_none(),
        Some(Bottom::Empty) => match other {
            Some(Bottom::Empty) => true,
            _ => false,
        },
        Some(Bottom::Other { key, value }) => match other {
            Some(
                Bottom::Other {
                    key: other_key,
                    value: other_value,
                },
            ) => key == other_key && value == other_value,
            _ => false,
        },
    }
}

fn are_same(one: &[[u8; 32]], other: &[[u8; 32]]) -> bool
    ensures { result ≡ are_same one.now other.now }
{
    match one {
        [] => other.is_empty(),
        [step, above @ ..] => match other {
            [] => false,
            [other_step, other_above @ ..] => step == other_step && are_same(above, other_above),
        },
    }
}

fn is_same_kept(k: &Kept, l: &Kept) -> bool
    ensures { result ≡ is_same_kept k.now l.now }
{
    k.epoch == l.epoch
        && k.name.text() == l.name.text()
        && is_same_digest(&k.certificate, &l.certificate)
        && k.base == l.base
        && k.root == l.root
        && is_same_bottom(&k.bottom, &l.bottom)
        && are_same(k.steps.as_slice(), l.steps.as_slice())
}

fn has_kept(kept: &[Kept], k: &Kept) -> bool
    ensures { result ≡ list_any (λ l. is_same_kept l k.now) kept.now }
{
    kept.iter().any(|l| is_same_kept(l, k))
}

/// Puts one more behind what is kept, unless it is there. There is room for it.
pub(crate) fn put_kept(kept: &mut Vec<Kept>, k: Kept)
    requires { vec_len kept.old < vec_capacity kept.old }
    ensures { kept.new.items ≡ with_one is_same_kept kept.old.items k }
{
    if !has_kept(kept, &k) {
        kept.push_reserved(k);
    }
}
