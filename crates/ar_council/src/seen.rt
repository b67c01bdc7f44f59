//! Statements that were seen: each is kept once, with the party that signed it.
ghost use Rattle.std.specs.Prelude.{◌≡◌, ◌+◌, ◌≤◌, ◌<◌, length, vec_capacity, vec_len};
ghost use Rattle.std.specs.List.{list_any};
ghost use Rattle.ar_council.specs.Seen.{is_same_seen, seen_after, with_seen};
ghost use Rattle.party_keys.specs.Seen.{seen_of};
ghost use Rattle.ar_statement.specs.Claims.{claim_of};

use ar_statement::{Party, SeenText, Statement, Text};

/// A party's statement, as it is kept.
pub fn seen_text(party: Party, statement: &Statement) -> SeenText
    ensures { result ≡ seen_of party (claim_of statement.now) }
{
    SeenText {
        party,
        text: Text::of(statement),
    }
}

/// Whether a party's text is among those that were seen.
fn was_seen(seen: &[SeenText], more: &SeenText) -> bool
    ensures { result ≡ list_any (λ s. is_same_seen s more.now) seen.now }
{
    seen.iter().any(|s| s.party.is_same(&more.party) && s.text.as_bytes() == more.text.as_bytes())
}

/// Adds a party's text, unless it is there. There is room for it, and no memory is taken.
pub fn see(seen: &mut Vec<SeenText>, more: SeenText)
    requires { vec_len seen.old < vec_capacity seen.old }
    ensures items { seen.new.items ≡ with_seen seen.old.items more }
    ensures len { vec_len seen.new ≤ vec_len seen.old + 1 }
    ensures capacity { vec_capacity seen.new ≡ vec_capacity seen.old }
{
    if !was_seen(seen, &more) {
        seen.push_reserved(more);
    }
}

/// Adds each of these texts, unless it is there. There is room for all, and no memory is taken.
pub fn see_each(seen: &mut Vec<SeenText>, more: &[SeenText])
    requires { vec_len seen.old + length more.now ≤ vec_capacity seen.old }
    ensures { seen.new.items ≡ seen_after seen.old.items more.now }
{
    for text in more {
        see(seen, *text);
    }
}
