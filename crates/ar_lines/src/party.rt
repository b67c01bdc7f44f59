//! The words of parties.
ghost use Rattle.std.specs.Prelude.{◌≡◌};
ghost use Rattle.ar_lines.specs.Parties.{letter_of, party_of, role_of};

use crate::word::number_in;
use ar_statement::{Party, Role};

/// The letter of a role.
pub fn letter_of(role: Role) -> u8
    ensures { result ≡ letter_of role }
{
    match role {
        Role::LogServer => b'L',
        Role::Authority => b'A',
        Role::Owner => b'D',
        Role::Client => b'C',
    }
}

/// The role that a letter stands for.
fn role_of(letter: u8) -> Option<Role>
    ensures { result ≡ role_of letter }
{
    match letter {
        b'L' => Some(Role::LogServer),
        b'A' => Some(Role::Authority),
        b'D' => Some(Role::Owner),
        b'C' => Some(Role::Client),
        _ => None,
    }
}

/// The party that a word spells by the letter of its role and its number; `None` exactly where it spells none.
#[tactic(auto, unfolding(crate::specs::Parties::party_of))]
pub fn party_of(word: &[u8]) -> Option<Party>
    ensures { result ≡ party_of word.now }
{
    let [letter, digits @ ..] = word else {
        return None;
    };
    let role = role_of(*letter)?;
    let number = number_in(0, 65535, digits)?;
    Some(role.party(number as u16))
}
