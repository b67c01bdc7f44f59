ghost use Rattle.std.specs.Prelude.{◌≡◌, ◌<◌, bytes_eq, map, position};
ghost use Rattle.ar_base.specs.Places.{place_of};
ghost use Rattle.key_roll.specs.Rolls.{is_roll, plain_count};

use crate::SignedText;
use ar_statement::Text;

// The kind of a Roll.
const ROLL_KIND: u8 = 10;

/// Whether a text is a Roll's.
pub(crate) fn is_roll(text: &Text) -> bool
    ensures { result ≡ is_roll text.now }
{
    match text.as_bytes().first() {
        Some(kind) => *kind == ROLL_KIND,
        None => false,
    }
}

/// How many entries of a generation are no Rolls.
pub(crate) fn plain_count(list: &[SignedText], generation: u32) -> usize
    ensures { result ≡ plain_count generation list.now }
{
    list.iter()
        .filter(|s| s.generation == generation && !is_roll(&s.text))
        .count()
}

/// A count below the number of leaves as the number of a leaf.
pub(crate) fn leaf_number(count: usize, leaves: u32) -> u32
    requires { count < leaves }
    ensures { result ≡ count }
{
    count as u32
}

/// The place of a text in a list, from 0. It looks at the texts in order.
pub(crate) fn place_of(list: &[SignedText], text: &Text) -> Option<usize>
    ensures { result ≡ place_of (map (λ s. s.text) list.now) text.now }
{
    first_with(list, text)
}

// The first entry with a text.
fn first_with(list: &[SignedText], text: &Text) -> Option<usize>
    ensures { result ≡ position (λ s. bytes_eq text.now s.text) list.now }
{
    list.iter()
        .position(|s| text.as_bytes() == s.text.as_bytes())
}
