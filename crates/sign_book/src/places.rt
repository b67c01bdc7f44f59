ghost use Rattle.std.specs.Prelude.{◌≡◌};
ghost use Rattle.ar_base.specs.Places.{place_of};

use ar_statement::Text;

/// The place of a text in a list, from 0. It looks at the texts in order.
pub(crate) fn place_of(texts: &[Text], text: &Text) -> Option<usize>
    ensures { result ≡ place_of texts.now text.now }
{
    texts
        .iter()
        .position(|other| text.as_bytes() == other.as_bytes())
}
