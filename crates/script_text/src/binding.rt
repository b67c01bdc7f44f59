ghost use Rattle.std.specs.Prelude.{◌≡◌};
ghost use Rattle.std.specs.Option.{option_copied};
ghost use Rattle.script_text.specs.Forms.{behind, binding_of, wait_of};

use ar_lines::number_in;

/// What stands behind this beginning of a word.
fn behind<'a>(front: &[u8], word: &'a [u8]) -> Option<&'a [u8]>
    ensures { option_copied result ≡ behind front.now word.now }
{
    word.strip_prefix(front)
}

/// The wait at the end of a word.
#[tactic(auto, unfolding(crate::specs::Forms::wait_of))]
fn wait_of(text: &[u8]) -> Option<Option<u16>>
    ensures { result ≡ wait_of text.now }
{
    let [mark, digits @ ..] = text else {
        return Some(None);
    };
    if *mark != b'/' {
        return None;
    }
    let wait = number_in(1, 10_000, digits)?;
    Some(Some(wait as u16))
}

/// Whether a domain is bound to its key, and for how many epochs a recovery waits, where there is one.
#[tactic(auto, unfolding(crate::specs::Forms::binding_of))]
pub(crate) fn binding_of(word: &[u8]) -> Option<(bool, Option<u16>)>
    ensures { result ≡ binding_of word.now }
{
    if let Some(text) = behind(b"keyed", word) {
        let wait = wait_of(text)?;
        return Some((true, wait));
    }
    let text = behind(b"free", word)?;
    let wait = wait_of(text)?;
    Some((false, wait))
}
