ghost use Rattle.std.specs.Prelude.{◌≡◌, IfOk};
ghost use Rattle.arpki_page.specs.Called.{texts_given};
ghost use Rattle.arpki_play.specs.Words.{texts};

use std::alloc::{AllocError, Global};

/// One of the words that the program is called with.
#[repr(C)]
#[derive(Drop)]
pub struct CallWord<'a> {
    /// Its bytes, in UTF-8.
    pub text: &'a [u8],
}

/// The words, as the program takes them.
pub(crate) fn words_of(alloc: Global, given: &[CallWord]) -> Result<Vec<String>, AllocError>
    ensures { IfOk result (λ words. texts words.items ≡ texts_given given.now) }
{
    let mut words = Vec::with_capacity(alloc, given.len())?;
    for word in given {
        let text = String::from_utf8_lossy(alloc, word.text)?;
        words.push(text)?;
    }
    Ok(words)
}
