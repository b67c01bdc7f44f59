//! What words spell, and how many words there are.

ghost use Rattle.std.specs.Prelude.{◌≡◌, IfOk};
ghost use Rattle.std.specs.Option.{option_copied};
ghost use Rattle.std.specs.Result.{result_map_both};
ghost use Rattle.ar_lines.specs.Forms.{bytes_of_hex, name_of};
ghost use Rattle.ar_lines.specs.Views.{words_behind};
ghost use Rattle.script_text.specs.Grammar.{one_word, three_words, two_words};
ghost use Rattle.script_text.specs.Rows.{authority_of, owner_of};
ghost use Rattle.party_desk.specs.Owners.{spelled_certificate, spelled_handover};

use ar_base::Items;
use ar_cert::{Cert, CertFault};
use ar_lines::{LineFault, Reason, Word, first_word, party_of};
use ar_names::Name;
use ar_statement::Role;
use owner_keeper::MOST_HANDOVER;
use std::alloc::{AllocError, Global};

// ---- so many words

/// The one word behind the first of a line.
pub(crate) fn one_word<'a>(behind: Option<&'a [u8]>) -> Result<&'a [u8], Reason>
    ensures { result_map_both (λ word. word.now) (λ e. e) result
        ≡ one_word (words_behind (option_copied behind.entry)) }
{
    let Some(behind) = behind else {
        return Err(Reason::Words);
    };
    match first_word(behind) {
        (word, None) => Ok(word),
        (_, Some(_)) => Err(Reason::Words),
    }
}

/// The two words behind the first of a line.
pub(crate) fn two_words<'a>(behind: Option<&'a [u8]>) -> Result<(&'a [u8], &'a [u8]), Reason>
    ensures { result_map_both (λ words. (words.0.now, words.1.now)) (λ e. e) result
        ≡ two_words (words_behind (option_copied behind.entry)) }
{
    let Some(behind) = behind else {
        return Err(Reason::Words);
    };
    let (first, behind) = first_word(behind);
    let second = one_word(behind)?;
    Ok((first, second))
}

/// The three words behind the first of a line.
pub(crate) fn three_words<'a>(
    behind: Option<&'a [u8]>,
) -> Result<(&'a [u8], &'a [u8], &'a [u8]), Reason>
    ensures { result_map_both (λ words. (words.0.now, words.1.now, words.2.now)) (λ e. e) result
        ≡ three_words (words_behind (option_copied behind.entry)) }
{
    let Some(behind) = behind else {
        return Err(Reason::Words);
    };
    let (first, behind) = first_word(behind);
    let (second, third) = two_words(behind)?;
    Ok((first, second, third))
}

// ---- what a word spells; `None` exactly where it spells none, and the one error is want of memory

/// The bytes that a word of hex spells.
pub(crate) fn bytes_of(alloc: Global, word: &[u8]) -> Result<Option<Items<u8>>, AllocError>
    ensures { IfOk result (λ bytes. bytes ≡ bytes_of_hex word.now) }
{
    match Word::new(0, 0, word).bytes(alloc) {
        Ok(bytes) => Ok(Some(Items::from_vec(bytes))),
        Err(LineFault::Refused(_)) => Ok(None),
        Err(LineFault::Memory) => Err(AllocError),
    }
}

/// The name that a word is.
pub(crate) fn name_of(alloc: Global, word: &[u8]) -> Result<Option<Name>, AllocError>
    ensures { IfOk result (λ name. name ≡ name_of word.now) }
{
    match Word::new(0, 0, word).name(alloc) {
        Ok(name) => Ok(Some(name)),
        Err(LineFault::Refused(_)) => Ok(None),
        Err(LineFault::Memory) => Err(AllocError),
    }
}

/// The number of the authority that a word names.
#[tactic(auto, unfolding(script_text::specs::Forms::number_with))]
pub(crate) fn authority_of(word: &[u8]) -> Option<u16>
    ensures { result ≡ authority_of word.now }
{
    let party = party_of(word)?;
    if party.role.number() == Role::Authority.number() {
        Some(party.number)
    } else {
        None
    }
}

/// The number of the owner that a word names.
#[tactic(auto, unfolding(script_text::specs::Forms::number_with))]
pub(crate) fn owner_of(word: &[u8]) -> Option<u16>
    ensures { result ≡ owner_of word.now }
{
    let party = party_of(word)?;
    if party.role.number() == Role::Owner.number() {
        Some(party.number)
    } else {
        None
    }
}

/// The certificate with the text that a word of hex spells.
pub(crate) fn spelled_certificate(alloc: Global, word: &[u8]) -> Result<Option<Cert>, AllocError>
    ensures { IfOk result (λ cert. cert ≡ spelled_certificate word.now) }
{
    let Some(bytes) = bytes_of(alloc, word)? else {
        return Ok(None);
    };
    match Cert::read(alloc, bytes.as_slice()) {
        Ok(cert) => Ok(Some(cert)),
        Err(CertFault::Form(_)) => Ok(None),
        Err(CertFault::Memory) => Err(AllocError),
    }
}

/// The handover that a word of hex spells.
pub(crate) fn spelled_handover(alloc: Global, word: &[u8]) -> Result<Option<Items<u8>>, AllocError>
    ensures { IfOk result (λ bytes. bytes ≡ spelled_handover word.now) }
{
    match bytes_of(alloc, word)? {
        Some(bytes) if bytes.len() <= MOST_HANDOVER => Ok(Some(bytes)),
        _ => Ok(None),
    }
}
