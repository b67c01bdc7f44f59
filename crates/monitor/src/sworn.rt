ghost use Rattle.std.specs.Prelude.{◌≡◌, [], ◌∷◌, ◌++◌, IfOk, OnOk};
ghost use Rattle.std.specs.Option.{option_map};
ghost use Rattle.ar_statement.specs.Claims.{claim_of, signer_of};
ghost use Rattle.party_keys.specs.Signatures.{behind_generation, claim_in, number_in_front};
ghost use Rattle.monitor.specs.Items.{ignored_by, ignored_of, sworn_in, sworn_of};

use crate::item::Item;
use crate::report::Ignored;
use ar_statement::{Party, Statement};
use party_keys::{Directory, VerifyFault};
use std::alloc::{AllocError, Global};
use std::marker::Model;

/// A statement whose signature is valid.
#[derive(Debug, Drop)]
pub(crate) struct Sworn<'a> {
    pub(crate) line: u32,
    pub(crate) statement: Statement<'a>,
    pub(crate) text: &'a [u8],
    /// The generation of the key that signed it.
    pub(crate) generation: Option<u32>,
    /// The leaf of that key.
    pub(crate) leaf: Option<u32>,
}

// Clauses see what the statement says.
impl<'a> Model for Sworn<'a> {
    ghost use Rattle.ar_statement.specs.Claims.{claim_of};
    ghost use Rattle.monitor.specs.Items.{Sworn as Spec};

    ghost Value = { Spec };

    ghost view = { λ s. record {
      line = s.line;
      claim = claim_of s.statement;
      text = s.text.now;
      generation = s.generation;
      leaf = s.leaf;
    } };
}

/// The statement that has this text.
fn statement_in(text: &[u8]) -> Option<Statement>
    ensures { option_map claim_of result ≡ claim_in text.now }
{
    Statement::read(text)
}

/// The number that the first four bytes are, where there are so many.
fn number_in_front(bytes: &[u8]) -> Option<u32>
    ensures { result ≡ number_in_front bytes.now }
{
    match bytes {
        [a, b, c, d, ..] => Some(u32::from_be_bytes([*a, *b, *c, *d])),
        _ => None,
    }
}

/// The LMS signature behind the generation.
fn behind_generation(signature: &[u8]) -> &[u8]
    ensures { result.now ≡ behind_generation signature.now }
{
    if signature.len() < 4 {
        return &[];
    }
    &signature[4..]
}

/// Why an item is ignored whose signature is not accepted.
fn ignored_by(fault: VerifyFault) -> Ignored
    ensures { result ≡ ignored_by fault }
{
    match fault {
        VerifyFault::Unknown(_) => Ignored::Unknown,
        VerifyFault::Bad(k) => Ignored::Bad(k),
    }
}

impl<'a> Sworn<'a> {
    /// The statement of an item, or why it is no evidence.
    #[tactic(auto, unfolding(crate::specs::Items::sworn_in))]
    fn of(directory: &Directory, item: &'a Item) -> Result<Sworn<'a>, Ignored>
        ensures { result ≡ sworn_in directory.now item.now }
    {
        let text = item.text.as_slice();
        let signature = item.signature.as_slice();
        let Some(statement) = statement_in(text) else {
            return Err(Ignored::Form);
        };
        match directory.verify(statement.signer(), text, signature) {
            Ok(()) => Ok(Sworn {
                line: item.line,
                statement,
                text,
                generation: number_in_front(signature),
                leaf: number_in_front(behind_generation(signature)),
            }),
            Err(fault) => Err(ignored_by(fault)),
        }
    }

    /// Who signed it.
    pub(crate) fn signer(&self) -> Party
        ensures { result ≡ signer_of self.now.claim }
    {
        self.statement.signer()
    }
}

/// The statements of the items that are evidence, and the other items' lines with the reason, both in order.
#[derive(Debug, Drop)]
pub(crate) struct Sorted<'a> {
    pub(crate) sworn: Vec<Sworn<'a>>,
    pub(crate) ignored: Vec<(u32, Ignored)>,
}

/// Puts the statement of an item behind the others, or its line and the reason behind those of the others that are none.
/// The only error is want of memory.
fn put<'a>(
    directory: &Directory,
    item: &'a Item,
    sworn: &mut Vec<Sworn<'a>>,
    ignored: &mut Vec<(u32, Ignored)>,
) -> Result<(), AllocError>
    ensures sworn { OnOk result
        (sworn.new.items ≡ sworn.old.items ++ sworn_of directory.now (item.now ∷ [])) }
    ensures ignored { OnOk result
        (ignored.new.items ≡ ignored.old.items ++ ignored_of directory.now (item.now ∷ [])) }
{
    match Sworn::of(directory, item) {
        Ok(statement) => sworn.push(statement)?,
        Err(why) => ignored.push((item.line, why))?,
    }
    Ok(())
}

/// Looks at each item. The only error is want of memory.
pub(crate) fn sort<'a>(
    alloc: Global,
    directory: &Directory,
    items: &'a [Item],
) -> Result<Sorted<'a>, AllocError>
    ensures sworn { IfOk result (λ sorted. sorted.sworn.items ≡ sworn_of directory.now items.now) }
    ensures ignored { IfOk result (λ sorted.
        sorted.ignored.items ≡ ignored_of directory.now items.now) }
{
    let mut sworn = Vec::new(alloc);
    let mut ignored = Vec::new(alloc);
    for item in items {
        put(directory, item, &mut sworn, &mut ignored)?;
    }
    Ok(Sorted { sworn, ignored })
}
