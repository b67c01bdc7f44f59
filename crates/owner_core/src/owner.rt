use crate::draft::Draft;
use lms_tree::{LmsKey, LmsPublic};
use party_keys::Directory;
use sign_book::SignBook;
use std::alloc::{AllocError, Global};
use std::marker::Model;

/// An owner of domains: its drafts, its key with the book of the key's leaves, and a directory of
/// its own.
#[derive(Drop)]
pub struct Owner {
    pub(crate) number: u16,
    pub(crate) directory: Directory,
    pub(crate) key: LmsKey,
    pub(crate) book: SignBook,
    pub(crate) drafts: Vec<Draft>,
}

// Clauses see what the owner keeps. The book is of the key's first leaves, or of all.
impl Model for Owner {
    ghost use Rattle.std.specs.Prelude.{◌≤◌};
    ghost use Rattle.lms_tree.specs.LmsKind.{leaves_of};
    ghost use Rattle.owner_core.specs.State.{Owner as State};

    ghost Value = { State };

    ghost view = { λ o. record {
      number = o.number;
      directory = o.directory;
      key = o.key;
      book = o.book;
      drafts = o.drafts.items;
    } };

    ghost invariant = { λ o. o.book.leaves ≤ leaves_of o.key.lms };
}

impl Owner {
    ghost use Rattle.std.specs.Prelude.{◌≡◌, ◌≤◌, ◌-◌, Ok, length};
    ghost use Rattle.lms_tree.specs.Key.{public_of};
    ghost use Rattle.lms_tree.specs.LmsKind.{leaves_of};
    ghost use Rattle.lms_tree.specs.Signature.{lms_signature_len_of};
    ghost use Rattle.owner_core.specs.Rows.{first_owner};

    /// The owner with this number, which knows these keys of logs and authorities, and has no
    /// draft.
    ///
    /// The key is in no other book and has signed nothing. As it stands it takes no memory, and is
    /// never refused. Its book has all leaves of the key.
    pub fn new(
        alloc: Global,
        number: u16,
        directory: Directory,
        key: LmsKey,
    ) -> Result<Owner, AllocError>
        ensures { result ≡ Ok (first_owner number directory key (leaves_of key.lms)) }
    {
        let leaves = key.leaves();
        Ok(Owner::with_book(alloc, number, directory, key, leaves))
    }

    /// The same of an owner whose book has the first leaves of the key alone, so many: those behind
    /// them sign what is drawn (`sign_drawn`). It takes no memory.
    pub fn with_book(
        alloc: Global,
        number: u16,
        directory: Directory,
        key: LmsKey,
        leaves: u32,
    ) -> Owner
        requires { leaves ≤ leaves_of key.lms }
        ensures { result ≡ first_owner number directory key leaves }
    {
        let book = SignBook::new(alloc, leaves);
        Owner {
            number,
            directory,
            key,
            book,
            drafts: Vec::new(alloc),
        }
    }

    /// The number of the owner.
    pub fn number(&self) -> u16
        ensures { result ≡ self.now.number }
    {
        self.number
    }

    /// The public key, which is the subject key of the owner's certificates.
    pub fn public(&self) -> LmsPublic
        ensures { result ≡ public_of self.now.key }
    {
        self.key.public()
    }

    /// How many leaves of the key its book has.
    pub fn book_leaves(&self) -> u32
        ensures leaves { result ≡ self.now.book.leaves }
        ensures own { self.now.book.leaves ≤ leaves_of self.now.key.lms }
    {
        self.book.leaves()
    }

    /// How many leaves of the book serve no statement yet.
    pub fn free(&self) -> u32
        ensures { result ≡ self.now.book.leaves - length self.now.book.texts }
    {
        self.book.free()
    }

    /// How many bytes each signature of the key has.
    pub fn signature_len(&self) -> usize
        ensures { result ≡ lms_signature_len_of self.now.key.lms self.now.key.ots }
    {
        self.key.signature_len()
    }
}
