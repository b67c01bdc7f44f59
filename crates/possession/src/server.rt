ghost use Rattle.std.specs.Prelude.{◌≡◌, ◌≤◌, ◌<◌, ◌↔◌, length, Err, IfErr, IfOk, IsOk, OnErr};
ghost use Rattle.ar_seats.specs.Shares.{whole};
ghost use Rattle.ar_seats.specs.declared.split_fault.SplitFault.TheVariants.{Narrow};
ghost use Rattle.ar_seats.specs.Numbers.{HasEachBelow};
ghost use Rattle.leaf_book.specs.Book.{AreApart, Draws, FindsNone, first_seat, given_seat, joined_seat, left_seat};
ghost use Rattle.lms_tree.specs.Key.{public_of, signature_of};
ghost use Rattle.lms_tree.specs.Signature.{lms_signature_len_of};
ghost use Rattle.possession.specs.Answering.{answer_text, handover_text};

use crate::connection::answer_text;
use ar_names::Name;
use ar_statement::{Statement, Text};
use leaf_book::{Exhausted, LeafBook, LeafSeat, SplitFault, sign_leaf};
use lms_tree::{LmsKey, LmsPublic};
use std::alloc::{AllocError, Global};
use std::marker::Model;

/// A server of a name, which many threads share: each answers with a seat of its own, without a lock.
///
/// Its key signs here alone: it is in no other book. Each of its leaves signs once.
#[derive(Drop)]
pub struct Server {
    book: LeafBook,
    key: LmsKey,
    name: Name,
    certificate: [u8; 32],
}

// Clauses see the book, the key, the name and the digest. The book has as many leaves as the key.
impl Model for Server {
    ghost use Rattle.std.specs.Prelude.{◌≡◌};
    ghost use Rattle.lms_tree.specs.LmsKind.{leaves_of};
    ghost use Rattle.possession.specs.Answering.{Server as Spec};

    ghost Value = { Spec };

    ghost view = { λ s. record {
      book = s.book;
      key = s.key;
      name = s.name;
      certificate = s.certificate;
    } };

    ghost invariant = { λ s. s.book.leaves ≡ leaves_of s.key.lms };
}

/// The text that hands a name over to the certificate with this digest.
#[tactic(auto, unfolding(crate::specs::Answering::handover_text))]
fn handover_text(digest: &[u8; 32]) -> Text
    ensures { result ≡ handover_text digest.now }
{
    Text::of(&Statement::Handover {
        certificate: *digest,
    })
}

impl Server {
    /// A server of the name, whose certificate has this digest, and its first seat. The only error is want of
    /// memory.
    ///
    /// The key is that of the certificate. It is in no other book, and has signed nothing.
    pub fn new(
        alloc: Global,
        name: Name,
        certificate: [u8; 32],
        key: LmsKey,
    ) -> Result<(Server, LeafSeat), AllocError>
        ensures name { IfOk result (λ made. made.0.name ≡ name) }
        ensures certificate { IfOk result (λ made. made.0.certificate ≡ certificate) }
        ensures key { IfOk result (λ made. made.0.key ≡ key) }
        ensures seat { IfOk result (λ made. made.1 ≡ first_seat made.0.book whole) }
    {
        let (book, seat) = LeafBook::new(alloc, key.leaves())?;
        let server = Server {
            book,
            key,
            name,
            certificate,
        };
        Ok((server, seat))
    }

    /// The public key.
    pub fn public(&self) -> LmsPublic
        ensures { result ≡ public_of self.now.key }
    {
        self.key.public()
    }

    /// Draws a leaf, writes the signature of a text at it, and answers its number.
    fn sign(&self, seat: &mut LeafSeat, text: &Text, out: &mut [u8]) -> Result<u32, Exhausted>
        requires own { seat.old.book ≡ self.now.book }
        requires room { length out.old ≡ lms_signature_len_of self.now.key.lms self.now.key.ots }
        ensures leaf { IfOk result (λ leaf. Draws seat.old leaf seat.new) }
        ensures signed { IfOk result (λ leaf. out.new ≡ signature_of self.now.key leaf text.now) }
        ensures none { IfErr result (λ fault. FindsNone seat.old fault.seen seat.new) }
        ensures unsigned { OnErr result (out.new ≡ out.old) }
    {
        let leaf = self.book.draw(seat)?;
        let number = leaf.number();
        sign_leaf(&self.key, leaf, text.as_bytes(), out);
        Ok(number)
    }

    /// Answers a challenge: draws a leaf, writes the signature of the answer at it into `out`, and answers the
    /// leaf's number. It takes no memory and no lock, and does not wait.
    ///
    /// It is `Exhausted` only where a step of this call saw that no leaf is left, and writes nothing then.
    pub fn answer(
        &self,
        seat: &mut LeafSeat,
        challenge: &[u8; 32],
        out: &mut [u8],
    ) -> Result<u32, Exhausted>
        requires own { seat.old.book ≡ self.now.book }
        requires room { length out.old ≡ lms_signature_len_of self.now.key.lms self.now.key.ots }
        ensures leaf { IfOk result (λ leaf. Draws seat.old leaf seat.new) }
        ensures signed { IfOk result (λ leaf.
            out.new ≡ signature_of self.now.key leaf
            (answer_text self.now.name self.now.certificate challenge.now)) }
        ensures none { IfErr result (λ fault. FindsNone seat.old fault.seen seat.new) }
        ensures unsigned { OnErr result (out.new ≡ out.old) }
    {
        let text = answer_text(self.name.view(), &self.certificate, challenge);
        self.sign(seat, &text, out)
    }

    /// Hands the name over to the certificate with this digest: what `answer` does, with the text of a handover.
    pub fn handover(
        &self,
        seat: &mut LeafSeat,
        digest: &[u8; 32],
        out: &mut [u8],
    ) -> Result<u32, Exhausted>
        requires own { seat.old.book ≡ self.now.book }
        requires room { length out.old ≡ lms_signature_len_of self.now.key.lms self.now.key.ots }
        ensures leaf { IfOk result (λ leaf. Draws seat.old leaf seat.new) }
        ensures signed { IfOk result (λ leaf.
            out.new ≡ signature_of self.now.key leaf (handover_text digest.now)) }
        ensures none { IfErr result (λ fault. FindsNone seat.old fault.seen seat.new) }
        ensures unsigned { OnErr result (out.new ≡ out.old) }
    {
        let text = handover_text(digest);
        self.sign(seat, &text, out)
    }

    /// Gives a new seat the lesser half of the share, for another thread. It is `Narrow` exactly where the share
    /// is 1, and does not ask for memory as it stands.
    pub fn split(&self, alloc: Global, seat: &mut LeafSeat) -> Result<LeafSeat, SplitFault>
        requires { seat.old.book ≡ self.now.book }
        ensures wide { IsOk result ↔ (1 < seat.old.share) }
        ensures narrow { result ≡ Err Narrow ↔ (seat.old.share ≡ 1) }
        ensures left { IfOk result (λ given. seat.new ≡ left_seat seat.old) }
        ensures given { IfOk result (λ given. given ≡ given_seat seat.old) }
        ensures err { OnErr result (seat.new ≡ seat.old) }
    {
        self.book.split(alloc, seat)
    }

    /// Takes in another seat of the server, with its share and its leaves.
    pub fn join(&self, seat: &mut LeafSeat, other: LeafSeat)
        requires own { seat.old.book ≡ self.now.book }
        requires other { other.book ≡ self.now.book }
        ensures joined { seat.new ≡ joined_seat seat.old other }
        ensures apart { AreApart seat.old.drawn other.drawn }
    {
        self.book.join(seat, other);
    }

    /// Gives the server up, and answers how many leaves signed: the leaves of the seat, which are the numbers
    /// below that, each once.
    pub fn close(self, seat: LeafSeat) -> u64
        requires own { seat.book ≡ self.book }
        requires all { seat.share ≡ whole }
        ensures count { result ≡ length seat.drawn }
        ensures each { HasEachBelow result seat.drawn }
        ensures most { result ≤ self.book.leaves }
        ensures exhausted { self.book.leaves ≤ seat.seen → result ≡ self.book.leaves }
    {
        let Server { book, .. } = self;
        book.close(seat)
    }
}
