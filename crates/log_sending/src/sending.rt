//! What a step sends, while it is composed: first the messages and the places where signatures are due, for which memory is
//! taken, and behind the step the leaves of these signatures.

ghost use Rattle.std.specs.Prelude.{◌≡◌, ◌+◌, ◌≤◌, ◌++◌, ◌∷◌, [], length, map, OnOk, IfOk, vec_len, vec_capacity};
ghost use Rattle.ar_message.specs.Messages.{longest, message_text};
ghost use Rattle.ar_message.specs.declared.message.Message.{Message};
ghost use Rattle.ar_statement.specs.Claims.{claim_of, text_of};
ghost use Rattle.key_roll.specs.Entry.{due_of};
ghost use Rattle.log_sending.specs.Sending.{blanks_in, draft_with, none_composed, sealed, with_draft};

use ar_base::Items;
use ar_message::{Address, Blank, Message, Outgoing, Sent, Unsigned};
use ar_statement::Statement;
use epoch_log::EpochLog;
use key_roll::RollDue;
use std::alloc::{AllocError, Global};
use std::marker::Model;

/// A place in a message, from its first byte on, at which the log signs a statement.
#[derive(Drop)]
pub struct OwnPlace<'a> {
    pub at: usize,
    pub statement: Statement<'a>,
}

// Clauses see the place and the text.
impl<'a> Model for OwnPlace<'a> {
    ghost use Rattle.ar_statement.specs.Claims.{claim_of, text_of};
    ghost use Rattle.log_sending.specs.Sending.{SigningPlace};

    ghost Value = { SigningPlace };

    ghost view = { λ p. record { at = p.at; text = text_of (claim_of p.statement) } };
}

impl<'a> OwnPlace<'a> {
    /// Where the signature is due.
    fn at(&self) -> usize
        ensures { result ≡ self.now.at }
    {
        self.at
    }

    /// The leaf of the log's signature, where the log has signed the statement.
    fn due(&self, log: &EpochLog) -> Option<RollDue>
        ensures { result ≡ due_of log.now.state.past.signed self.now.text }
    {
        log.due(&self.statement)
    }
}

/// A place in the message with this number.
#[derive(Drop)]
struct Numbered<'a> {
    message: usize,
    own: OwnPlace<'a>,
}

// Clauses see the number and the place.
impl<'a> Model for Numbered<'a> {
    ghost use Rattle.std.specs.Prelude.{ℕ};
    ghost use Rattle.log_sending.specs.Sending.{SigningPlace};

    ghost Value = { ℕ × SigningPlace };

    ghost view = { λ p. (p.message, p.own) };
}

/// The messages of a step, before it is made.
#[derive(Drop)]
pub struct DraftMessages<'a> {
    messages: Vec<Outgoing>,
    places: Vec<Numbered<'a>>,
}

// Clauses see the letters, and the places where signatures are due.
impl<'a> Model for DraftMessages<'a> {
    ghost use Rattle.log_sending.specs.Sending.{Composed};

    ghost Value = { Composed };

    ghost view = { λ d. record { letters = d.messages.items; places = d.places.items } };
}

/// The messages of a step, for which all memory was taken. They are sent or discarded.
pub struct Ready<'a> {
    drafts: DraftMessages<'a>,
    // Room for a blank at each place.
    blanks: Vec<Blank>,
}

// Clauses see the letters, and the places where signatures are due.
impl<'a> Model for Ready<'a> {
    ghost use Rattle.std.specs.Prelude.{◌≡◌, ◌≤◌, [], length, vec_capacity};
    ghost use Rattle.log_sending.specs.Sending.{Composed};

    ghost Value = { Composed };

    ghost view = { λ r. r.drafts };

    ghost invariant = { λ r. (r.blanks.items ≡ [])
        × (length r.drafts.places ≤ vec_capacity r.blanks) };
}

impl<'a> DraftMessages<'a> {
    /// None yet.
    pub fn new(alloc: Global) -> DraftMessages<'a>
        ensures { result ≡ none_composed }
    {
        DraftMessages {
            messages: Vec::new(alloc),
            places: Vec::new(alloc),
        }
    }

    /// One more message, with one signature of the log's own, of so many bytes in front of so many.
    pub fn add(
        &mut self,
        alloc: Global,
        to: Address,
        message: &Message,
        signature_len: usize,
        behind: usize,
        statement: Statement<'a>,
    ) -> Result<(), AllocError>
        requires { signature_len + behind ≤ longest }
        ensures { OnOk result
            (self.new ≡ with_draft self.old
            (draft_with to message.now signature_len behind
            (text_of (claim_of statement.entry)))) }
    {
        let bytes = message.text(alloc)?;
        let at = bytes.len().saturating_sub(signature_len + behind);
        let own = vec![in alloc; OwnPlace { at, statement }]?;
        self.add_written(to, bytes, own)
    }

    /// One more message, by its bytes, with the places where signatures of the log's own are due.
    pub fn add_written(
        &mut self,
        to: Address,
        bytes: Vec<u8>,
        own: Vec<OwnPlace<'a>>,
    ) -> Result<(), AllocError>
        ensures { (message : Message) → bytes.items ≡ message_text message
            → OnOk result (self.new
            ≡ with_draft self.old
            (record { to = to; message = message; own = own.entry.items })) }
    {
        let message = self.messages.len();
        self.messages.push(Outgoing::new(to, bytes))?;
        add_places(&mut self.places, message, own)
    }

    /// Takes the memory that the blanks need.
    pub fn ready(self, alloc: Global) -> Result<Ready<'a>, AllocError>
        ensures { IfOk result (λ ready. ready ≡ self.entry) }
    {
        let blanks = Vec::with_capacity(alloc, self.places.len())?;
        Ok(Ready {
            drafts: self,
            blanks,
        })
    }
}

/// Adds the places of the message with this number.
fn add_places<'a>(
    places: &mut Vec<Numbered<'a>>,
    message: usize,
    own: Vec<OwnPlace<'a>>,
) -> Result<(), AllocError>
    ensures { OnOk result
        (places.new.items ≡ places.old.items ++ map (λ place. (message, place)) own.entry.items) }
{
    for own in own {
        places.push(Numbered { message, own })?;
    }
    Ok(())
}

/// Adds the blanks of these places, by the leaves that the log has for their statements.
fn add_blanks(log: &EpochLog, places: &[Numbered], blanks: &mut Vec<Blank>)
    requires { vec_len blanks.old + length places.now ≤ vec_capacity blanks.old }
    ensures { blanks.new.items
        ≡ blanks.old.items ++ blanks_in log.now.state.past.signed places.now }
{
    match places {
        [] => {}
        [place, rest @ ..] => {
            add_blank(log, place, blanks);
            add_blanks(log, rest, blanks);
        }
    }
}

/// Adds the blank of a place, where the log has signed its statement.
#[tactic(auto, using(crate::proofs::Sealing::blanks_none))]
fn add_blank(log: &EpochLog, place: &Numbered, blanks: &mut Vec<Blank>)
    requires { vec_len blanks.old + 1 ≤ vec_capacity blanks.old }
    ensures added { blanks.new.items
        ≡ blanks.old.items ++ blanks_in log.now.state.past.signed (place.now ∷ []) }
    ensures len { vec_len blanks.new ≤ vec_len blanks.old + 1 }
    ensures capacity { vec_capacity blanks.old ≤ vec_capacity blanks.new }
{
    let Some(due) = place.own.due(log) else {
        return;
    };
    let blank = Blank {
        message: place.message,
        at: place.own.at(),
        due,
    };
    blanks.push_reserved(blank);
}

impl<'a> Ready<'a> {
    /// The messages, with the leaves that the log has behind the step, and the epoch that ended. It takes no memory.
    pub fn seal(self, log: &EpochLog, ended: Option<(u64, Option<[u8; 32]>)>) -> Unsigned
        ensures { result ≡ sealed log.now.state.past.signed self.entry ended }
    {
        let Ready { drafts, mut blanks } = self;
        let DraftMessages { messages, places } = drafts;
        add_blanks(log, &places, &mut blanks);
        Unsigned {
            sent: Sent {
                messages: Items::from_vec(messages),
                ended,
            },
            blanks: Items::from_vec(blanks),
        }
    }

    /// Gives up the messages of a step that is not made.
    pub fn discard(self) {
        let Ready { drafts: _, blanks } = self;
        blanks.destroy_empty();
    }
}
