ghost use Rattle.std.specs.Prelude.{◌≡◌, ◌++◌, ◌∷◌, [], IfErr, IfOk, OnErr, OnOk, Some, None, if◌then◌else◌, is_some, length};
ghost use Rattle.std.specs.Option.{option_map};
ghost use Rattle.ar_base.specs.Gives.{StepsUnless};
ghost use Rattle.client_rule.specs.Rule.{judgement};
ghost use Rattle.client_memory.specs.Answers.{added, answer_to, chained, ends_in, first_change, is_this, kept_with, moved_to, pinned_by, pinned_on};
ghost use Rattle.client_memory.specs.Book.{newest_pinned, pinned_chain, with_links, with_pin, without};
ghost use Rattle.client_memory.specs.declared.answers.AddFault.TheVariants as add_fault;
ghost use Rattle.client_memory.specs.declared.answers.Pinned.TheVariants as pinned;

use crate::links::{followed, linked};
use crate::pin::{Pin, extend, has_room, newest_of, pin_of, strike};
use crate::{AddFault, Pinned};
use ar_cert::{Cert, CertView, Change};
use ar_names::{Name, NameView};
use client_rule::{Judgement, judge};
use party_keys::Directory;
use std::alloc::{AllocError, Global};
use std::marker::Model;

/// How many changes a book keeps at most, of all names.
const MOST_KEPT: usize = 4096;
/// How many links a call may take.
const MOST_LINKS: usize = 64;

/// What a client pinned: of each name the changes by which its certificate came to be the newest that the client
/// accepted. It keeps no keys: each call is given the directory that the client trusts.
#[derive(Debug, Drop)]
pub struct PinBook {
    // In the order in which the names came.
    pins: Vec<Pin>,
}

// Clauses see the pins.
impl Model for PinBook {
    ghost use Rattle.std.specs.Prelude.{List};
    ghost use Rattle.client_memory.specs.Book.{Pin as PinSpec};

    ghost Value = { List PinSpec };

    ghost view = { λ b. b.pins.items };
}

/// Whether a certificate that is kept is the one that is read in place: they have one text.
fn is_this(alloc: Global, kept: &Cert, certificate: &CertView) -> Result<bool, AllocError>
    ensures { IfOk result (λ same. same ≡ is_this kept.now certificate.now) }
{
    let mut text = Vec::new(alloc);
    kept.write(alloc, &mut text)?;
    Ok(text.as_slice() == certificate.text())
}

/// Whether the links lead to this certificate, where the last of them is of `last`.
fn ends_in(
    alloc: Global,
    certificate: &CertView,
    count: usize,
    last: &Cert,
) -> Result<Pinned, AllocError>
    ensures { IfOk result (λ answer. answer ≡ ends_in certificate.now count last.now) }
{
    if is_this(alloc, last, certificate)? {
        Ok(Pinned::Moved(count))
    } else {
        Ok(Pinned::WrongEnd)
    }
}

/// The first change of a name: its certificate, for which nothing vouched but the confirmation.
fn first_change(alloc: Global, certificate: &CertView) -> Result<Change, AllocError>
    ensures { IfOk result (λ change. change ≡ first_change certificate.now) }
{
    let cert = certificate.to_cert(alloc)?;
    Ok(Change::bare(alloc, cert))
}

/// Whether there is a change, and each next one follows the one before it by the policy rule.
fn check_chain(chain: &[Change]) -> Result<(), AddFault>
    ensures { result ≡ chained chain.now }
{
    let [first, later @ ..] = chain else {
        return Err(AddFault::Empty);
    };
    match followed(0, &first.cert, later) {
        Ok(()) => Ok(()),
        Err((place, refusal)) => Err(AddFault::Link(place, refusal)),
    }
}

impl PinBook {
    /// A book without pins. It takes no memory.
    pub fn new(alloc: Global) -> PinBook
        ensures { result ≡ [] }
    {
        PinBook {
            pins: Vec::new(alloc),
        }
    }

    /// What is kept of a name, the oldest change first. It is `None` exactly where the name is not pinned.
    pub fn chain(&self, name: &[u8]) -> Option<&[Change]>
        ensures { option_map (λ chain. chain.now) result ≡ pinned_chain self.now name.now }
    {
        match pin_of(&self.pins, name) {
            None => None,
            Some(pin) => Some(pin.chain.as_slice()),
        }
    }

    // The newest certificate of a name.
    fn newest(&self, name: &[u8]) -> Option<&Cert>
        ensures { option_map (λ cert. cert.now) result ≡ newest_pinned self.now name.now }
    {
        match self.chain(name) {
            None => None,
            Some(chain) => newest_of(chain),
        }
    }

    // What is answered to a certificate that is accepted behind another one.
    fn answer_behind(
        &self,
        alloc: Global,
        directory: &Directory,
        newest: &Cert,
        certificate: &CertView,
        links: &[Change],
    ) -> Result<Pinned, AllocError>
        ensures { IfOk result (λ answer. answer
            ≡ answer_to directory.now self.now (Some newest.now) certificate.now links.now) }
    {
        if is_this(alloc, newest, certificate)? {
            return Ok(Pinned::Same);
        }
        if links.len() > MOST_LINKS {
            return Ok(Pinned::Long);
        }
        if !has_room(&self.pins, MOST_KEPT, links.len()) {
            return Ok(Pinned::Full);
        }
        if links.is_empty() {
            return Ok(Pinned::NoLinks);
        }
        match linked(directory, 0, newest, links) {
            Ok(last) => ends_in(alloc, certificate, links.len(), last),
            Err((place, fault)) => Ok(Pinned::Link(place, fault)),
        }
    }

    // What is answered to a certificate that is accepted.
    fn answer(
        &self,
        alloc: Global,
        directory: &Directory,
        name: &[u8],
        certificate: &CertView,
        links: &[Change],
    ) -> Result<Pinned, AllocError>
        ensures { IfOk result (λ answer. answer
            ≡ answer_to directory.now self.now
            (newest_pinned self.now name.now) certificate.now links.now) }
    {
        match self.newest(name) {
            Some(newest) => self.answer_behind(alloc, directory, newest, certificate, links),
            None if has_room(&self.pins, MOST_KEPT, 1) => Ok(Pinned::First),
            None => Ok(Pinned::Full),
        }
    }

    // Pins the name of a certificate with it.
    fn pin(&mut self, alloc: Global, certificate: &CertView) -> Result<(), AllocError>
        ensures ok { OnOk result (self.new
            ≡ with_pin self.old certificate.now.name (first_change certificate.now ∷ [])) }
        ensures err { OnErr result (self.new ≡ self.old) }
    {
        let mut chain = Vec::new(alloc);
        chain.push(first_change(alloc, certificate)?)?;
        let name = NameView::from_name(certificate.name()).to_name(alloc)?;
        self.pins.push(Pin { name, chain })?;
        Ok(())
    }

    // Answers to a certificate that is accepted, and keeps what the answer says.
    fn take(
        &mut self,
        alloc: Global,
        directory: &Directory,
        name: &[u8],
        certificate: &CertView,
        links: &[Change],
    ) -> Result<Pinned, AllocError>
        ensures answer { IfOk result (λ answer. answer
            ≡ answer_to directory.now self.old
            (newest_pinned self.old name.now) certificate.now links.now) }
        ensures kept { IfOk result (λ answer. self.new
            ≡ kept_with certificate.now self.old name.now links.now answer) }
        ensures err { OnErr result (self.new ≡ self.old) }
    {
        let answer = self.answer(alloc, directory, name, certificate, links)?;
        match answer {
            Pinned::First => self.pin(alloc, certificate)?,
            Pinned::Moved(_) => extend(alloc, &mut self.pins, name, links)?,
            _ => {}
        }
        Ok(answer)
    }

    // Whether a name that has no certificate is pinned.
    fn answer_absent(&self, name: &[u8]) -> Pinned
        ensures { result ≡ (if is_some (pinned_chain self.now name.now) then pinned.Gone
            else pinned.Absent) }
    {
        if self.chain(name).is_some() {
            Pinned::Gone
        } else {
            Pinned::Absent
        }
    }

    /// Judges the bytes of a confirmation of a name, in epoch `now`, as `client_rule::judge` does for a client that
    /// accepts what is at most `age` epochs old, and then, where a certificate is accepted, the links that lead to it
    /// from the newest one that is pinned.
    ///
    /// The answer is the first of `Pinned` that fits. `First` pins the certificate, and `Moved` puts the links behind
    /// what is kept of the name; the others change nothing, and so does an error, which is want of memory.
    pub fn judge(
        &mut self,
        alloc: Global,
        directory: &Directory,
        name: &[u8],
        bytes: &[u8],
        links: &[Change],
        now: u64,
        age: u64,
    ) -> Result<Pinned, AllocError>
        ensures answer { IfOk result (λ answer.
            pinned_by self.old (record {
              keys = directory.now;
              name = name.now;
              epoch = now;
              age = age;
            })
            bytes.now links.now ≡ (answer, self.new)) }
        ensures err { OnErr result (self.new ≡ self.old) }
    {
        match judge(directory, name, bytes, now, age) {
            Judgement::Refused(number) => Ok(Pinned::Refused(number)),
            Judgement::Absent { .. } => Ok(self.answer_absent(name)),
            Judgement::Accepted { certificate, .. } => {
                self.take(alloc, directory, name, &certificate, links)
            }
        }
    }

    /// Forgets a name: what is kept of it is taken out, and all other names stay. It takes no memory.
    ///
    /// It is for who runs the client. A recovery is refused as a link for good, since a client cannot see that the domain
    /// waited; so where a domain tells by other ways that it recovered, its pin is taken out by hand, and the next
    /// certificate that is accepted is pinned anew.
    pub fn forget(&mut self, name: &[u8])
        ensures { self.new ≡ without self.old name.now }
    {
        strike(&mut self.pins, name);
    }

    /// Pins a name again, with the changes that `chain` lent once, and `Change::write` stored.
    ///
    /// The changes are judged by the policy rule alone, each behind the one before it: what vouched for them was verified
    /// when they were pinned, and for the rest they are the caller's word. An error changes nothing.
    pub fn add(&mut self, _alloc: Global, name: Name, chain: Vec<Change>) -> Result<(), AddFault>
        ensures answer { StepsUnless add_fault.Memory (λ book u. book) result self.old self.new
            (added self.old name chain.items) }
        // What stands in the way is told whatever memory there is.
        ensures refused { IfErr (added self.old name chain.items) (λ why. result ≡ Err why) }
    {
        if self.chain(name.text()).is_some() {
            return Err(AddFault::Pinned);
        }
        if !has_room(&self.pins, MOST_KEPT, chain.len()) {
            return Err(AddFault::Full);
        }
        check_chain(&chain)?;
        self.pins.push(Pin { name, chain })?;
        Ok(())
    }
}
