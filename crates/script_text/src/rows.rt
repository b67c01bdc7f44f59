ghost use Rattle.std.specs.Prelude.{◌≡◌};
ghost use Rattle.script_text.specs.Rows.{authority_of, client_of, log_of, owner_of, ask, authorities, deliver, dishonest, flush, forget, handover, inject, judge, keys, learn, logs, object, owner, pass, propose, register, retire, revoke, roll, secret, sign, submit, teach, update};
ghost use Rattle.script_text.specs.Grammar.{policy_of};

use crate::binding::binding_of;
use crate::forms::{
    byte_of, judged_of, lms_of, new_owner_of, number_with, ots_of, party_count_of, quorum_of,
    receiver_of, short_of, witness_of,
};
use crate::line::{EventLine, Line, PolicyWords, SetupLine};
use crate::lists::{asks_of, trusted_of};
use crate::pieces::pieces_of;
use crate::words::{PolicyTexts, Words};
use ar_lines::{Reason, array_of_hex, number_in, number_of, party_of};
use ar_names::NameView;
use ar_statement::Role;

/// The number of a log.
fn log_of(word: &[u8]) -> Option<u16>
    ensures { result ≡ log_of word.now }
{
    number_with(Role::LogServer, word)
}

/// The number of an authority.
fn authority_of(word: &[u8]) -> Option<u16>
    ensures { result ≡ authority_of word.now }
{
    number_with(Role::Authority, word)
}

/// The number of an owner.
fn owner_of(word: &[u8]) -> Option<u16>
    ensures { result ≡ owner_of word.now }
{
    number_with(Role::Owner, word)
}

/// The number of a client.
fn client_of(word: &[u8]) -> Option<u16>
    ensures { result ≡ client_of word.now }
{
    number_with(Role::Client, word)
}

/// The words of a policy.
#[tactic(auto, unfolding(crate::specs::Grammar::policy_of))]
fn policy_of(words: &PolicyTexts) -> Result<PolicyWords, Reason>
    ensures { result ≡ policy_of words.now }
{
    let threshold = byte_of(words.threshold.text()).ok_or(Reason::Field(3))?;
    let (keyed, wait) = binding_of(words.binding.text()).ok_or(Reason::Field(4))?;
    let max_age = short_of(words.max_age.text()).ok_or(Reason::Field(5))?;
    let until = number_of(words.until.text()).ok_or(Reason::Field(6))?;
    let trusted = trusted_of(words.trusted.text()).ok_or(Reason::Field(7))?;
    Ok(PolicyWords {
        threshold,
        keyed,
        max_age,
        until,
        trusted,
        wait,
    })
}

/// `secret <64 hex>`
pub(crate) fn secret<'a>(words: Words<'a>) -> Result<Line<'a>, Reason>
    ensures { result ≡ secret.fields words.entry }
{
    let a = words.one()?;
    let secret = array_of_hex(a.text()).ok_or(Reason::Field(1))?;
    Ok(Line::Setup(SetupLine::Secret { secret }))
}

/// `keys <lms> <ots>`
pub(crate) fn keys<'a>(words: Words<'a>) -> Result<Line<'a>, Reason>
    ensures { result ≡ keys.fields words.entry }
{
    let (a, b) = words.two()?;
    let lms = lms_of(a.text()).ok_or(Reason::Field(1))?;
    let ots = ots_of(lms, b.text()).ok_or(Reason::Field(2))?;
    Ok(Line::Setup(SetupLine::Keys { lms, ots }))
}

/// `logs <N> <q>`
pub(crate) fn logs<'a>(words: Words<'a>) -> Result<Line<'a>, Reason>
    ensures { result ≡ logs.fields words.entry }
{
    let (a, b) = words.two()?;
    let n = party_count_of(a.text()).ok_or(Reason::Field(1))?;
    let q = quorum_of(n, b.text()).ok_or(Reason::Field(2))?;
    Ok(Line::Setup(SetupLine::Logs { n, q }))
}

/// `authorities <M>`
pub(crate) fn authorities<'a>(words: Words<'a>) -> Result<Line<'a>, Reason>
    ensures { result ≡ authorities.fields words.entry }
{
    let a = words.one()?;
    let m = party_count_of(a.text()).ok_or(Reason::Field(1))?;
    Ok(Line::Setup(SetupLine::Authorities { m }))
}

/// `dishonest <L or A>`
pub(crate) fn dishonest<'a>(words: Words<'a>) -> Result<Line<'a>, Reason>
    ensures { result ≡ dishonest.fields words.entry }
{
    let a = words.one()?;
    let party = witness_of(a.text()).ok_or(Reason::Field(1))?;
    Ok(Line::Setup(SetupLine::Dishonest { party }))
}

/// `owner <D>`
pub(crate) fn owner<'a>(words: Words<'a>) -> Result<Line<'a>, Reason>
    ensures { result ≡ owner.fields words.entry }
{
    let a = words.one()?;
    let owner = new_owner_of(a.text()).ok_or(Reason::Field(1))?;
    Ok(Line::Event(EventLine::Owner { owner }))
}

/// `teach <A> <name> <D>`
pub(crate) fn teach<'a>(words: Words<'a>) -> Result<Line<'a>, Reason>
    ensures { result ≡ teach.fields words.entry }
{
    let (a, b, c) = words.three()?;
    let authority = authority_of(a.text()).ok_or(Reason::Field(1))?;
    let name = NameView::of(b.text()).ok_or(Reason::Field(2))?;
    let owner = owner_of(c.text()).ok_or(Reason::Field(3))?;
    Ok(Line::Event(EventLine::Teach {
        authority,
        name,
        owner,
    }))
}

/// `forget <A> <name> <D>`
pub(crate) fn forget<'a>(words: Words<'a>) -> Result<Line<'a>, Reason>
    ensures { result ≡ forget.fields words.entry }
{
    let (a, b, c) = words.three()?;
    let authority = authority_of(a.text()).ok_or(Reason::Field(1))?;
    let name = NameView::of(b.text()).ok_or(Reason::Field(2))?;
    let owner = owner_of(c.text()).ok_or(Reason::Field(3))?;
    Ok(Line::Event(EventLine::Forget {
        authority,
        name,
        owner,
    }))
}

/// `retire <A>`
pub(crate) fn retire<'a>(words: Words<'a>) -> Result<Line<'a>, Reason>
    ensures { result ≡ retire.fields words.entry }
{
    let a = words.one()?;
    let authority = authority_of(a.text()).ok_or(Reason::Field(1))?;
    Ok(Line::Event(EventLine::Retire { authority }))
}

/// `register <D> <name> <policy> <asks>`
pub(crate) fn register<'a>(words: Words<'a>) -> Result<Line<'a>, Reason>
    ensures { result ≡ register.fields words.entry }
{
    let (a, b, policy, c) = words.policy()?;
    let owner = owner_of(a.text()).ok_or(Reason::Field(1))?;
    let name = NameView::of(b.text()).ok_or(Reason::Field(2))?;
    let policy = policy_of(&policy)?;
    let asks = asks_of(c.text()).ok_or(Reason::Field(8))?;
    Ok(Line::Event(EventLine::Register {
        owner,
        name,
        policy,
        asks,
    }))
}

/// `update <D> <c> <policy> <asks>`
pub(crate) fn update<'a>(words: Words<'a>) -> Result<Line<'a>, Reason>
    ensures { result ≡ update.fields words.entry }
{
    let (a, b, policy, c) = words.policy()?;
    let owner = owner_of(a.text()).ok_or(Reason::Field(1))?;
    let draft = number_of(b.text()).ok_or(Reason::Field(2))?;
    let policy = policy_of(&policy)?;
    let asks = asks_of(c.text()).ok_or(Reason::Field(8))?;
    Ok(Line::Event(EventLine::Update {
        owner,
        draft,
        policy,
        asks,
    }))
}

/// `revoke <D> <c> <asks>`
pub(crate) fn revoke<'a>(words: Words<'a>) -> Result<Line<'a>, Reason>
    ensures { result ≡ revoke.fields words.entry }
{
    let (a, b, c) = words.three()?;
    let owner = owner_of(a.text()).ok_or(Reason::Field(1))?;
    let draft = number_of(b.text()).ok_or(Reason::Field(2))?;
    let asks = asks_of(c.text()).ok_or(Reason::Field(3))?;
    Ok(Line::Event(EventLine::Revoke { owner, draft, asks }))
}

/// `handover <D> <c>`
pub(crate) fn handover<'a>(words: Words<'a>) -> Result<Line<'a>, Reason>
    ensures { result ≡ handover.fields words.entry }
{
    let (a, b) = words.two()?;
    let owner = owner_of(a.text()).ok_or(Reason::Field(1))?;
    let draft = number_of(b.text()).ok_or(Reason::Field(2))?;
    Ok(Line::Event(EventLine::Handover { owner, draft }))
}

/// `object <D> <c>`
pub(crate) fn object<'a>(words: Words<'a>) -> Result<Line<'a>, Reason>
    ensures { result ≡ object.fields words.entry }
{
    let (a, b) = words.two()?;
    let owner = owner_of(a.text()).ok_or(Reason::Field(1))?;
    let draft = number_of(b.text()).ok_or(Reason::Field(2))?;
    Ok(Line::Event(EventLine::Object { owner, draft }))
}

/// `submit <c>`
pub(crate) fn submit<'a>(words: Words<'a>) -> Result<Line<'a>, Reason>
    ensures { result ≡ submit.fields words.entry }
{
    let a = words.one()?;
    let draft = number_of(a.text()).ok_or(Reason::Field(1))?;
    Ok(Line::Event(EventLine::Submit { draft }))
}

/// `propose <L>`
pub(crate) fn propose<'a>(words: Words<'a>) -> Result<Line<'a>, Reason>
    ensures { result ≡ propose.fields words.entry }
{
    let a = words.one()?;
    let log = log_of(a.text()).ok_or(Reason::Field(1))?;
    Ok(Line::Event(EventLine::Propose { log }))
}

/// `pass <L>`
pub(crate) fn pass<'a>(words: Words<'a>) -> Result<Line<'a>, Reason>
    ensures { result ≡ pass.fields words.entry }
{
    let a = words.one()?;
    let log = log_of(a.text()).ok_or(Reason::Field(1))?;
    Ok(Line::Event(EventLine::Pass { log }))
}

/// `roll <L or A>`
pub(crate) fn roll<'a>(words: Words<'a>) -> Result<Line<'a>, Reason>
    ensures { result ≡ roll.fields words.entry }
{
    let a = words.one()?;
    let party = witness_of(a.text()).ok_or(Reason::Field(1))?;
    Ok(Line::Event(EventLine::Roll { party }))
}

/// `learn <m>`
pub(crate) fn learn<'a>(words: Words<'a>) -> Result<Line<'a>, Reason>
    ensures { result ≡ learn.fields words.entry }
{
    let a = words.one()?;
    let message = number_of(a.text()).ok_or(Reason::Field(1))?;
    Ok(Line::Event(EventLine::Learn { message }))
}

/// `ask <L> <name> <A> <A> <C>`
pub(crate) fn ask<'a>(words: Words<'a>) -> Result<Line<'a>, Reason>
    ensures { result ≡ ask.fields words.entry }
{
    let (a, b, c, d, e) = words.five()?;
    let log = log_of(a.text()).ok_or(Reason::Field(1))?;
    let name = NameView::of(b.text()).ok_or(Reason::Field(2))?;
    let first = authority_of(c.text()).ok_or(Reason::Field(3))?;
    let second = authority_of(d.text()).ok_or(Reason::Field(4))?;
    let client = client_of(e.text()).ok_or(Reason::Field(5))?;
    Ok(Line::Event(EventLine::Ask {
        log,
        name,
        first,
        second,
        client,
    }))
}

/// `deliver <m> <party>`
pub(crate) fn deliver<'a>(words: Words<'a>) -> Result<Line<'a>, Reason>
    ensures { result ≡ deliver.fields words.entry }
{
    let (a, b) = words.two()?;
    let message = number_of(a.text()).ok_or(Reason::Field(1))?;
    let party = party_of(b.text()).ok_or(Reason::Field(2))?;
    Ok(Line::Event(EventLine::Deliver { message, party }))
}

/// `flush`
pub(crate) fn flush<'a>(words: Words<'a>) -> Result<Line<'a>, Reason>
    ensures { result ≡ flush.fields words.entry }
{
    words.none()?;
    Ok(Line::Event(EventLine::Flush))
}

/// `judge <m or last> <name> <now> <age>`
pub(crate) fn judge<'a>(words: Words<'a>) -> Result<Line<'a>, Reason>
    ensures { result ≡ judge.fields words.entry }
{
    let (a, b, c, d) = words.four()?;
    let message = judged_of(a.text()).ok_or(Reason::Field(1))?;
    let name = NameView::of(b.text()).ok_or(Reason::Field(2))?;
    let now = number_in(1, u64::MAX, c.text()).ok_or(Reason::Field(3))?;
    let age = number_of(d.text()).ok_or(Reason::Field(4))?;
    Ok(Line::Event(EventLine::Judge {
        message,
        name,
        now,
        age,
    }))
}

/// `sign <party> <pieces>`
pub(crate) fn sign<'a>(words: Words<'a>) -> Result<Line<'a>, Reason>
    ensures { result ≡ sign.fields words.entry }
{
    let (a, pieces) = words.some()?;
    let party = party_of(a.text()).ok_or(Reason::Field(1))?;
    let pieces = pieces_of(pieces)?;
    Ok(Line::Event(EventLine::Sign { party, pieces }))
}

/// `inject <party or logs> <pieces>`
pub(crate) fn inject<'a>(words: Words<'a>) -> Result<Line<'a>, Reason>
    ensures { result ≡ inject.fields words.entry }
{
    let (a, pieces) = words.some()?;
    let to = receiver_of(a.text()).ok_or(Reason::Field(1))?;
    let pieces = pieces_of(pieces)?;
    Ok(Line::Event(EventLine::Inject { to, pieces }))
}
