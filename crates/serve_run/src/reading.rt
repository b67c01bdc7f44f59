ghost use Rattle.std.specs.Prelude.{◌≡◌};
ghost use Rattle.ar_lines.specs.Forms.{sized_of_hex};
ghost use Rattle.ar_lines.specs.Readings.{Follows, ReadsUnless, spelled, start_of_lines};
ghost use Rattle.serve_run.specs.Reading.{are_none, bytes_at, challenges_at, most_challenges, one_too_many_at, service_at};

use ar_lines::{LineFault, Lines, Reason, Refusal, Word, array_of_hex};
use ar_names::Name;
use arpki_ask::readers::name;
use std::alloc::Global;
use std::marker::Model;

/// How many challenges there may be.
const MOST_CHALLENGES: usize = 64;

/// What `serve` is asked: to answer the challenges as the server of the name.
#[derive(Debug, Drop)]
pub struct Service {
    /// The master secret, from which the server's key is made.
    pub secret: [u8; 32],
    /// The name that is served.
    pub name: Name,
    /// The digest of the name's certificate.
    pub certificate: [u8; 32],
    /// What clients ask to be signed, in order.
    pub challenges: Vec<[u8; 32]>,
}

// Clauses see the fields.
impl Model for Service {
    ghost use Rattle.serve_run.specs.Reading.{Service as Spec};

    ghost Value = { Spec };

    ghost view = { λ s. record {
      secret = s.secret;
      name = s.name;
      certificate = s.certificate;
      challenges = s.challenges.items;
    } };
}

/// The 32 bytes that a word spells in hex.
fn bytes_of(word: &Word) -> Result<[u8; 32], Refusal>
    ensures { result ≡ spelled word.now (sized_of_hex 32 word.now.text) }
{
    array_of_hex::<32>(word.text()).ok_or(word.refusal())
}

/// A line of this name with 32 bytes in hex.
#[tactic(auto, unfolding(ar_lines::specs::Rows::value_at))]
fn bytes(lines: &mut Lines, name: &[u8]) -> Result<[u8; 32], Refusal>
    ensures { Follows (λ bytes. bytes) result lines.new (bytes_at name.now lines.old) }
{
    let field = lines.field(name)?;
    bytes_of(&field)
}

/// Whether no line is left.
fn is_ended(lines: &Lines) -> bool
    ensures { result ≡ are_none lines.now.ahead }
{
    lines.no_row().is_ok()
}

/// Refuses a challenge that is one too many.
#[tactic(auto, unfolding(crate::specs::Reading::one_too_many_at))]
fn one_too_many(lines: &mut Lines) -> Result<Vec<[u8; 32]>, LineFault>
    ensures { ReadsUnless (λ challenges. challenges.items) result (one_too_many_at lines.old) }
{
    let field = lines.field(b"challenge")?;
    bytes_of(&field)?;
    Err(LineFault::Refused(Refusal::new(field.line(), Reason::Limit)))
}

/// The lines of challenges, to the end.
#[tactic(auto, using(crate::proofs::ChallengeLines::challenge_lines))]
fn challenges(alloc: Global, lines: &mut Lines) -> Result<Vec<[u8; 32]>, LineFault>
    ensures { ReadsUnless (λ challenges.
        challenges.items) result (challenges_at most_challenges lines.old) }
{
    let mut challenges = Vec::new(alloc);
    for _ in 0..MOST_CHALLENGES {
        let challenge = bytes(lines, b"challenge")?;
        challenges.push(challenge)?;
        if is_ended(lines) {
            return Ok(challenges);
        }
    }
    one_too_many(lines)
}

impl Service {
    /// The service that an input asks for: the lines `secret <64 hex>`, `name <name>`, `certificate <64 hex>`, and 1 to 64 lines
    /// `challenge <64 hex>`. Another input is refused by the first line that is not as it should be; a line that is missing is
    /// refused as `words`, and a 65th challenge as `limit`, where nothing else is wrong with it. The other error is want of memory.
    #[tactic(auto, unfolding(crate::specs::Reading::service_at))]
    pub fn read(alloc: Global, input: &[u8]) -> Result<Service, LineFault>
        ensures { ReadsUnless (λ service. service) result (service_at (start_of_lines input.now)) }
    {
        let mut lines = Lines::new(input);
        let secret = bytes(&mut lines, b"secret")?;
        let name = name(alloc, &mut lines)?;
        let certificate = bytes(&mut lines, b"certificate")?;
        let challenges = challenges(alloc, &mut lines)?;
        Ok(Service {
            secret,
            name,
            certificate,
            challenges,
        })
    }
}
