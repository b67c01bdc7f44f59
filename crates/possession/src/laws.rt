//! Laws on servers and clients, over the definitions alone: each is the contract of a function without a body.

ghost use Rattle.std.specs.Prelude.{◌≡◌, ◌≢◌, ◌<◌, ◌↔◌, List, ℕ};
ghost use Rattle.ar_cert.specs.Certificate.{Certificate};
ghost use Rattle.ar_statement.specs.Claims.{answer, handover};
ghost use Rattle.ar_statement.specs.Ranges.{IsHeld};
ghost use Rattle.bound_challenge.specs.Challenges.{staple_challenge};
ghost use Rattle.client_rule.specs.Meaning.{Accepts, AcceptsNone, Refuses};
ghost use Rattle.client_rule.specs.Rule.{Asked};
ghost use Rattle.lms_tree.specs.Key.{public_of, signature_of};
ghost use Rattle.lms_tree.specs.LmsKind.{leaves_of};
ghost use Rattle.lms_tree.specs.declared.validity.Verdict.TheVariants.{Valid};
ghost use Rattle.possession.specs.Answering.{Server, answer_text, handover_text};
ghost use Rattle.possession.specs.Connections.{LacksKey, Shows, connection_of, stapled_connection_of};
ghost use Rattle.possession.specs.declared.connection.Connection.TheVariants as connection;

/// A connection is open exactly where all facts hold that the client's rule asks for, of the certificate that it
/// shows, and the answer is valid under this certificate's subject key, for this challenge. The server lacks the key
/// by a number exactly where the same facts hold and the answer fails by this condition of a signature. The name is
/// absent, or the confirmation refused by a number, exactly where the client's rule says so.
pub fn a_connection_means_its_facts()
    ensures open { (asked : Asked) (confirmation challenge answer : List ℕ)
        (certificate : Certificate) (digest : List ℕ) (epoch : ℕ) (root : List ℕ)
        → (connection_of asked confirmation challenge answer
        ≡ connection.Open certificate digest epoch root)
        ↔ Shows asked confirmation challenge answer certificate digest epoch root Valid }
    ensures no_possession { (asked : Asked) (confirmation challenge answer : List ℕ) (k : ℕ)
        → (connection_of asked confirmation challenge answer ≡ connection.NoPossession k)
        ↔ LacksKey asked confirmation challenge answer k }
    ensures absent { (asked : Asked) (confirmation challenge answer : List ℕ) (epoch : ℕ)
        (root : List ℕ)
        → (connection_of asked confirmation challenge answer ≡ connection.Absent epoch root)
        ↔ AcceptsNone asked confirmation epoch root }
    ensures refused { (asked : Asked) (confirmation challenge answer : List ℕ) (k : ℕ)
        → (connection_of asked confirmation challenge answer ≡ connection.Refused k)
        ↔ Refuses asked confirmation k }
{}

/// What is signed for a challenge is the answer for no other name, certificate or challenge, and hands nothing over.
pub fn an_answer_is_to_one_challenge()
    ensures one { (name other_name certificate other_certificate challenge other : List ℕ)
        → IsHeld (answer name certificate challenge)
        → IsHeld (answer other_name other_certificate other)
        → answer_text name certificate challenge ≡ answer_text other_name other_certificate other
        → (name ≡ other_name) × (certificate ≡ other_certificate) × (challenge ≡ other) }
    ensures no_handover { (name certificate challenge digest : List ℕ)
        → IsHeld (answer name certificate challenge)
        → IsHeld (handover digest)
        → answer_text name certificate challenge ≢ handover_text digest }
{}

/// What a server answers to a challenge opens the connection of a client that asks for its name and accepts its
/// certificate, whose subject key is the server's.
pub fn an_answer_opens()
    ensures { (server : Server) (asked : Asked) (confirmation challenge : List ℕ) (leaf : ℕ)
        (certificate : Certificate) (epoch : ℕ) (root : List ℕ)
        → leaf < leaves_of server.key.lms
        → certificate.subject ≡ public_of server.key
        → asked.name ≡ server.name
        → Accepts asked confirmation certificate server.certificate epoch root
        → connection_of asked confirmation challenge
        (signature_of server.key leaf (answer_text server.name server.certificate challenge))
        ≡ connection.Open certificate server.certificate epoch root }
{}

/// A connection with a staple is open exactly where all facts hold that the client's rule asks for, of the certificate that the
/// confirmation shows, and the staple is valid under this certificate's subject key, as the answer to the challenge of the
/// confirmation's epoch and of the channel that the client sees.
pub fn a_staple_is_of_the_epoch_and_the_channel()
    ensures { (asked : Asked) (confirmation channel staple : List ℕ) (certificate : Certificate)
        (digest : List ℕ) (epoch : ℕ) (root : List ℕ)
        → (stapled_connection_of asked confirmation channel staple
        ≡ connection.Open certificate digest epoch root)
        ↔ Shows asked confirmation (staple_challenge epoch channel) staple certificate digest epoch
        root Valid }
{}

/// What a server signs as its staple for an epoch and a channel opens the connection of a client that sees this channel, asks for
/// the server's name and accepts its certificate in that epoch.
pub fn a_staple_opens()
    ensures { (server : Server) (asked : Asked) (confirmation channel : List ℕ) (leaf : ℕ)
        (certificate : Certificate) (epoch : ℕ) (root : List ℕ)
        → leaf < leaves_of server.key.lms
        → certificate.subject ≡ public_of server.key
        → asked.name ≡ server.name
        → Accepts asked confirmation certificate server.certificate epoch root
        → stapled_connection_of asked confirmation channel
        (signature_of server.key leaf
        (answer_text server.name server.certificate (staple_challenge epoch channel)))
        ≡ connection.Open certificate server.certificate epoch root }
{}
