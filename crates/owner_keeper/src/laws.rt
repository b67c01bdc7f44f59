//! Laws on the texts of orders and on what orders do, over the definitions alone: each is the contract of a function that does
//! nothing.

ghost use Rattle.std.specs.Prelude.{◌≡◌, ◌⊎◌, ◌≤◌, ◌+◌, ◌++◌, ◌∷◌, ℕ, List, Ok, Some, false, length};
ghost use Rattle.ar_base.specs.Bytes.{AreBytes};
ghost use Rattle.ar_cert.specs.Certificate.{Certificate, IsCertificate};
ghost use Rattle.client_rule.specs.Meaning.{Accepts};
ghost use Rattle.client_rule.specs.Rule.{Asked};
ghost use Rattle.kept_journal.specs.Replays.{ReachesBy};
ghost use Rattle.kept_party.specs.Lives.{Lead, Life};
ghost use Rattle.kept_party.specs.Taking.{Becomes};
ghost use Rattle.lms_tree.specs.KeyParts.{KeyParts};
ghost use Rattle.owner_keeper.specs.Keeping.{OwnerStanding, draft_of, new_standing, order_row, takes};
ghost use Rattle.owner_keeper.specs.Lasting.{SignsOn};
ghost use Rattle.owner_keeper.specs.Reasons.{HasReasons, IsKept};
ghost use Rattle.owner_keeper.specs.Stapling.{free_of, is_allowed, kept_back};
ghost use Rattle.owner_keeper.specs.Texts.{IsWhole, as_kept, kept_order, kept_text};
ghost use Rattle.owner_keeper.specs.declared.order.OwnerOrder.TheVariants as orders;
ghost use Rattle.owner_keeper.specs.declared.order.OwnerOrder.{OwnerOrder};
ghost use Rattle.owner_keeper.specs.declared.permit.Permit.{Permit};
ghost use Rattle.owner_keeper.specs.declared.reply.OwnerReply.TheVariants as replies;
ghost use Rattle.owner_keeper.specs.declared.reply.OwnerReply.{OwnerReply};
ghost use Rattle.party_keys.specs.Directory.{Directory};
ghost use Rattle.possession.specs.Connections.{stapled_connection_of};
ghost use Rattle.possession.specs.declared.connection.Connection.TheVariants as connection;

/// The text of an order says it: of a staple without the confirmation by which its epoch came.
pub fn a_text_says_its_order()
    ensures { (order : OwnerOrder) (text : List ℕ) → IsWhole order → kept_text order ≡ Some text
        → kept_order text ≡ Some (as_kept order) }
{}

/// An order is read from its own text alone.
pub fn only_texts_are_read()
    ensures { (text : List ℕ) (order : OwnerOrder) → AreBytes text → kept_order text ≡ Some order
        → (kept_text order ≡ Some text) × IsWhole order }
{}

/// A certificate that is begun or known has the next number, and each draft keeps its number whatever is done.
pub fn a_draft_keeps_its_number()
    ensures begun { (party later : OwnerStanding) (cert : Certificate) (asks : List ℕ)
        (reply : OwnerReply) → order_row party (orders.Begin cert asks) ≡ Ok (reply, later)
        → draft_of later (length party.certs + 1) ≡ Some cert }
    ensures known { (party later : OwnerStanding) (cert : Certificate) (reply : OwnerReply)
        → order_row party (orders.Know cert) ≡ Ok (reply, later)
        → draft_of later (length party.certs + 1) ≡ Some cert }
    ensures kept { (party later : OwnerStanding) (order : OwnerOrder) (reply : OwnerReply)
        (draft : ℕ) (cert : Certificate) → order_row party order ≡ Ok (reply, later)
        → draft_of party draft ≡ Some cert → draft_of later draft ≡ Some cert }
{}

/// What an owner signed it has signed in each later life of its file, whatever crashes and openings come between: it has the same
/// key, and each leaf that served a statement serves it. So no leaf signs two texts, however often its process is killed.
pub fn what_an_owner_signed_is_kept()
    ensures order { (party later : OwnerStanding) (order : OwnerOrder) (reply : OwnerReply)
        → order_row party order ≡ Ok (reply, later) → SignsOn party.owner later.owner }
    ensures lives { (mark : List ℕ) (first before after last : OwnerStanding)
        (texts answered more : List (List ℕ)) (text : List ℕ) (reply : OwnerReply)
        (left : List ℕ) (lives : List Life) (final : List (List ℕ)) → length mark ≡ 8
        → ReachesBy (Becomes takes) first (texts ++ answered) before
        → takes before text reply after
        → Lead mark texts (record { answered = answered ++ (text ∷ more); left = left } ∷ lives) final
        → ReachesBy (Becomes takes) first final last → SignsOn after.owner last.owner }
{}

/// What an owner keeps whatever it is asked: its book is one, of all leaves of its key, its client's directory is its own, and each
/// staple that it signed has its leaf. It is so of an owner that has done nothing, and of each that texts of a journal lead to.
pub fn an_owner_keeps_its_book_and_its_directory()
    ensures new { (number : ℕ) (directory : Directory) (key : KeyParts)
        → IsKept (new_standing number directory key) }
    ensures order { (party later : OwnerStanding) (order : OwnerOrder) (reply : OwnerReply)
        → order_row party order ≡ Ok (reply, later) → IsKept party → IsKept later }
    ensures reached { (texts : List (List ℕ)) (first last : OwnerStanding)
        → ReachesBy (Becomes takes) first texts last → IsKept first → IsKept last }
{}

/// What held where a staple was signed: the draft has the owner's own key, its operator allowed the TLS key, its client's rule accepts
/// the confirmation with the draft's certificate, under the directory that it learnt; and a staple that was not signed before is of no
/// epoch before the newest, with more leaves left than are kept back.
pub fn a_staple_has_its_reasons()
    ensures { (party later : OwnerStanding) (permit : Permit) (confirmation : List ℕ)
        (reply : OwnerReply) → order_row party (orders.Staple permit confirmation) ≡ Ok (reply, later)
        → HasReasons party permit confirmation reply }
{}

/// A staple leaves the book as it is, or as many leaves as are kept back.
pub fn a_staple_leaves_what_is_kept_back()
    ensures { (party later : OwnerStanding) (permit : Permit) (confirmation : List ℕ)
        (reply : OwnerReply) → IsKept party
        → order_row party (orders.Staple permit confirmation) ≡ Ok (reply, later)
        → (later.owner.book ≡ party.owner.book)
        ⊎ (kept_back party.owner.book.leaves ≤ free_of later.owner.book) }
{}

/// A TLS key that is allowed no longer is not allowed, so it is stapled again only behind an order that allows it.
pub fn what_is_disallowed_is_not_allowed()
    ensures { (party later : OwnerStanding) (permit : Permit) (reply : OwnerReply)
        → order_row party (orders.Disallow permit) ≡ Ok (reply, later)
        → is_allowed later.stapling.allowed permit ≡ false }
{}

/// What an owner signed as a staple opens the connection of a client that sees the TLS key and accepts the draft's certificate in the
/// staple's epoch, by whatever confirmation.
pub fn what_is_stapled_opens()
    ensures { (party later : OwnerStanding) (permit : Permit) (confirmation : List ℕ)
        (cert : Certificate) (digest : List ℕ) (epoch : ℕ) (channel signature : List ℕ)
        (asked : Asked) (shown root : List ℕ) → IsKept party → IsCertificate cert
        → draft_of party permit.draft ≡ Some cert
        → order_row party (orders.Staple permit confirmation)
        ≡ Ok (replies.Stapled digest epoch channel signature, later)
        → asked.name ≡ cert.name → Accepts asked shown cert digest epoch root
        → stapled_connection_of asked shown permit.channel signature
        ≡ connection.Open cert digest epoch root }
{}

/// A staple that is asked for again, whatever was done since and by whatever confirmation of its epoch, is the same bytes.
pub fn a_staple_is_the_same_again()
    ensures { (party later after last : OwnerStanding) (permit : Permit)
        (confirmation other : List ℕ) (cert : Certificate) (digest : List ℕ) (epoch : ℕ)
        (channel signature bytes : List ℕ) → IsKept after → SignsOn later.owner after.owner
        → SignsOn party.owner later.owner → draft_of party permit.draft ≡ Some cert
        → draft_of after permit.draft ≡ Some cert
        → order_row party (orders.Staple permit confirmation)
        ≡ Ok (replies.Stapled digest epoch channel signature, later)
        → order_row after (orders.Staple permit other)
        ≡ Ok (replies.Stapled digest epoch channel bytes, last)
        → bytes ≡ signature }
{}
