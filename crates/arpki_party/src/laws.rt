//! Laws on what a party is made of, over the definitions alone: each is the contract of a function that does nothing.

ghost use Rattle.std.specs.Prelude.{◌≡◌, ◌∷◌, [], ℕ, List, Ok, true, map};
ghost use Rattle.ar_statement.specs.Claims.{party};
ghost use Rattle.ar_statement.specs.Ranges.{is_witness};
ghost use Rattle.ar_statement.specs.declared.party.Role.{Role};
ghost use Rattle.arpki_party.specs.Made.{parts_taken};
ghost use Rattle.arpki_party.specs.declared.opening.Parts.{Parts};
ghost use Rattle.lms_tree.specs.Key.{public_of};
ghost use Rattle.lms_tree.specs.PublicKey.{key_text};
ghost use Rattle.party_keys.specs.Directory.{keys_of};

/// The directory with which a log or an authority is made says of it the text of its own first key, and no other. (Keys with one
/// text are equal where their parts have their widths, as those of a program have: so `parts_of` says it of the keys.)
pub fn a_party_begins_with_its_first_key()
    ensures { (role : Role) (number : ℕ) (directory secret : List ℕ) (parts : Parts)
        → is_witness role ≡ true → parts_taken role number directory secret ≡ Ok parts
        → map key_text (keys_of parts.directory (party role number))
        ≡ key_text (public_of parts.key) ∷ [] }
{}
