//! Laws on what is read of lines and of words, over the definitions alone: each is the contract of a
//! function without a body.

ghost use Rattle.std.specs.Prelude.{◌≡◌, ◌<◌, ◌^◌, ℕ, List, true};
ghost use Rattle.std.specs.Fmt.{decimal};
ghost use Rattle.std.specs.List.{list_all};
ghost use Rattle.hex.specs.Hex.{IsBytes, encode_lower};
ghost use Rattle.ar_names.specs.Names.{IsName};
ghost use Rattle.ar_lines.specs.Forms.{bytes_of_hex, key_of_hex, name_of, number_of};
ghost use Rattle.ar_lines.specs.Parties.{party_of, party_word};
ghost use Rattle.ar_lines.specs.Lines.{is_text, lines_of};
ghost use Rattle.ar_lines.specs.Written.{IsKey, IsReadAsWritten, WritesBack, hex_of_key, text_of_lines};

/// Lines of text that are written are read as just these lines.
pub fn lines_are_read_as_they_are_written()
    ensures { (lines : List (List ℕ)) → list_all is_text lines ≡ true
        → lines_of (text_of_lines lines) ≡ lines }
{}

/// What is written as a word spells what was written.
pub fn words_are_read_as_they_are_written()
    ensures hex { IsReadAsWritten bytes_of_hex encode_lower IsBytes }
    ensures number { IsReadAsWritten number_of decimal (λ n. n < 2 ^ 64) }
    ensures name { IsReadAsWritten name_of (λ name. name) IsName }
    ensures key { IsReadAsWritten key_of_hex hex_of_key IsKey }
    ensures party { IsReadAsWritten party_of party_word (λ party. party.number < 2 ^ 16) }
{}

/// A word spells only what is written as it, so that no two words spell the same.
pub fn only_written_words_are_read()
    ensures hex { WritesBack bytes_of_hex encode_lower }
    ensures number { WritesBack number_of decimal }
    ensures name { WritesBack name_of (λ name. name) }
    ensures key { WritesBack key_of_hex hex_of_key }
    ensures party { WritesBack party_of party_word }
{}
