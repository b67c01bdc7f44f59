//! Laws on fields, over the definitions alone: each is the contract of a function without a body.

ghost use Rattle.std.specs.Prelude.{◌≡◌, ◌^◌, ◌<◌, ◌≤◌, Bool, true, List, ℕ, length};
ghost use Rattle.std.specs.List.{flat_map};
ghost use Rattle.std.specs.Int.{w8, w16, w32, w64};
ghost use Rattle.ar_bytes.specs.Reading.{Cursor, Reading, number_at, bytes_at, counted_at, such_that, within, whole};
ghost use Rattle.ar_bytes.specs.Ascending.{ascending_at, numbers_at, numbers_text, Ascend, AreNumbers};
ghost use Rattle.ar_bytes.specs.Tested.{byte_at, count_at, flag_at, flag_text};
ghost use Rattle.ar_bytes.specs.RoundTrip.{ReadsBack, NumbersReadBack, IsSpelledBy, number_text, counted_text};

/// A number that was put is read again, wherever it stands and whatever follows it.
pub fn numbers_read_back()
    ensures one_byte { NumbersReadBack w8 (2 ^ 8) }
    ensures two_bytes { NumbersReadBack w16 (2 ^ 16) }
    ensures four_bytes { NumbersReadBack w32 (2 ^ 32) }
    ensures eight_bytes { NumbersReadBack w64 (2 ^ 64) }
{}

/// A number that is read has just the bytes by which it is put, and fits its width.
pub fn numbers_are_spelled()
    ensures one_byte { IsSpelledBy (number_at w8) (number_text w8) (λ n. n < 2 ^ 8) }
    ensures two_bytes { IsSpelledBy (number_at w16) (number_text w16) (λ n. n < 2 ^ 16) }
    ensures four_bytes { IsSpelledBy (number_at w32) (number_text w32) (λ n. n < 2 ^ 32) }
    ensures eight_bytes { IsSpelledBy (number_at w64) (number_text w64) (λ n. n < 2 ^ 64) }
{}

/// Bytes and counted bytes that were put are read again.
pub fn bytes_read_back()
    ensures plain { (bytes : List ℕ) → ReadsBack (bytes_at (length bytes)) bytes bytes }
    ensures counted { (bytes : List ℕ) → length bytes < 2 ^ 16
        → ReadsBack counted_at bytes (counted_text bytes) }
{}

/// Bytes and counted bytes that are read stand so in the input, and are as many as was said.
pub fn bytes_are_spelled()
    ensures plain { (n : ℕ) → IsSpelledBy (bytes_at n) (λ bytes. bytes)
        (λ bytes. length bytes ≡ n) }
    ensures counted { IsSpelledBy counted_at counted_text (λ bytes. length bytes < 2 ^ 16) }
{}

/// A field that reads a value back reads it back behind a test that the value passes, in a counted part
/// of its own, and as a whole input.
pub fn parts_read_back<T>()
    ensures tested { (field : Cursor → Reading T) (test : T → Bool) (value : T) (text : List ℕ)
        → ReadsBack field value text → test value ≡ true
        → ReadsBack (such_that test field) value text }
    ensures part { (field : Cursor → Reading T) (value : T) (text : List ℕ)
        → ReadsBack field value text → ReadsBack (within (length text) field) value text }
    ensures input { (field : Cursor → Reading T) (value : T) (text : List ℕ)
        → ReadsBack field value text → whole field text ≡ Ok value }
{}

/// A byte, a count and a flag that were put are read again.
pub fn tested_fields_read_back()
    ensures byte { (value : ℕ) → value < 2 ^ 8
        → ReadsBack (byte_at value) value (number_text w8 value) }
    ensures count { (most n : ℕ) → n ≤ most → n < 2 ^ 8
        → ReadsBack (count_at most) n (number_text w8 n) }
    ensures flag { (flag : Bool) → ReadsBack flag_at flag (flag_text flag) }
{}

/// A byte, a count and a flag that are read have just the byte by which they are put.
pub fn tested_fields_are_spelled()
    ensures byte { (value : ℕ) → IsSpelledBy (byte_at value) (number_text w8) (λ n. n ≡ value) }
    ensures count { (most : ℕ) → IsSpelledBy (count_at most) (number_text w8) (λ n. n ≤ most) }
    ensures flag { IsSpelledBy flag_at flag_text (λ _. Unit {0}) }
{}

/// Entries whose numbers ascend are read back, where each is read back that is not below the least, and
/// so are numbers.
pub fn ascending_entries_read_back<T>()
    ensures entries { (number : T → ℕ) (entry : ℕ → Cursor → Reading T) (text : T → List ℕ)
        (fits : T → Bool)
        → ((least : ℕ) (x : T) → least ≤ number x → fits x ≡ true
        → ReadsBack (entry least) x (text x))
        → (count least : ℕ) (xs : List T) → length xs ≡ count
        → Ascend number (λ x. fits x ≡ true) least xs
        → ReadsBack (ascending_at number entry count least) xs (flat_map text xs) }
    ensures numbers { (count : ℕ) (ns : List ℕ) → length ns ≡ count → AreNumbers ns
        → ReadsBack (numbers_at count 0) ns (numbers_text ns) }
{}

/// Entries that are read ascend, are as many as was said, and stand so in the input, and so do numbers.
pub fn ascending_entries_are_spelled<T>()
    ensures entries { (number : T → ℕ) (entry : ℕ → Cursor → Reading T) (text : T → List ℕ)
        (fits : T → Bool)
        → ((least : ℕ) → IsSpelledBy (entry least) text (λ x. (least ≤ number x) × (fits x ≡ true)))
        → (count least : ℕ) → IsSpelledBy (ascending_at number entry count least) (flat_map text)
        (λ xs. Ascend number (λ x. fits x ≡ true) least xs × (length xs ≡ count)) }
    ensures numbers { (count : ℕ) → IsSpelledBy (numbers_at count 0) numbers_text
        (λ ns. AreNumbers ns × (length ns ≡ count)) }
{}
