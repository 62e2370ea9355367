//! Theorems about the definitions of texts, memories and words. Each is a function that does nothing; its contract is
//! the theorem.
ghost use Rattle.std.specs.Prelude.{◌≡◌, ◌≢◌, ◌⊎◌, ℕ, ◌+◌, ◌^◌, ◌<◌, ◌≤◌, ◌↔◌, ◌||◌, true, max, All, List, [], ◌∷◌, ◌++◌, length, slice_get, take_while, Bool, None, Some};
ghost use Rattle.std.specs.Char.{digit_value};
ghost use Rattle.std.specs.Str.Parse.{IsNumeral, digits_value};
ghost use Rattle.y86_base.specs.Cursor.{column_behind, line_behind};
ghost use Rattle.y86_base.specs.Image.{put_word, word_at};
ghost use Rattle.y86_base.specs.Keyword.{meaning_of};
ghost use Rattle.y86_base.specs.Number.{IsDecimal, decimal_at};
ghost use Rattle.y86_base.specs.Numeral.{numeral};
ghost use Rattle.y86_base.specs.Registers.{register, register_name, register_names, with_register};
ghost use Rattle.y86_base.specs.Stat.{stat_number, stat_of};
ghost use Rattle.y86_base.specs.declared.number.Number.{Number};
ghost use Rattle.y86_base.specs.Text.{HasNoLineFeed, IsRun, behind, hex_value, is_decimal, is_hex, is_lower_hex, lines, with_line_feeds};

/// No line has a line feed. The lines with a line feed after each are the text again, perhaps with one more line feed
/// at its end. Conversely, lines with a line feed after each are the lines of their text, also if a last line follows
/// that isn't empty and has no line feed.
pub fn law_of_lines()
    ensures no_line_feed { (text : List ℕ) → All HasNoLineFeed (lines text) }
    ensures again { (text : List ℕ) →
        (with_line_feeds (lines text) ≡ text) ⊎ (with_line_feeds (lines text) ≡ text ++ 10 ∷ []) }
    ensures ended { (some : List (List ℕ)) → All HasNoLineFeed some → lines (with_line_feeds some) ≡ some }
    ensures last { (some : List (List ℕ)) (last : List ℕ) → All HasNoLineFeed some → HasNoLineFeed last →
        0 < length last → lines (with_line_feeds some ++ last) ≡ some ++ last ∷ [] }
{}

/// The line of a position is one more than the line feeds before it. Its column is one more than the bytes since the
/// last line feed, or since the beginning if there is none.
pub fn law_of_places()
    ensures first_line { (done : List ℕ) → HasNoLineFeed done →
        (line_behind done ≡ 1) × (column_behind done ≡ length done + 1) }
    ensures later_line { (before since : List ℕ) → HasNoLineFeed since →
        (line_behind (before ++ 10 ∷ since) ≡ line_behind before + 1)
        × (column_behind (before ++ 10 ∷ since) ≡ length since + 1) }
{}

/// The digits, and their values, are those of the standard library.
pub fn law_of_digits()
    ensures decimal { (byte : ℕ) → (is_decimal byte ≡ true) ↔ (digit_value byte < 10) }
    ensures hex { (byte : ℕ) → (is_hex byte ≡ true) ↔ (digit_value byte < 16) }
    ensures value { (byte : ℕ) → is_hex byte ≡ true → hex_value byte ≡ digit_value byte }
{}

/// The text of a number is a numeral of its base in lower case, which has its value and at least its least width. If it
/// is wider, it doesn't begin with `0`.
pub fn law_of_numerals()
    ensures numeral { (base least n : ℕ) → 2 ≤ base → base ≤ 16 → n < 2 ^ 64 → IsNumeral base (numeral base least n) }
    ensures lower_case { (base least n : ℕ) → 2 ≤ base → base ≤ 16 → n < 2 ^ 64 →
        All (λ digit. (is_decimal digit || is_lower_hex digit) ≡ true) (numeral base least n) }
    ensures value { (base least n : ℕ) → 2 ≤ base → base ≤ 16 → n < 2 ^ 64 →
        digits_value base (numeral base least n) ≡ n }
    ensures width { (base least n : ℕ) → least ≤ length (numeral base least n) }
    ensures no_wider { (base least n : ℕ) → 2 ≤ base → base ≤ 16 → n < 2 ^ 64 →
        max least 1 < length (numeral base least n) → slice_get (numeral base least n) 0 ≢ Some 48 }
{}

/// The bytes at the front that pass a test are the longest such run: the definition splits a text exactly so.
pub fn law_of_runs()
    ensures { (passes : ℕ → Bool) (text front rest : List ℕ) →
        ((take_while passes text ≡ front) × (behind passes text ≡ rest)) ↔ IsRun passes text front rest }
{}

/// A decimal number is read exactly if there is one: an optional `-` and directly after it the longest run of digits.
pub fn law_of_decimals()
    ensures { (text : List ℕ) (number : Number) (rest : List ℕ) →
        (decimal_at text ≡ Some (number, rest)) ↔ IsDecimal text number rest }
{}

/// A stored word is read back at its address; words beside it, and the size, are unchanged. If one of its bytes is
/// outside, nothing is read and nothing changes.
pub fn law_of_words()
    ensures written { (memory : List ℕ) (address word : ℕ) → address + 8 ≤ length memory → word < 2 ^ 64 →
        word_at (put_word memory address word) address ≡ Some word }
    ensures beside { (memory : List ℕ) (address other word : ℕ) → (other + 8 ≤ address) ⊎ (address + 8 ≤ other) →
        word_at (put_word memory address word) other ≡ word_at memory other }
    ensures size { (memory : List ℕ) (address word : ℕ) → length (put_word memory address word) ≡ length memory }
    ensures outside { (memory : List ℕ) (address word : ℕ) → length memory < address + 8 →
        (word_at memory address ≡ None) × (put_word memory address word ≡ memory) }
{}

/// A register that was written reads the word, and every other register is unchanged. A number over 14 reads 0 and
/// writes nothing. Each register has a name of its own.
pub fn law_of_registers()
    ensures written { (registers : List ℕ) (number word : ℕ) → length registers ≡ 15 → number < 15 →
        register (with_register registers number word) number ≡ word }
    ensures others { (registers : List ℕ) (number other word : ℕ) → other ≢ number →
        register (with_register registers number word) other ≡ register registers other }
    ensures none { (registers : List ℕ) (number word : ℕ) → 15 ≤ number →
        (register registers number ≡ 0) × (with_register registers number word ≡ registers) }
    ensures names { (number : ℕ) → number < 15 → meaning_of register_names (register_name number) ≡ Some number }
{}

/// A number below 5 is the number of the status that it gives.
pub fn law_of_statuses()
    ensures { (n : ℕ) → n < 5 → stat_number (stat_of n) ≡ n }
{}
