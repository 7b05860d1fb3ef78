//! Laws of the entries of a text: each is the contract of a function that does nothing.
ghost use Rattle.std.specs.Prelude.{◌≡◌, ◌+◌, ◌++◌, ◌∷◌, ℕ, List, [], codes, false, true, All, map};
ghost use Rattle.std.specs.List.{flat_map, list_all};
ghost use Rattle.zone_lexing.specs.Items.{is_blank, items};
ghost use Rattle.zone_lexing.specs.Word.{Written};
ghost use Rattle.zone_lexing.specs.Entries.{entries_of};
ghost use Rattle.zone_lexing.specs.Lines.{lowered, on_lines, without_lines};
ghost use Rattle.zone_lexing.specs.Order.{lfs, EndsAtLf, AreInOrder};
ghost use Rattle.zone_lexing.specs.Place.{ends_in, ends_outside, is_remark, place_of};
ghost use Rattle.zone_lexing.specs.Spelling.{spell, are_spelt, one_a_line};

/// The items of a text are the text, cut: no octet is lost. An LF ends its line wherever it stands, so that lines are
/// counted by LFs (RFC 1035, 5.1).
pub fn items_are_the_text()
    ensures whole { (text : List ℕ) → flat_map (λ item. item.1) (items 0 text) ≡ text }
    ensures lines { (text : List ℕ) → All EndsAtLf (items 0 text) }
{}

/// The entries of a text stand below each other, each with a word or a fault, and only the last may have a fault.
pub fn entries_are_in_order()
    ensures { (text : List ℕ) → AreInOrder 1 (entries_of text) }
{}

/// Words that are spelt on lines, with a space between, are read again: an entry for each line, with its words
/// (RFC 1035, 5.1).
pub fn lines_are_read_back()
    ensures { (lines : List (List Written)) → are_spelt lines ≡ true → entries_of (spell lines) ≡ one_a_line 1 lines }
{}

/// A comment changes no entry: from a semicolon that stands outside quotes, and after no backslash, up to its line's end
/// (RFC 1035, 5.1). The line may be the last, without an end.
pub fn comments_change_nothing()
    ensures line { (text remark more : List ℕ) → ends_outside text ≡ true → is_remark remark ≡ true
        → entries_of (text ++ 59 ∷ remark ++ 10 ∷ more) ≡ entries_of (text ++ 10 ∷ more) }
    ensures last { (text remark : List ℕ) → ends_outside text ≡ true → is_remark remark ≡ true
        → entries_of (text ++ 59 ∷ remark) ≡ entries_of text }
{}

/// A blank line, after a line or before the first, changes nothing but the lines that entries below it are on: each
/// is one more (RFC 1035, 5.1).
pub fn blank_lines_change_nothing()
    ensures behind { (text blanks more : List ℕ) → list_all is_blank blanks ≡ true
        → entries_of (text ++ 10 ∷ blanks ++ 10 ∷ more) ≡ map (on_lines (lowered (lfs text + 1))) (entries_of (text ++ 10 ∷ more)) }
    ensures first { (blanks more : List ℕ) → list_all is_blank blanks ≡ true
        → entries_of (blanks ++ 10 ∷ more) ≡ map (on_lines (lowered 0)) (entries_of more) }
{}

/// A line that ends by CR and LF is the line that ends by the LF, wherever it ends: in a comment, in quotes, after a
/// backslash (RFC 1035, 5.1).
pub fn line_ends_are_alike()
    ensures { (text more : List ℕ) → ends_in 13 text ≡ false → entries_of (text ++ 13 ∷ 10 ∷ more) ≡ entries_of (text ++ 10 ∷ more) }
{}

/// Between parentheses a line's end is a blank: an entry over several lines is the entry on one line (RFC 1035, 5.1).
pub fn parentheses_join_lines()
    ensures { (text more : List ℕ) → ends_outside text ≡ true → (place_of text).inside ≡ true
        → map without_lines (entries_of (text ++ 10 ∷ more)) ≡ map without_lines (entries_of (text ++ 32 ∷ more)) }
{}

/// Worked examples of where a comment may stand and where parentheses are open (RFC 1035, 5.1).
pub fn examples_of_places()
    ensures behind_string { ends_outside (34 ∷ codes "a;(" ++ 34 ∷ []) ≡ true }
    ensures in_string { ends_outside (34 ∷ codes "a;") ≡ false }
    ensures in_comment { ends_outside (codes "a ; b") ≡ false }
    ensures behind_comment { ends_outside (codes "a ; (" ++ 10 ∷ codes "b") ≡ true }
    ensures behind_backslash { ends_outside (codes "a" ++ 92 ∷ []) ≡ false }
    ensures behind_two { ends_outside (codes "a" ++ 92 ∷ 92 ∷ []) ≡ true }
    ensures over_lines { (place_of (codes "a (b" ++ 10 ∷ codes "c")).inside ≡ true }
    ensures closed { (place_of (codes "a (b)")).inside ≡ false }
    ensures commented { (place_of (codes "a ;(" ++ 10 ∷ [])).inside ≡ false }
{}
