//! What the characters of a library are.

ghost use Rattle.std.specs.Prelude.{◌≡◌, ◌==◌, ◌||◌, ◌++◌, ◌∷◌, ℕ, false, List, []};
ghost use Rattle.std.specs.List.{list_any};
ghost use Rattle.library_model.specs.LibertyTokens.{Within, begins_comment, begins_continued, bytes_of, characters, plain, quotes};
ghost use Rattle.library_laws.specs.ShownText.{has_end, shown_text};

/// A comment, from `/*` to the first `*/` after it, is one blank, and so is a backslash with the newline after it, or
/// with the carriage return and the newline after it; in a quoted text nothing is a comment, and the next `"` ends it.
/// All other bytes stand for themselves.
pub fn comments_and_continued_lines_are_blanks()
    ensures bytes { (within : Within) (line : ℕ) (text : List ℕ)
        → bytes_of (characters within line text) ≡ shown_text within text }
    ensures comments { (inside rest : List ℕ) → has_end inside ≡ false
        → shown_text plain (47 ∷ (42 ∷ (inside ++ (42 ∷ (47 ∷ rest))))) ≡ 32 ∷ shown_text plain rest }
    ensures no_end { (inside : List ℕ) → has_end inside ≡ false
        → shown_text plain (47 ∷ (42 ∷ inside)) ≡ 32 ∷ [] }
    ensures continued { (rest : List ℕ) → shown_text plain (92 ∷ (10 ∷ rest)) ≡ 32 ∷ shown_text plain rest }
    ensures carriage { (rest : List ℕ)
        → shown_text plain (92 ∷ (13 ∷ (10 ∷ rest))) ≡ 32 ∷ shown_text plain rest }
    ensures quoted { (inside rest : List ℕ) → list_any (λ b. b == 34 || b == 92) inside ≡ false
        → shown_text plain (34 ∷ (inside ++ (34 ∷ rest))) ≡ 34 ∷ (inside ++ (34 ∷ shown_text plain rest)) }
    ensures others { (b : ℕ) (text : List ℕ) → begins_comment b text ≡ false → begins_continued b text ≡ false
        → (b == 34) ≡ false → shown_text plain (b ∷ text) ≡ b ∷ shown_text plain text }
{}
