//! What parts the tokens of a netlist.

ghost use Rattle.std.specs.Prelude.{◌≡◌, ◌==◌, ◌++◌, ◌∷◌, ℕ, false, true, List, [], Some, None};
ghost use Rattle.std.specs.List.{list_any};
ghost use Rattle.netlist_model.specs.VerilogTokens.{after_gap, between, closing, is_blank, opens_line};
ghost use Rattle.netlist_laws.specs.Ends.{has_end};

/// Tokens are parted by blanks, tabs, carriage returns and newlines; by a comment from `//`, and a directive from a
/// backquote, up to the end of its line; by a comment from `/*` to the first `*/` after it, and an attribute from `(*`
/// to the first `*)` after it; and by nothing else. Where a comment or an attribute has no end, no token follows.
pub fn blanks_comments_attributes_and_directives_part_tokens()
    ensures blanks { (b : ℕ) (text : List ℕ) → is_blank b ≡ true
        → after_gap between (b ∷ text) ≡ after_gap between text }
    ensures line_comments { (inside rest : List ℕ) → list_any (λ b. b == 10) inside ≡ false
        → after_gap between (47 ∷ (47 ∷ (inside ++ (10 ∷ rest)))) ≡ after_gap between rest }
    ensures directives { (inside rest : List ℕ) → list_any (λ b. b == 10) inside ≡ false
        → after_gap between (96 ∷ (inside ++ (10 ∷ rest))) ≡ after_gap between rest }
    ensures comments { (inside rest : List ℕ) → has_end 47 inside ≡ false
        → after_gap between (47 ∷ (42 ∷ (inside ++ (42 ∷ (47 ∷ rest))))) ≡ after_gap between rest }
    ensures attributes { (inside rest : List ℕ) → has_end 41 inside ≡ false
        → after_gap between (40 ∷ (42 ∷ (inside ++ (42 ∷ (41 ∷ rest))))) ≡ after_gap between rest }
    ensures no_end { (inside : List ℕ) → has_end 47 inside ≡ false
        → after_gap between (47 ∷ (42 ∷ inside)) ≡ None }
    ensures no_attribute_end { (inside : List ℕ) → has_end 41 inside ≡ false
        → after_gap between (40 ∷ (42 ∷ inside)) ≡ None }
    ensures tokens { (b : ℕ) (text : List ℕ) → is_blank b ≡ false → opens_line b text ≡ false
        → closing b text ≡ None → after_gap between (b ∷ text) ≡ Some (b ∷ text) }
{}
