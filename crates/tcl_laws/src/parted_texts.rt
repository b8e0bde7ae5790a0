//! What brackets, braces and quotes pass over in a Tcl text, and what stands between its words and commands.

ghost use Rattle.std.specs.Prelude.{◌≡◌, ◌==◌, ◌++◌, ◌∷◌, ℕ, Bool, true, false, List, [], Option, Some, None};
ghost use Rattle.std.specs.List.{list_any};
ghost use Rattle.std.specs.Option.{option_and_then};
ghost use Rattle.text_model.specs.Bytes.{begins_with, is_space, leads_word};
ghost use Rattle.text_model.specs.Continued.{after_gap, comment, continues, from_command, parting};
ghost use Rattle.text_model.specs.Enclosed.{after_brace, after_bracket};
ghost use Rattle.tcl_laws.specs.Nested.{HasNone, Nest, after_quote, in_bracket, is_one_of, spelled};

/// A bracket ends at its `]`. Up to there an inner bracket is passed over whole, and so is a braced or a quoted word
/// where a word may begin; a backslash takes the next byte out. A word may begin after `[`, a blank, a newline and
/// `;`, and nowhere else but at the start. Where the text ends first, the bracket has no end.
pub fn brackets_pass_over_words_whole()
    ensures ends { (begins : Bool) (text : List ℕ) → in_bracket begins (93 ∷ text) ≡ Some text }
    ensures brackets { (begins : Bool) (text : List ℕ)
        → in_bracket begins (91 ∷ text) ≡ option_and_then (in_bracket false) (after_bracket text) }
    ensures braces { (text : List ℕ)
        → in_bracket true (123 ∷ text) ≡ option_and_then (in_bracket false) (after_brace text) }
    ensures quotes { (text : List ℕ)
        → in_bracket true (34 ∷ text) ≡ option_and_then (in_bracket false) (after_quote text) }
    ensures backslash { (begins : Bool) (b : ℕ) (text : List ℕ)
        → in_bracket begins (92 ∷ (b ∷ text)) ≡ in_bracket (b == 10) text }
    ensures at_word { (b : ℕ) (text : List ℕ) → is_one_of (34 ∷ 91 ∷ 92 ∷ 93 ∷ 123 ∷ []) b ≡ false
        → in_bracket true (b ∷ text) ≡ in_bracket (leads_word b) text }
    ensures in_word { (b : ℕ) (text : List ℕ) → is_one_of (91 ∷ 92 ∷ 93 ∷ []) b ≡ false
        → in_bracket false (b ∷ text) ≡ in_bracket (leads_word b) text }
    ensures no_end { (begins : Bool) → in_bracket begins [] ≡ None }
{}

/// A brace ends at its `}`, and passes over an inner brace whole; a quote ends at the next `"`, and passes over a
/// bracket whole; in both a backslash takes the next byte out, and nothing else counts.
pub fn braces_and_quotes_end_at_their_own()
    ensures brace_ends { (text : List ℕ) → after_brace (125 ∷ text) ≡ Some text }
    ensures braces { (text : List ℕ)
        → after_brace (123 ∷ text) ≡ option_and_then after_brace (after_brace text) }
    ensures brace_backslash { (b : ℕ) (text : List ℕ) → after_brace (92 ∷ (b ∷ text)) ≡ after_brace text }
    ensures in_brace { (b : ℕ) (text : List ℕ) → is_one_of (92 ∷ 123 ∷ 125 ∷ []) b ≡ false
        → after_brace (b ∷ text) ≡ after_brace text }
    ensures quote_ends { (text : List ℕ) → after_quote (34 ∷ text) ≡ Some text }
    ensures brackets { (text : List ℕ)
        → after_quote (91 ∷ text) ≡ option_and_then after_quote (after_bracket text) }
    ensures quote_backslash { (b : ℕ) (text : List ℕ) → after_quote (92 ∷ (b ∷ text)) ≡ after_quote text }
    ensures in_quote { (b : ℕ) (text : List ℕ) → is_one_of (34 ∷ 91 ∷ 92 ∷ []) b ≡ false
        → after_quote (b ∷ text) ≡ after_quote text }
    ensures no_end { (after_brace [] ≡ None) × (after_quote [] ≡ None) }
{}

/// A brace, and a bracket with neither quotes nor braces in it, ends at the matching one, however deep pairs stand
/// between them.
pub fn pairs_end_at_the_matching_one()
    ensures braces { (inside : Nest) (rest : List ℕ) → HasNone (92 ∷ 123 ∷ 125 ∷ []) inside
        → after_brace (spelled 123 125 inside ++ (125 ∷ rest)) ≡ Some rest }
    ensures brackets { (inside : Nest) (rest : List ℕ) → HasNone (34 ∷ 91 ∷ 92 ∷ 93 ∷ 123 ∷ []) inside
        → after_bracket (spelled 91 93 inside ++ (93 ∷ rest)) ≡ Some rest }
{}

/// Words are parted by blanks, tabs and carriage returns, and by a backslash before a newline, or before a carriage
/// return and a newline; by nothing else.
pub fn blanks_and_continued_lines_part_words()
    ensures spaces { (b : ℕ) (text : List ℕ) → is_space b ≡ true
        → after_gap false (b ∷ text) ≡ after_gap false text }
    ensures newline { (text : List ℕ) → after_gap false (92 ∷ (10 ∷ text)) ≡ after_gap false text }
    ensures carriage { (text : List ℕ)
        → after_gap false (92 ∷ (13 ∷ (10 ∷ text))) ≡ after_gap false text }
    ensures word { (b : ℕ) (text : List ℕ) → is_space b ≡ false → (b ≡ 92 → continues text ≡ false)
        → after_gap false (b ∷ text) ≡ b ∷ text }
{}

/// A comment begins with `#` where a command would start, and goes on up to the next newline that is no part of a
/// backslash-newline: each byte is a part of it but that newline, and so is what a backslash takes out, a newline or a
/// carriage return and a newline too. After the newline a command may start.
pub fn comments_end_at_the_first_free_newline()
    ensures begins { (text : List ℕ) → from_command parting (35 ∷ text) ≡ from_command comment text }
    ensures ends { (inside rest : List ℕ) → list_any (is_one_of (10 ∷ 92 ∷ [])) inside ≡ false
        → from_command comment (inside ++ (10 ∷ rest)) ≡ from_command parting rest }
    ensures backslash { (inside : List ℕ) (b : ℕ) (rest : List ℕ)
        → list_any (is_one_of (10 ∷ 92 ∷ [])) inside ≡ false → (b ≡ 13 → begins_with 10 rest ≡ false)
        → from_command comment (inside ++ (92 ∷ (b ∷ rest))) ≡ from_command comment rest }
    ensures carriage { (inside rest : List ℕ) → list_any (is_one_of (10 ∷ 92 ∷ [])) inside ≡ false
        → from_command comment (inside ++ (92 ∷ (13 ∷ (10 ∷ rest)))) ≡ from_command comment rest }
    ensures no_end { (inside : List ℕ) → list_any (is_one_of (10 ∷ 92 ∷ [])) inside ≡ false
        → from_command comment inside ≡ [] }
{}
