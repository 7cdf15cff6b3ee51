//! Tokens spell at most one row.
ghost use Rattle.std.specs.Prelude.{◌≡◌, ◌≤◌, ℕ, List, true};
ghost use Rattle.token_form.specs.declared.tokens.Token.{Token};
ghost use Rattle.token_form.specs.Tokens.{AreTokens, IsTokens, in_range, objects_fit};
ghost use Rattle.value_form.specs.Mirror.{Block};
ghost use Rattle.script_form.specs.RowTokens.{SpellsRow};
ghost use Rattle.script_form.specs.Row.{Row};
ghost use Rattle.script_form.specs.Rows.{row_depth, rows};
ghost use Rattle.script_form.specs.RowTexts.{RowInLimits, RowUpTo, row_text, row_tokens};

/// Tokens spell at most one row: beside one whose expressions are no deeper than 16 they spell no
/// other. The canonical text of a row in its limits has its canonical tokens, which spell it, and are
/// in range for each greatest repository that its object keeps to. A row that tokens of scripts spell is
/// in its limits, and its object keeps to the greatest repository for which they are in range.
pub fn law_of_rows()
    ensures one { (a b : Row) (tokens : List Token) → SpellsRow a tokens → SpellsRow b tokens →
        row_depth a ≤ 16 → a ≡ b }
    ensures spelled { (a : Row) → RowInLimits a → SpellsRow a (row_tokens a) }
    ensures text { (a : Row) → RowInLimits a → IsTokens (row_text a) (row_tokens a) }
    ensures in_range { (greatest : ℕ) (a : Row) → RowInLimits a → RowUpTo greatest a →
        in_range greatest (row_tokens a) ≡ true }
    ensures limits { (a : Row) (tokens : List Token) → SpellsRow a tokens → AreTokens tokens → RowInLimits a }
    ensures objects { (greatest : ℕ) (a : Row) (tokens : List Token) → SpellsRow a tokens →
        objects_fit greatest tokens ≡ true → RowUpTo greatest a }
{}

/// Scripts with the same rows are the same.
pub fn law_of_scripts()
    ensures { (a b : Block) → rows a ≡ rows b → a ≡ b }
{}
