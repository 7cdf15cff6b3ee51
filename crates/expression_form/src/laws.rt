//! Tokens spell at most one expression.
ghost use Rattle.std.specs.Prelude.{◌≡◌, List};
ghost use Rattle.token_form.specs.Tokens.{AreTokens, IsTokens};
ghost use Rattle.token_form.specs.declared.tokens.Token.{Token};
ghost use Rattle.value_form.specs.Mirror.{Term};
ghost use Rattle.expression_form.specs.Canonical.{canonical};
ghost use Rattle.expression_form.specs.Depth.{IsShallow};
ghost use Rattle.expression_form.specs.Grammar.{Spells};
ghost use Rattle.expression_form.specs.Texts.{InLimits, text};

/// Tokens spell at most one expression: beside one that is no deeper than 16 they spell no other,
/// however deep. The canonical tokens spell their expression, and what tokens of scripts spell has
/// numbers, texts and names in their limits. The bytes of the canonical text of such an expression are
/// its canonical tokens.
pub fn law_of_expressions()
    ensures one { (x y : Term) (tokens : List Token) → Spells x tokens → Spells y tokens → IsShallow x → x ≡ y }
    ensures canonical { (x : Term) → Spells x (canonical x) }
    ensures text { (x : Term) → InLimits x → IsTokens (text x) (canonical x) }
    ensures limits { (x : Term) (tokens : List Token) → Spells x tokens → AreTokens tokens → InLimits x }
{}
