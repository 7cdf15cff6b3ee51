//! Bytes are one list of polls at most.
ghost use Rattle.std.specs.Prelude.{◌≡◌, ℕ, List};
ghost use Rattle.vote_form.specs.declared.poll_lines.PollLine.{PollLine};
ghost use Rattle.vote_form.specs.Faults.{IsInputFault};
ghost use Rattle.vote_form.specs.Inputs.{IsInput};

/// Bytes are one list of polls at most, and bytes with a fault are none. So `parse` answers Ok
/// exactly where there is one.
pub fn law_of_inputs()
    ensures one { (bytes : List ℕ) (a b : List PollLine) → IsInput bytes a → IsInput bytes b → a ≡ b }
    ensures none { (bytes : List ℕ) (line : ℕ) (polls : List PollLine) → IsInputFault bytes line →
        IsInput bytes polls → ⊥ }
{}
