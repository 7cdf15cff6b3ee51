//! Lines are one script at most, and a printed script is read again as itself.
ghost use Rattle.std.specs.Prelude.{◌≡◌, ◌<◌, ◌++◌, ℕ, List, Ok, Result, take};
ghost use Rattle.value_form.specs.declared.scripts.Script.{Script};
ghost use Rattle.value_form.specs.Mirror.{Block, block};
ghost use Rattle.value_form.specs.Ranges.{IsBlock};
ghost use Rattle.script_form.specs.RowTexts.{script_text};
ghost use Rattle.script_form.specs.Lines.{lines};
ghost use Rattle.script_form.specs.Printable.{IsPrintable};
ghost use Rattle.script_form.specs.Scripts.{IsScriptLines, BeginScript, FaultAt, FaultBehind};
ghost use Rattle.script_form.specs.Parses.{GivesAgain, Parses};
ghost use Rattle.script_form.specs.declared.parse_faults.ParseFault.{ParseFault};
ghost use Rattle.script_form.specs.declared.parse_faults.ParseKind.{ParseKind};

/// Lines are one script at most. Each script that lines are is one of the language, and the lines of
/// the canonical text of a script of the language are that script, for each greatest repository. The
/// numbers of a script of the language are in the range that a run of it wants.
pub fn law_of_lines()
    ensures one { (greatest : ℕ) (ls : List (List ℕ)) (a b : Block) → IsScriptLines greatest ls a →
        IsScriptLines greatest ls b → a ≡ b }
    ensures limits { (greatest : ℕ) (ls : List (List ℕ)) (script : Block) → IsScriptLines greatest ls script →
        IsPrintable greatest script }
    ensures ranges { (greatest : ℕ) (script : Block) → IsPrintable greatest script → IsBlock script }
    ensures printed { (greatest : ℕ) (script : Block) → IsPrintable greatest script →
        IsScriptLines greatest (lines (script_text script)) script }
{}

/// What is parsed, printed and parsed again is the script that it was: for the text that `print` gives
/// of a script that `parse` gave, `parse` gives just that script, or memory runs out.
pub fn law_of_reading_again()
    ensures { (greatest : ℕ) (ls : List (List ℕ)) (script : Script) (result : Result Script ParseFault) →
        Parses greatest ls (Ok script) →
        Parses greatest (lines (script_text (block script.lines))) result → GivesAgain script result }
{}

/// The first lines of a script begin a script, and so a fault says that the lines are none: those up
/// to its line are the first that begin no script. So `parse` answers Ok exactly where there is a
/// script.
pub fn law_of_faults()
    ensures begin { (greatest : ℕ) (ls more : List (List ℕ)) (script : Block) →
        IsScriptLines greatest (ls ++ more) script → BeginScript greatest ls }
    ensures there { (greatest : ℕ) (ls : List (List ℕ)) (line : ℕ) (what : ParseKind) → FaultAt greatest ls line what →
        BeginScript greatest (take line ls) → ⊥ }
    ensures first { (greatest : ℕ) (ls : List (List ℕ)) (line : ℕ) (what : ParseKind) → FaultAt greatest ls line what →
        (m : ℕ) → m < line →
        BeginScript greatest (take m ls) }
    ensures none { (greatest : ℕ) (ls : List (List ℕ)) (line : ℕ) (what : ParseKind) (script : Block) →
        FaultAt greatest ls line what →
        IsScriptLines greatest ls script → ⊥ }
    ensures open_block { (greatest : ℕ) (ls : List (List ℕ)) (line : ℕ) (what : ParseKind) (script : Block) →
        FaultBehind greatest ls line what →
        IsScriptLines greatest ls script → ⊥ }
{}
