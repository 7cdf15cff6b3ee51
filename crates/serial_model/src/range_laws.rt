//! Scripts of the language stay in range.
ghost use Rattle.std.specs.Prelude.{ℕ};
ghost use Rattle.field_form.specs.Forms.{IsBytes};
ghost use Rattle.value_form.specs.Mirror.{Block};
ghost use Rattle.script_form.specs.RowTexts.{script_text};
ghost use Rattle.script_form.specs.Printable.{IsPrintable};
ghost use Rattle.serial_model.specs.Ranges.{BlockInRange};

/// A script of the language is in range, as its lines, numbers, texts and objects are, and its text is
/// one of bytes.
pub fn law_of_script_ranges()
    ensures range { (n : ℕ) (script : Block) → IsPrintable n script → BlockInRange script }
    ensures bytes { (n : ℕ) (script : Block) → IsPrintable n script → IsBytes (script_text script) }
{}
