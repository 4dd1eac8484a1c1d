//! Laws of the definitions. Each is the contract of a function that does nothing; call the function
//! to use its law in a proof.

ghost use Rattle.std.specs.Prelude.{◌≡◌, ◌↔◌, [], ◌++◌, List, Some, true, ℕ};
ghost use Rattle.std.specs.List.{list_all};
ghost use Rattle.std.specs.Str.{IsUtf8};
ghost use Rattle.pkops.specs.Answer.{Answer, Answers};
ghost use Rattle.pkops.specs.Contents.{Keeps};
ghost use Rattle.pkops.specs.Escapes.{is_plain_ascii};
ghost use Rattle.pkops.specs.RuleTests.{passes};
ghost use Rattle.pkops.specs.Growth.{BegunLaws, CountLaws, FieldLaws};
ghost use Rattle.pkops.specs.OldBytes.{NamesBytes, old_bytes};
ghost use Rattle.pkops.specs.Scans.{Spells};
ghost use Rattle.pkops.specs.Spelling.{Argument, Instruction, Line, instruction};
ghost use Rattle.pkops.specs.Table.{code_of};
ghost use Rattle.pkops.specs.Text.{NamesText, text_bytes};
ghost use Rattle.pkops.specs.declared.contents.Rule.{Rule};
ghost use Rattle.pkops.specs.declared.op.Op.{Op};
ghost use Rattle.pkops.specs.declared.op.Op.TheVariants as op;

/// No spelling is a proper prefix of another, so bytes have one reading however they are split.
pub fn one_spelling()
    ensures { (i j : Instruction) (front more : List ℕ) →
        Spells i front → Spells j (front ++ more) → (more ≡ []) × (i ≡ j) }
{}

/// A scan has exactly one right answer.
pub fn one_answer()
    ensures { (limit : ℕ) (bytes : List ℕ) (r s : Answer) →
        Answers limit bytes r → Answers limit bytes s → r ≡ s }
{}

/// No two opcodes share a code.
pub fn one_code()
    ensures { (a b : Op) → code_of a ≡ code_of b → a ≡ b }
{}

/// What a prefix becomes as more bytes arrive: which bytes begin an instruction, and what a code is
/// with its field, or with its count and payload.
pub fn growth()
    ensures begun { BegunLaws }
    ensures field { FieldLaws }
    ensures count { CountLaws }
{}

/// Each content rule is equivalent to its test, which computes.
pub fn rules_are_computed()
    ensures { (rule : Rule) (arg : Argument) → Keeps rule arg ↔ (passes rule arg ≡ true) }
{}

/// The text that `text_of` returns is the one that the instruction names.
pub fn text_is_named()
    ensures { (i : Instruction) (text : List ℕ) → NamesText i text ↔ (text_bytes i ≡ Some text) }
{}

/// A line that `spells_itself` is UTF-8, and the text that UNICODE spells with it.
pub fn plain_line_is_text()
    ensures utf8 { (line : List ℕ) → list_all is_plain_ascii line ≡ true → IsUtf8 line }
    ensures text { (line : List ℕ) → list_all is_plain_ascii line ≡ true →
        NamesText (instruction op.Unicode (Line line)) line }
{}

/// The bytes that `old_bytes_of` returns are those of the Python 2 string that the instruction
/// names.
pub fn old_bytes_are_named()
    ensures { (i : Instruction) (bytes : List ℕ) →
        NamesBytes i bytes ↔ (old_bytes i ≡ Some bytes) }
{}
