//! What follows from the definitions in `specs` alone. An input has at most one output and at most one first bad
//! line, so "the output" in the contract of `serve` means one text. After a change of the definition of the output,
//! these laws must still be proved. Nothing here runs.

ghost use Rattle.std.specs.Prelude.{◌≡◌, ℕ, List};
ghost use Rattle.bitrun_text.specs.Form.{BadLine};
ghost use Rattle.bitrun_service.specs.Output.{IsOutput};

/// An input has at most one output.
pub fn one_output()
    ensures { (input text other : List ℕ) → IsOutput input text → IsOutput input other
        → text ≡ other }
{}

/// An input has at most one first bad line.
pub fn one_bad_line()
    ensures { (input : List ℕ) (line other : ℕ) → BadLine input line → BadLine input other
        → line ≡ other }
{}

/// An input with an output has no bad line.
pub fn every_line_is_fine()
    ensures { (input text : List ℕ) → IsOutput input text
        → (line : ℕ) → BadLine input line → ⊥ }
{}
