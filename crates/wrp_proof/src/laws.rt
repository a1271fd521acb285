//! Laws of the lines of a proof. The functions here do nothing: their clauses are the laws.
ghost use Rattle.std.specs.Prelude.{◌≡◌, ℕ, List, true, Some, ◌↔◌};
ghost use Rattle.wrp_rules.specs.declared.record.Record.{Record};
ghost use Rattle.wrp_rules.specs.declared.record.End.{End};
ghost use Rattle.wrp_rules.specs.Lines.{line_of, end_line};
ghost use Rattle.wrp_rules.specs.Contents.{has_number_rules, has_end_numbers};
ghost use Rattle.wrp_grammar.specs.Spelling.{spelled, spelled_end};
ghost use Rattle.wrp_proof.specs.declared.views.ViewFault.{ViewFault};
ghost use Rattle.wrp_proof.specs.declared.fault.LineFault.{LineFault};
ghost use Rattle.wrp_proof.specs.Views.{IsLineOf, IsFaultOf};
ghost use Rattle.wrp_proof.specs.Ends.{IsEndLineOf, IsEndFault};

/// A line spells exactly the record of which it is the line, and it has one fault at most. A record
/// that keeps the number rules is read back from its line: `read_record` of what `write_record`
/// gives is it.
pub fn line_laws()
    ensures line { (item : Record) (line : List ℕ) → IsLineOf item line ↔ spelled line ≡ Some item }
    ensures back { (item : Record) → has_number_rules item ≡ true
        → spelled (line_of item) ≡ Some item }
    ensures fault { (line : List ℕ) (one other : ViewFault) → IsFaultOf line one
        → IsFaultOf line other → one ≡ other }
{}

/// The same of ends.
pub fn end_laws()
    ensures line { (end : End) (line : List ℕ)
        → IsEndLineOf end line ↔ spelled_end line ≡ Some end }
    ensures back { (end : End) → has_end_numbers end ≡ true
        → spelled_end (end_line end) ≡ Some end }
    ensures fault { (line : List ℕ) (one other : LineFault) → IsEndFault line one
        → IsEndFault line other → one ≡ other }
{}
