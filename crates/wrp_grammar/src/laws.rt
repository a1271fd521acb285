//! Laws of the places of faults. The functions here do nothing: their clauses are the laws.
ghost use Rattle.std.specs.Prelude.{◌≡◌, ℕ, true, false, is_some};
ghost use Rattle.wrp_rules.specs.Layouts.{record_kinds, end_kinds};
ghost use Rattle.wrp_grammar.specs.Fronts.{IsLongestFront, IsOnePlace};
ghost use Rattle.wrp_grammar.specs.Shapes.{is_of_kinds};
ghost use Rattle.wrp_grammar.specs.Numbers.{is_right_line, IsFirstBadNumber};
ghost use Rattle.wrp_grammar.specs.Spelling.{content_in};
ghost use Rattle.wrp_grammar.specs.Words.{words_are_apart};

use wrp_rules::Kind;

/// A line of kinds whose words are apart leaves their shapes in one place, and its first number
/// that breaks a rule has one place. Where one stands, the line isn't right; it spells something
/// just where it is right.
pub fn place_laws(kinds: &[Kind], line: &[u8])
    requires { words_are_apart kinds.now ≡ true }
    ensures form { IsOnePlace (IsLongestFront (is_of_kinds kinds.now) line.now) }
    ensures number { IsOnePlace (IsFirstBadNumber kinds.now line.now) }
    ensures wrong { (at : ℕ) → IsFirstBadNumber kinds.now line.now at
        → is_right_line kinds.now line.now ≡ false }
    ensures spelled { is_some (content_in kinds.now line.now) ≡ is_right_line kinds.now line.now }
{}

/// The words of records are apart, and so are those of ends.
pub fn word_laws()
    ensures records { words_are_apart record_kinds ≡ true }
    ensures ends { words_are_apart end_kinds ≡ true }
{}
