//! Laws of the definitions that the contracts cite.

ghost use Rattle.std.specs.Prelude.{◌≡◌, ◌↔◌, IsTrue, ◌+◌, ◌++◌, [], ◌∷◌, ℕ, List, Some};
ghost use Rattle.std.specs.List.{AllByRecursion, concat, flat_map};
ghost use Rattle.irc_line.specs.Line.{Parts};
ghost use Rattle.irc_line.specs.Grammar.{Spells};
ghost use Rattle.irc_line.specs.Reading.{line_of};
ghost use Rattle.irc_line.specs.Writing.{is_writable, text_of, written};
ghost use Rattle.irc_line.specs.Lines.{HasNoLf, with_lf, segments_of, ended_of, lines_of, rest_of};
ghost use Rattle.irc_line.specs.Lines.{skipped_of, start, fed, fed_all, lines_all};

/// Any bytes are segments without LF, each with an LF after it, and then a rest without LF; and
/// segments and a rest that make bytes in this way are the ones that are read off them.
pub fn the_segments()
    ensures whole { (bytes : List ℕ) → flat_map with_lf (ended_of bytes) ++ rest_of bytes ≡ bytes }
    ensures without_lf { (bytes : List ℕ) → AllByRecursion HasNoLf (segments_of bytes) }
    ensures no_others { (ended : List (List ℕ)) (rest : List ℕ) → AllByRecursion HasNoLf ended →
        HasNoLf rest →
        (ended_of (flat_map with_lf ended ++ rest) ≡ ended) ×
        (rest_of (flat_map with_lf ended ++ rest) ≡ rest) }
{}

/// It makes no difference how a stream is cut into pieces: they give the lines of all its bytes,
/// and leave what one piece would leave.
pub fn any_cutting()
    ensures lines { (pieces : List (List ℕ)) → lines_all start pieces ≡ lines_of (concat pieces) }
    ensures left { (pieces : List (List ℕ)) → fed_all start pieces ≡ fed start (concat pieces) }
{}

/// What bytes hold, from two parts of them.
pub fn two_pieces()
    ensures lines { (a b : List ℕ) → lines_of (a ++ b) ≡ lines_of a ++ lines_of (rest_of a ++ b) }
    ensures left { (a b : List ℕ) → rest_of (a ++ b) ≡ rest_of (rest_of a ++ b) }
    ensures skipped { (a b : List ℕ) →
        skipped_of (a ++ b) ≡ skipped_of a + skipped_of (rest_of a ++ b) }
{}

/// What a text is read as is what it spells by the grammar, and it spells no other line.
pub fn the_grammar()
    ensures sound { (line : Parts) (text : List ℕ) → line_of text ≡ Some line → Spells line text }
    ensures complete { (line : Parts) (text : List ℕ) → Spells line text →
        line_of text ≡ Some line }
    ensures one { (line other : Parts) (text : List ℕ) → Spells line text → Spells other text →
        line ≡ other }
{}

/// Parts can be written and read back exactly if the test says so; and if it says no, there
/// is no text at all that is read as them. Lines written one after the other are a stream of them.
pub fn what_is_written()
    ensures again { (line : Parts) →
        IsTrue (is_writable line) ↔ (line_of (text_of line) ≡ Some line) }
    ensures any_text { (line : Parts) (text : List ℕ) → line_of text ≡ Some line →
        IsTrue (is_writable line) }
    ensures stream { (lines : List Parts) → AllByRecursion (λ l. IsTrue (is_writable l)) lines →
        lines_of (flat_map written lines) ≡ lines }
{}
