//! Laws of the definitions that the contracts cite.

ghost use Rattle.std.specs.Prelude.{◌≡◌, ◌||◌, ◌++◌, ◌∷◌, [], List, false, true};
ghost use Rattle.irc_line.specs.Line.{Parts};
ghost use Rattle.sessions.specs.Answers.{answer_to, has_ended, is_end, sends};

/// A login has ended after one more line exactly if it had ended before or this line's answer is
/// its end; and what follows its end has no answer.
pub fn a_login_ends_once()
    ensures begins { has_ended [] ≡ false }
    ensures step { (before : List Parts) (line : Parts) →
        has_ended (before ++ line ∷ []) ≡ (has_ended before || is_end (answer_to before line)) }
    ensures nothing_more { (before : List Parts) (line : Parts) →
        is_end (answer_to before line) ≡ true → (after : List Parts) (next : Parts) →
        answer_to (before ++ line ∷ after) next ≡ sends [] }
{}
