//! Laws of the definitions that the contracts cite.

ghost use Rattle.std.specs.Prelude.{◌≡◌, ◌⊎◌, ◌++◌, ◌∷◌, [], List, false, true};
ghost use Rattle.irc_line.specs.Line.{Parts};
ghost use Rattle.sasl.specs.Login.{answer_to, is_acknowledged, is_answered, sends};
ghost use Rattle.sasl.specs.Response.{Account, authenticate, cap_end, mechanism_of};

/// The response, which has the password, is sent only after the network has acknowledged `sasl`,
/// once, and nowhere else: a login sends besides only `AUTHENTICATE` with the mechanism, and
/// `CAP END`.
pub fn the_password_is_sent_once()
    ensures after_the_acknowledgement { (before : List Parts) (line : Parts) →
        is_answered before line ≡ true → is_acknowledged before ≡ true }
    ensures once { (before : List Parts) (line : Parts) → is_answered before line ≡ true →
        (after : List Parts) (next : Parts) → is_answered (before ++ line ∷ after) next ≡ false }
    ensures nowhere_else { (account : Account) (before : List Parts) (line : Parts)
        (lines : List Parts) → answer_to account before line ≡ sends lines →
        (lines ≡ authenticate (mechanism_of account) ∷ []) ⊎ ((lines ≡ cap_end ∷ [])
        ⊎ (is_answered before line ≡ true)) }
{}
