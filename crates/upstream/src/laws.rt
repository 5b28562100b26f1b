//! Laws of the definitions that the contracts cite.

ghost use Rattle.std.specs.Prelude.{◌≡◌, ◌||◌, ◌++◌, ◌∷◌, [], ℕ, List, None, Some, codes, false, true};
ghost use Rattle.irc_line.specs.Line.{Parts, has_command};
ghost use Rattle.bnc_config.specs.Settings.{NetworkSettings, SaslSettings};
ghost use Rattle.sasl.specs.Login.{is_answered, is_logged_in};
ghost use Rattle.upstream.specs.Registration.{answer_to, first_lines, has_ended, heard, is_end, sends};
ghost use Rattle.upstream.specs.Registration.{welcomes};
ghost use Rattle.upstream.specs.Said.{said};
ghost use Rattle.upstream.specs.declared.said.Said.TheVariants as says;

/// A registration has ended after one more line exactly if it had ended before or this line's
/// answer is its end; and what follows its end has no answer.
pub fn a_registration_ends_once()
    ensures begins { (network : NetworkSettings) → has_ended network [] ≡ false }
    ensures step { (network : NetworkSettings) (before : List Parts) (line : Parts) →
        has_ended network (before ++ line ∷ [])
        ≡ (has_ended network before || is_end (answer_to network before line)) }
    ensures nothing_more { (network : NetworkSettings) (before : List Parts) (line : Parts) →
        is_end (answer_to network before line) ≡ true → (after : List Parts) (next : Parts) →
        answer_to network (before ++ line ∷ after) next ≡ sends [] }
{}

/// If the settings have an account, a registration completes only after the network has said that we
/// are logged in.
pub fn no_welcome_without_the_login()
    ensures { (network : NetworkSettings) (account : SaslSettings) (before : List Parts)
        (line : Parts) (lines : List Parts) → network.sasl ≡ Some account →
        answer_to network before line ≡ welcomes lines → is_logged_in before ≡ true }
{}

/// The first lines, and the answers to all lines except the one for which `sasl` sends its response,
/// are the same whatever the account's password is.
pub fn the_password_is_sent_for_one_line()
    ensures not_first { (network : NetworkSettings) (one other : SaslSettings) →
        first_lines (record network { sasl = Some one })
        ≡ first_lines (record network { sasl = Some other }) }
    ensures else_alike { (network : NetworkSettings) (user one other : List ℕ)
        (before : List Parts) (line : Parts) → is_answered before line ≡ false →
        answer_to (record network { sasl = Some (Some (user, one)) }) before line
        ≡ answer_to (record network { sasl = Some (Some (user, other)) }) before line }
{}

/// Without further nicks a line says to a registration what it says. With them, and with an empty list
/// of them, 437 ERR_UNAVAILRESOURCE says what 433 ERR_NICKNAMEINUSE does.
pub fn only_with_nicks_437_is_heard()
    ensures without { (network : NetworkSettings) (line : Parts) →
        network.options.nicks ≡ None → heard network line ≡ said line }
    ensures with_nicks { (network : NetworkSettings) (nicks : List (List ℕ)) (line : Parts) →
        network.options.nicks ≡ Some nicks → has_command line (codes "437") ≡ true →
        heard network line ≡ says.NickInUse }
{}
