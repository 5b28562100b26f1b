//! Laws of settings, for the crates above.

ghost use Rattle.std.specs.Prelude.{◌≡◌, ◌↔◌, ◌<◌, ℕ, List, [], Option, Some, false, fold, map};
ghost use Rattle.std.specs.List.{AllByRecursion, flat_map, join_with_byte};
ghost use Rattle.irc_support.specs.Text.{Text};
ghost use Rattle.irc_support.specs.Tokens.{Token, after_param, set_tokens, token_params};
ghost use Rattle.irc_support.specs.Ranking.{Ranking, Spells, spelled_by, rank_of_letter};
ghost use Rattle.irc_support.specs.Ranking.{rank_of_symbol, symbol_of};
ghost use Rattle.irc_support.specs.ModeChanges.{ChangeParts, changes};
ghost use Rattle.irc_support.specs.NamesReply.{Word, words};
ghost use Rattle.irc_support.specs.Written.{AreTokens, IsWrittenMode, IsWrittenWord, token_text};
ghost use Rattle.irc_support.specs.Written.{is_sign, mode_params, set_change, word_text};
ghost use Rattle.irc_support.specs.Written.{highest_member, names_with_highest};

/// Settings depend on the tokens alone: 005 lines with the same tokens in one order give the same
/// settings, however the tokens are spread over the lines and whatever nick and closing text are
/// round them.
pub fn settings_depend_on_the_tokens_alone()
    ensures { (settings : List Token) (lines others : List (List Text)) →
        flat_map token_params lines ≡ flat_map token_params others →
        fold set_tokens settings lines ≡ fold set_tokens settings others }
{}

/// A value of `PREFIX` is read as the ranks that it spells by its form, `(letters)symbols`, and it
/// spells one list of ranks at most.
pub fn what_prefix_spells()
    ensures read { (value : Text) (ranks : Ranking) →
        (spelled_by value ≡ Some ranks) ↔ Spells value ranks }
    ensures one { (value : Text) (ranks others : Ranking) → Spells value ranks →
        Spells value others → ranks ≡ others }
{}

/// The letter and the symbol of a rank belong together, and ranks are below 16.
#[tactic(auto, using(crate::proofs::SpelledWords::symbol_read, crate::proofs::SpelledWords::symbol_written))]
pub fn letters_and_symbols_go_together()
    ensures small { (settings : List Token) (letter rank : ℕ) →
        rank_of_letter settings letter ≡ Some rank → rank < 16 }
    ensures letter { (settings : List Token) (letter rank : ℕ) →
        rank_of_letter settings letter ≡ Some rank →
        ((symbol : ℕ) × (symbol_of settings rank ≡ Some symbol)) }
    ensures symbol { (settings : List Token) (symbol rank : ℕ) →
        (symbol_of settings rank ≡ Some symbol) ↔ (rank_of_symbol settings symbol ≡ Some rank) }
{}

/// The tokens in force have names that are not empty, begin with no minus, hold no equals sign and
/// occur once: 005 lines keep that form. Tokens of this form that are written out, each a
/// parameter, are read back as they are.
pub fn tokens_are_read_back()
    ensures in_force { (lines : List (List Text)) → AreTokens (fold set_tokens [] lines) }
    ensures kept { (settings : List Token) (params : List Text) → AreTokens settings →
        AreTokens (set_tokens settings params) }
    ensures read { (settings : List Token) → AreTokens settings →
        fold after_param [] (map token_text settings) ≡ settings }
{}

/// Modes that are written out, as 324 has them, are read back as the changes that set them. No
/// change is of a sign.
#[tactic(auto, using(crate::proofs::ModesRead::changes_read, crate::proofs::ModesRead::changes_unsigned))]
pub fn modes_are_read_back()
    ensures read { (settings : List Token) (modes : List (ℕ × Option Text)) →
        AllByRecursion (IsWrittenMode settings) modes →
        changes settings (mode_params modes) ≡ map set_change modes }
    ensures letters { (settings : List Token) (params : List Text) →
        AllByRecursion (λ (change : ChangeParts). is_sign change.letter ≡ false)
        (changes settings params) }
{}

/// Members that are written out, as 353 has them, are read back as they are. A name list whose
/// words have their highest symbols alone lists the same nicks, each with its highest rank alone.
#[tactic(auto, using(crate::proofs::HighestWords::words_highest, crate::proofs::NamesRead::members_read))]
pub fn members_are_read_back()
    ensures read { (settings : List Token) (members : List Word) →
        AllByRecursion (IsWrittenWord settings) members →
        words settings (join_with_byte 32 (map (word_text settings) members)) ≡ members }
    ensures highest { (settings : List Token) (text : Text) →
        words settings (names_with_highest settings text)
        ≡ map highest_member (words settings text) }
{}
