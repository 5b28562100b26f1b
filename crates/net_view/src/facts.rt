//! Facts that hold of every network view, for the crates above.

ghost use Rattle.std.specs.Prelude.{◌≡◌, ◌≢◌, ◌↔◌, IsTrue, ℕ, List, [], ◌∷◌, ◌++◌, Bool, true};
ghost use Rattle.std.specs.Prelude.{false, Option, Some, reverse};
ghost use Rattle.std.specs.FinMap.{get};
ghost use Rattle.irc_names.specs.Nick.{is_nameable};
ghost use Rattle.irc_support.specs.Text.{Text};
ghost use Rattle.irc_support.specs.Tokens.{Token};
ghost use Rattle.irc_support.specs.Settings.{key_by};
ghost use Rattle.net_view.specs.Names.{Name};
ghost use Rattle.net_view.specs.Told.{Told, Listing, Welcomed, Quits, Renamed, Present};
ghost use Rattle.net_view.specs.Arrival.{Arrival};
ghost use Rattle.net_view.specs.StateLines.{told, listings_of};
ghost use Rattle.net_view.specs.Transcript.{Standing, standing_after, is_us, Reading, readings_of};
ghost use Rattle.net_view.specs.LookBack.{last, last_of, counts, name_traced};
ghost use Rattle.net_view.specs.Presence.{says_on};
ghost use Rattle.net_view.specs.Facts.{Says, known};
ghost use Rattle.net_view.specs.Found.{IsSaidLast, IsSaidLastOf, IsKnown};
ghost use Rattle.net_view.specs.View.{View, Channel, welcomed_view, view_of};
ghost use Rattle.net_view.specs.Step.{is_seen};
ghost use Rattle.net_view.specs.Readers.{account_shown};
ghost use Rattle.net_view.specs.Seen.{all_caps, seen_since};
ghost use Rattle.net_view.specs.Sound.{IsSound, IsWellFormed};
ghost use Rattle.net_view.specs.Written.{AreWritten, IsCleanView};

/// What is found by looking back, in a reader's words: the last item that speaks of a matter or of
/// a person says it, and all since are silent; of what is known of a person, who was in sight ever
/// since.
pub fn the_last_word<A>()
    ensures matter { (says : (Text → Bool) → Told → Option A) (items : List Reading) (answer : A) →
        (last says items ≡ Some answer) ↔ IsSaidLast says items answer }
    ensures person { (says : (Text → Bool) → Told → Text
        → Option A) (items : List Reading) (n : Text) (answer : A) →
        (last_of says items n ≡ Some answer) ↔ IsSaidLastOf says items n answer }
    ensures fact { (says : Says) (items : List Reading) (n answer : Text) →
        (known says items n ≡ Some answer) ↔ IsKnown says items n answer }
{}

/// What every network view is like; that what is written of it is read back as it is; and that all
/// its texts can be in lines, if those of the transcript can be written. A channel that we
/// are on has the name of our own JOIN, and nothing since took us off it.
pub fn views_are_sound()
    ensures sound { (items : List Arrival) → IsSound (view_of items) }
    ensures formed { (items : List Arrival) → IsWellFormed (view_of items) }
    ensures clean { (items : List Arrival) → AreWritten items → IsCleanView (view_of items) }
    ensures joined { (items : List Arrival) (c : Text) (channel : Channel) →
        get (view_of items).channels c ≡ Some channel →
        IsSaidLast (says_on c) (readings_of (reverse items)) (Some channel.name) }
{}

/// Once ready, we stay so, and the settings stay, until the next welcome.
pub fn settings_stay()
    ensures ready { (items : List Arrival) (x : Arrival) → IsTrue (view_of items).ready →
        ((nick : Text) → told (view_of items).settings x ≢ Welcomed nick) →
        IsTrue (view_of (items ++ x ∷ [])).ready }
    ensures same { (items : List Arrival) (x : Arrival) → IsTrue (view_of items).ready →
        ((nick : Text) → told (view_of items).settings x ≢ Welcomed nick) →
        (view_of (items ++ x ∷ [])).settings ≡ (view_of items).settings }
{}

/// What a name is worth. An account is known only under a nameable nick, of a member of a
/// channel that we are on. A NICK that counts and its way back are inverse, except for who held the
/// new name. After a QUIT nobody of that name is there, and after a welcome nobody at all (after a
/// loss neither: `a_loss_empties_the_view`).
pub fn a_name_is_a_person()
    ensures known { (items : List Arrival) (nick account : Text) →
        account_shown (view_of items) nick ≡ Some account → IsTrue (is_nameable nick) ×
        IsTrue (is_seen (view_of items).channels (key_by (view_of items).settings nick)) }
    ensures there_and_back { (s : Standing) (a : Text) (b c : Name) (n : Text) →
        key_by s.settings b.spelled ≡ b.key → c.key ≡ a → IsTrue (counts (is_us s) a b.key) →
        n ≢ b.key →
        name_traced (
        record { before = standing_after (Renamed a b) s; told = Renamed b.key c }
        ∷ record { before = s; told = Renamed a b }
        ∷ []) n ≡ Some n }
    ensures quit { (items : List Arrival) (x : Arrival) (n : Text)
        → told (view_of items).settings x ≡ Quits n →
        is_seen (view_of (items ++ x ∷ [])).channels n ≡ false }
    ensures welcome { (items : List Arrival) (x : Arrival) (nick : Text) →
        told (view_of items).settings x ≡ Welcomed nick →
        view_of (items ++ x ∷ []) ≡ welcomed_view nick }
{}

/// A client that holds all four capabilities sees the whole view, whenever it came.
#[tactic(auto, using(crate::proofs::SeenStep::seen_whole))]
pub fn all_capabilities_see_all()
    ensures { (items : List Arrival) (a : ℕ) → seen_since items a all_caps ≡ view_of items }
{}

/// Name lists add up: a list says what two say that have its words, one list after the other. So
/// it can be cut into lines between any words.
#[tactic(auto, using(crate::proofs::NameLists::lists_add_up, crate::proofs::NameLists::words_add_up))]
pub fn name_lists_add_up()
    ensures lists { (items : List Arrival) (whole first second : Arrival) (c : Text)
        (a b : List Listing) →
        told (view_of items).settings whole ≡ Present c (a ++ b) →
        told (view_of items).settings first ≡ Present c a →
        told (view_of items).settings second ≡ Present c b →
        view_of (items ++ whole ∷ []) ≡ view_of ((items ++ first ∷ []) ++ second ∷ []) }
    ensures words { (settings : List Token) (a b : Text) →
        listings_of settings (a ++ 32 ∷ b) ≡ listings_of settings a ++ listings_of settings b }
{}
