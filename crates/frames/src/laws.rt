//! What holds of all files of frames.

ghost use Rattle.std.specs.Prelude.{◌≡◌, ◌++◌, ℕ, List, None, take};
ghost use Rattle.std.specs.List.{flat_map};
ghost use Rattle.frames.specs.Frames.{ArePayloads, Splits, frame, frame_at};

/// There is one way to read a file.
pub fn read_in_one_way()
    ensures { (bytes : List ℕ) (ps qs : List (List ℕ)) (p_rest q_rest : List ℕ) →
        Splits bytes ps p_rest → Splits bytes qs q_rest → (ps ≡ qs) × (p_rest ≡ q_rest) }
{}

/// Of a file that was cut anywhere, the payloads are a beginning of those that were written.
pub fn a_cut_leaves_a_beginning()
    ensures { (ps qs : List (List ℕ)) (rest : List ℕ) (n : ℕ) → ArePayloads ps →
        Splits (take n (flat_map frame ps)) qs rest → (k : ℕ) × (qs ≡ take k ps) }
{}

/// Bytes after the frames take none of them away, and add none if they begin no frame.
pub fn the_rest_takes_nothing()
    ensures more { (ps qs : List (List ℕ)) (torn rest : List ℕ) → ArePayloads ps →
        Splits (flat_map frame ps ++ torn) qs rest →
        (more : List (List ℕ)) × (qs ≡ ps ++ more) × Splits torn more rest }
    ensures none { (ps qs : List (List ℕ)) (torn rest : List ℕ) → ArePayloads ps →
        frame_at torn ≡ None → Splits (flat_map frame ps ++ torn) qs rest → qs ≡ ps }
{}
