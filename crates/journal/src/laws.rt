//! What holds of all batches.

ghost use Rattle.std.specs.Prelude.{◌≡◌, ◌++◌, ◌∷◌, [], List, Ok};
ghost use Rattle.std.specs.List.{AllByRecursion, flat_map};
ghost use Rattle.journal.specs.Kept.{KeptParts, after_all, after_batch};
ghost use Rattle.journal.specs.Records.{RecordParts};
ghost use Rattle.journal.specs.Snapshots.{AreNoChannels};

/// Records can be written as several batches, if only the last one names channels: what is kept
/// after these is what is kept after one batch of them all.
pub fn records_in_parts()
    ensures { (parts : List (List RecordParts)) (last : List RecordParts) (k kept : KeptParts) →
        AllByRecursion AreNoChannels parts → k.channels ≡ [] →
        after_batch (flat_map (λ (p : List RecordParts). p) parts ++ last) k ≡ Ok kept →
        after_all (parts ++ last ∷ []) k ≡ Ok kept }
{}
