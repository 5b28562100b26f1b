//! How many bytes batches have.

ghost use Rattle.std.specs.Prelude.{◌≡◌, ◌<◌, ◌^◌, length, map};
ghost use Rattle.std.specs.List.{flat_map};
ghost use Rattle.frames.specs.Frames.{frame};

/// How many bytes the frames of these payloads have.
#[tactic(auto, using(crate::proofs::FrameSizes::frame_more))]
pub fn frames_length(payloads: Vec<&[u8]>) -> usize
    requires { length (flat_map frame (map (λ p. p.now) payloads.items)) < 2 ^ 64 }
    ensures { result ≡ length (flat_map frame (map (λ p. p.now) payloads.entry.items)) }
{
    let mut size: usize = 0;
    for payload in payloads {
        size += 36 + payload.len();
    }
    size
}
