//! What streams of messages obey: each law is a call that does nothing and whose contract is the law.

ghost use Rattle.std.specs.Prelude.{◌≡◌, ◌≤◌, ◌<◌, ◌+◌, ◌*◌, ◌++◌, ℕ, List, [], ◌∷◌, length, take, drop};
ghost use Rattle.dns_frames.specs.Frames.{frames, behind, ahead};

/// The frames of a stream, from its first bytes on (RFC 1035 4.2.2).
pub fn framed_streams()
    ensures empty { frames [] ≡ record { messages = []; rest = [] } }
    ensures one { (a : ℕ) → frames (a ∷ []) ≡ record { messages = []; rest = a ∷ [] } }
    ensures partial { (a b : ℕ) (bytes : List ℕ) → length bytes < a * 256 + b
        → frames (a ∷ b ∷ bytes) ≡ record { messages = []; rest = a ∷ b ∷ bytes } }
    ensures whole { (a b : ℕ) (bytes : List ℕ) → a * 256 + b ≤ length bytes
        → frames (a ∷ b ∷ bytes) ≡ behind (take (a * 256 + b) bytes) (frames (drop (a * 256 + b) bytes)) }
{}

/// It does not matter how a stream is cut: its messages are those of a front, and then those of what is left of the front
/// with what follows.
pub fn streams_that_go_on()
    ensures more { (front later : List ℕ) → frames (front ++ later)
        ≡ ahead (frames front).messages (frames ((frames front).rest ++ later)) }
    ensures rest { (bytes : List ℕ) → frames (frames bytes).rest ≡ record { messages = []; rest = (frames bytes).rest } }
{}
