//! Laws over codes and messages. A caller that wants one calls it.

ghost use Rattle.std.specs.Prelude.{◌≡◌, ℕ, ◌≤◌, ◌++◌, length, List, Ok, Result, IsErrOf};
ghost use Rattle.dns_quic.specs.Codes.{IsProper, code_of, number_of};
ghost use Rattle.dns_quic.specs.Streams.{IsReceived, ReceivesFrame};
ghost use Rattle.dns_frames.specs.Frames.{frame_of};
ghost use Rattle.dns_quic.specs.declared.error_code.DoqErrorCode.{DoqErrorCode as Code};
ghost use Rattle.dns_transport.specs.declared.error.NetError.{NetError as Fault};
ghost use Rattle.dns_transport.specs.declared.error.NetError.TheVariants.{Io, OutOfMemory};

/// A code that is read from its own number is itself, but where a number without a name is that of a named code.
pub fn codes_read_back()
    ensures { (code : Code) → IsProper code → code_of (number_of code) ≡ code }
{}

/// A message that was sent is received as it was, whatever stands behind it, and exactly its bytes are taken, where no read
/// fails and memory lasts.
pub fn messages_received()
    ensures { (message more rest : List ℕ) (result : Result (List ℕ) Fault) → length message ≤ 65535 → IsReceived result
        → ReceivesFrame result (frame_of message ++ more) rest → ¬ (IsErrOf result Io)
        → ¬ (IsErrOf result OutOfMemory) → (result ≡ Ok message) × (rest ≡ more) }
{}
