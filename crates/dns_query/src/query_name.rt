//! The name that is asked for, as it stands in the message.

ghost use Rattle.std.specs.Prelude.{◌≡◌, ◌≤◌, ℕ, length, take, drop, IfSome, IfNone, OnOk};
ghost use Rattle.dns_name.specs.Name.{IsName, fold_of, labels_bytes};
ghost use Rattle.dns_query.specs.Query.{SpelledAt};

use crate::numbers::part;
use dns_name::NameView;

/// The most bytes that a label may have (RFC 1035 2.3.4).
const MAX_LABEL_LEN: usize = 63;

/// The most bytes that the labels of a name may take in a message (RFC 1035 2.3.4), without the zero byte at the end.
const MAX_WIRE_LEN: usize = 254;

/// The name that stands from one place of a message to another, the zero byte among its bytes.
pub(crate) fn name_between<'a>(message: &'a [u8], place: usize, end: usize) -> NameView<'a>
    requires spelled { (labels : _) × SpelledAt message.now place labels end }
    ensures { SpelledAt message.now place result end }
{
    NameView::of_wire(part(message, place, end - 1))
}

/// The place after the name without pointers that begins at a place: none exactly where no such name does.
pub(crate) fn name_end(m: &[u8], place: usize) -> Option<usize>
    ensures found { IfSome result (λ end. (labels : _) × SpelledAt m.now place labels end) }
    ensures none { IfNone result ((labels : _) (end : ℕ) → SpelledAt m.now place labels end → ⊥) }
{
    let mut at = place;
    while at < m.len() {
        let n = m[at] as usize;
        if n == 0 {
            if at - place > MAX_WIRE_LEN {
                return None;
            }
            return Some(at + 1);
        }
        if n > MAX_LABEL_LEN {
            return None;
        }
        if n >= m.len() - at {
            return None;
        }
        at += 1 + n;
    }
    None
}
