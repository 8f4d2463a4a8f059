//! Frames: two bytes of length, and a message of that many bytes.

ghost use Rattle.std.specs.Prelude.{◌≡◌, ◌<◌, ℕ, List, ◌++◌, length, IfNone, IfSome, MatchOption};
ghost use Rattle.ln_msgs.specs.Frames.Frame.{HasFrame, HasNoFrame, Hears, EndsHearing};
ghost use Rattle.ln_msgs.specs.Messages.Message.{Heard};

use byteorder::{BigEndian, ByteOrder};

/// The message of the frame at the front, and the bytes after the frame; none where no whole frame
/// is there.
pub(crate) fn next_frame(bytes: &[u8]) -> Option<(&[u8], &[u8])>
    ensures cuts_off_a_whole_frame { MatchOption result (HasNoFrame bytes.now)
        (λ f. HasFrame bytes.now f.0.now f.1.now) }
    ensures none_is_less_than_a_frame { IfNone result (length bytes.now < 65537) }
    ensures leaves_fewer_bytes { IfSome result (λ f. length f.1.now < length bytes.now) }
{
    if bytes.len() < 2 {
        return None;
    }
    let (head, rest) = bytes.split_at(2);
    let len = usize::from(BigEndian::read_u16(head));
    if rest.len() < len {
        return None;
    }
    Some(rest.split_at(len))
}

/// The bytes of a stream determine its messages: up to where no further message is heard (at the end,
/// inside a frame, or at a message that has a fault) they are heard in one way alone.
pub fn frames_are_unique()
    ensures { (hs gs : List Heard) (xs ys more rest : List ℕ) → Hears hs xs → Hears gs ys → EndsHearing more
        → EndsHearing rest → xs ++ more ≡ ys ++ rest → (hs ≡ gs) × (more ≡ rest) }
{}
