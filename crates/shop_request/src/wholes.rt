//! Whether the bytes that came are a whole request.

ghost use Rattle.std.specs.Prelude.{◌≡◌, ◌<◌, ◌-◌, ◌≤◌, ◌++◌, ℕ, List, length, true, false};
ghost use Rattle.shop_request.specs.Reading.{HasEnough, IsHeadIn};
ghost use Rattle.shop_request.specs.Requests.{most_request_reads};
ghost use Rattle.shop_request.specs.Parses.{IsDetermined, IsUnfinished};

use crate::heads::{Found, Head, MAX_HEAD_LEN};

/// How many bytes have to come, those that came among them, before they make a whole request, or a fault, whatever follows:
/// no more than came where they do. With fewer the request is unfinished. It is one more than came while the head isn't whole,
/// and at most 139264.
pub fn least_bytes(head: &Head, received: &[u8]) -> usize
    requires { IsHeadIn received.now head.now }
    ensures determined { result ≤ length received.now → IsDetermined received.now }
    ensures enough { result ≤ length received.now → (0 < length received.now)
        × HasEnough (length received.now) head.now.found }
    ensures bound { result ≤ most_request_reads }
    ensures waits { (more : List ℕ) → length (received.now ++ more) < result
        → IsUnfinished (received.now ++ more) }
    ensures least { (more : List ℕ) → 0 < length more → length (received.now ++ more) < result
        → IsDetermined (received.now ++ more) → ⊥ }
{
    if received.is_empty() {
        return 1;
    }
    match head.found {
        Found::Asks(spans, asked) => {
            if !asked.route.takes_body() {
                return 0;
            }
            spans.len + asked.length
        }
        Found::Faulty(_, _) => 0,
        Found::Unfinished => {
            if received.len() >= MAX_HEAD_LEN {
                return 0;
            }
            received.len() + 1
        }
        Found::Refused(_) => 0,
    }
}

/// Whether the bytes that came make a whole request, or a fault, whatever follows. Where they don't, nothing came, or a part of
/// a head, or a head without all of its body: fewer than 139264 bytes.
pub fn is_whole(head: &Head, received: &[u8]) -> bool
    requires { IsHeadIn received.now head.now }
    ensures determined { result ≡ true → IsDetermined received.now }
    ensures waits { result ≡ false → IsUnfinished received.now }
    ensures short { result ≡ false → length received.now < most_request_reads }
{
    received.len() >= least_bytes(head, received)
}
