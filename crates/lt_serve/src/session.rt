//! A store that lines are served from.

ghost use Rattle.std.specs.Prelude.{◌≡◌, true};
ghost use Rattle.lt_serve.specs.Idle.{IsIdle};

use lt_line::Lines;
use lt_page::Page;
use lt_store::Store;

/// A store, and the line that is not at its end yet. Between two rounds every write that was taken is
/// durable.
#[derive(Drop)]
pub struct Session {
    pub(super) store: Store,
    pub(super) lines: Lines,
    /// Where a get puts a value.
    pub(super) value: Page,
    /// Whether a write was taken in this round.
    pub(super) wrote: bool,
    pub(super) is_up: bool,
    ghost idle: { is_up ≡ true → IsIdle store lines },
}

impl Session {
    /// Whether the session may be used. It is false exactly after a round failed; the store is then
    /// opened again.
    pub fn is_up(&self) -> bool
        ensures { result ≡ self.now.is_up }
    {
        self.is_up
    }
}
