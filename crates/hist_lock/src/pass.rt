//! What a caller carries.
ghost use Rattle.std.specs.Prelude.{◌≡◌, [], length};
ghost use Rattle.hist_lock.specs.declared.view.Stage.TheVariants.{Idle};

use crate::news::{News, Role};
use crate::rule::Place;
use crate::state::State;

/// A caller's pass. It may go to another thread, and is used by one caller at a time. A pass that
/// is dropped, and not joined into another, keeps the lock from being closed.
#[derive(Drop)]
pub struct Pass<S: State> {
    pub(crate) place: Place<S>,
    pub(crate) count: u64,
    pub(crate) role: Role,
    /// The count of news for its role, as it was at its last turn or earlier.
    pub(crate) heard: u64,
    /// Whether the caller is inside.
    pub(crate) is_inside: bool,
    /// Whether it stays inside after its next turn.
    pub(crate) stays: bool,
    /// What it has to tell, once it goes out.
    pub(crate) news: News,
    ghost ready: { (place.me.0.stage ≡ Idle) × (place.me.1 ≡ []) },
    ghost counted: { count ≡ length place.me.0.view.seen },
}
