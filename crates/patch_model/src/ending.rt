//! How values end.

/// A value ends in one way: it is let go, as all that is `Drop`, or it is spent by a call that takes it. A type whose values
/// have to be spent says so by an impl of its own; then a derive of `Drop` on it is refused, as a second impl.
pub trait Ending {}

impl<T: Drop> Ending for T {}
