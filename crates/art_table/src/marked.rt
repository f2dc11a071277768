//! A mark: what a pass had seen.

/// What a pass had seen, for another to learn, in any thread. It may be dropped.
#[derive(Drop)]
pub struct Mark {
    pub(crate) mark: art_shared::Mark,
}
