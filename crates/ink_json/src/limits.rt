//! The integers that a story may have.

/// The least integer of a story.
pub(crate) const LEAST: i128 = -2_147_483_648;

/// The greatest integer of a story.
pub(crate) const MOST: i128 = 2_147_483_647;
