// A shape as a table keeps it.

use crate::key::ShapeKey;
use aml_known::ElementKnown;

/// A shape, and what is known of one of all its elements, which is found once.
#[derive(Drop)]
pub(crate) struct Kept {
    pub key: ShapeKey,
    pub joined: Option<ElementKnown>,
}
