use crate::features::Feature;

/// What keeps a module outside the profile.
#[derive(Clone, Copy, Debug, PartialEq, Eq)]
pub enum Obstacle {
    /// A feature that lies outside the profile.
    Feature(Feature),
    /// The export at this place has a name that begins with `lower.`.
    ReservedName(u32),
    /// A memory is exported that would be moved, since the module needs a region.
    MemoryMoved,
    /// The memories and moved tables, with what the region has beside them, have more than 65,536 pages at the start.
    TooManyPages,
}
