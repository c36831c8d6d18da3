// Lists that both versions share, each seen by contracts as the list of its items.

mod bytes;
mod copying;
mod text;

pub use bytes::Bytes;
pub use copying::TryCopy;
use sqlite_items::Items;
pub use text::Text;

/// Texts in order, as the words of a command line.
pub type Texts = Items<Text>;
