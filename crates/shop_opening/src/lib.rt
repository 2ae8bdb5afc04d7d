//! Opens and closes the books of store files, says what a crash leaves of them, and adds the materials of a shop file
//! to a book.
#![tactic(auto)]

mod apart;
mod before;
mod logs;
mod made;
mod shops;
mod stops;
mod stores;

pub use apart::{ApartBook, ApartOpener, Pair, open_pair, read_apart, read_pair};
pub use made::Made;
pub use shops::{AddFault, EntryRefused, add_shop};
pub use stops::stopped_stores_are_found;
pub use stores::{OpenAs, OpenFault, Opener, Opens, StoreBook, open_file};
