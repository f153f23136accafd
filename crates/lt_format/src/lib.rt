//! The layout of a device, and what its regions spell.
#![tactic(auto)]

mod free_laws;
mod geometry;
mod header;
mod laws;
mod node_id;
mod read_laws;
mod snapshot_laws;
mod trie_laws;

pub use free_laws::changes_free;
pub use geometry::Geometry;
pub use header::Header;
pub use laws::regions_are_apart;
pub use node_id::NodeId;
pub use read_laws::read_manifests_stand;
pub use snapshot_laws::{manifests_are_local, snapshots_are_read_again};
pub use trie_laws::{changes_keep_tries, extents_suffice, nodes_may_be_set};
