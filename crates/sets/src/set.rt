// A set: one scheme, one store and the record of an open rebuild.
use crate::open_rebuild::OpenRebuild;
use crate::room::Room;
use codes::scheme::Scheme;
use stores::store::UnitStore;

pub struct Set<V: Scheme, S: UnitStore> {
    pub(crate) scheme: V,
    pub(crate) store: S,
    // for the halves that are gathered, beside the record, so that opening and ending a rebuild moves none of it
    pub(crate) room: Room,
    pub(crate) rebuild: Option<OpenRebuild>,
}
