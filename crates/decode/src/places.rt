// Where each field stands in its record, and how many bytes the records have that stand in lists: each behind the one before it, as the tape has them.

// ---- a table
pub const TABLE_COUNT: usize = 8;

pub const TABLE_WIDTH: usize = 12;

// ---- a node
pub const NODE_RAFT: usize = 8;

pub const NODE_SNAPSHOT: usize = 57;

pub const NODE_SQL: usize = 106;

pub const NODE_ADMIN: usize = 155;

pub const NODE_REGION: usize = 204;

pub const NODE_ZONE: usize = 229;

pub const NODE_RACK: usize = 254;

pub const NODE_CLASS: usize = 279;

pub const NODE_LIFECYCLE: usize = 304;

// ---- a tablet
pub const TABLET_TABLE: usize = 8;

pub const TABLET_GROUP: usize = 16;

pub const TABLET_EPOCH: usize = 24;

pub const TABLET_KIND: usize = 32;

pub const TABLET_BUCKET: usize = 33;

pub const TABLET_BUCKET_COUNT: usize = 37;

pub const TABLET_START: usize = 41;

pub const TABLET_END: usize = 74;

// ---- a replica, and a preferred leader
pub const REPLICA_NODE: usize = 8;

pub const REPLICA_ROLE: usize = 16;

pub const REPLICA_WIDTH: usize = 17;

pub const LEADER_WIDTH: usize = 8;

// ---- a placement
pub const PLACEMENT_EPOCH: usize = 8;

pub const PLACEMENT_COUNT: usize = 16;

pub const PLACEMENT_REPLICAS: usize = 17;

pub const PLACEMENT_FACTOR: usize = 136;

pub const PLACEMENT_REGIONS: usize = 140;

pub const PLACEMENT_ZONES: usize = 144;

pub const PLACEMENT_RACKS: usize = 148;

pub const PLACEMENT_CLASS: usize = 152;

pub const PLACEMENT_LEADER_COUNT: usize = 177;

pub const PLACEMENT_LEADERS: usize = 178;

// ---- a retirement
pub const RETIREMENT_REPLICA: usize = 8;

pub const RETIREMENT_EPOCH: usize = 16;

pub const RETIREMENT_VERSION: usize = 24;

pub const RETIREMENT_INDEX: usize = 32;

pub const RETIREMENT_TERM: usize = 40;
