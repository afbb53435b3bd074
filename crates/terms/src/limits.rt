// The bounds of a group. specs/Limits.antt has the same numbers for contracts.

// The fewest and the most servers of a group.
pub const MIN_SERVERS: usize = 2;

pub const MAX_SERVERS: usize = 6;

// The fewest and the most objects of a group.
pub const MIN_OBJECTS: usize = 1;

pub const MAX_OBJECTS: usize = 6;

// The fewest and the most cells of a value.
pub const MIN_CELLS: usize = 1;

pub const MAX_CELLS: usize = 16;

// A code's table has a coefficient for each server and each object.
pub const MAX_TABLE: usize = MAX_SERVERS * MAX_OBJECTS;

// Servers and objects are numbered from 0.
pub const LAST_SERVER: u32 = (MAX_SERVERS - 1) as u32;

pub const LAST_OBJECT: u32 = (MAX_OBJECTS - 1) as u32;

// The greatest height of a tag, the greatest count of a clock, and the greatest number of a read.
pub const MAX_HEIGHT: u32 = 6_000_000;

pub const MAX_COUNT: u32 = 1_000_000;

pub const MAX_READ: u32 = 1_000_000;

// A server's tables: at most 64 entries of the history, 32 waiting writes and 8 reads of clients.
pub const MAX_ENTRIES: usize = 64;

pub const MAX_WAITING: usize = 32;

pub const MAX_CLIENT_READS: usize = 8;

// Behind the clients' reads is a place for the internal read of each object.
pub const MAX_READS: usize = MAX_CLIENT_READS + MAX_OBJECTS;

// There is a lane from each server to each other.
pub const MAX_LANES: usize = MAX_SERVERS * (MAX_SERVERS - 1);

// A lane has 1 to 16 places.
pub const MIN_PLACES: usize = 1;

pub const MAX_PLACES: usize = 16;

// A message as bytes: a mark of 4 bytes, and a body of at most 80.
pub const MARK_BYTES: usize = 4;

pub const MAX_BODY_BYTES: usize = 80;

pub const MAX_RECORD_BYTES: usize = MARK_BYTES + MAX_BODY_BYTES;
