// The states of an image, the roles of a caller, and the steps of the generation. States and roles are numbers, and no enums, since an
// image and a caller may hold any: the sixth test refuses an unknown state, and the first an unknown role.

// No writer has the image open.
pub const CLEAN: u64 = 0;

// The image is given up.
pub const INVALIDATED: u64 = 1;

// A writer has the image open.
pub const DIRTY: u64 = 2;

// The roles, each by what the caller knows.
pub const NO_WRITER_KNOWN: u64 = 0;

pub const ANOTHER_WRITER: u64 = 1;

pub const HOLDS_THE_LOCK: u64 = 2;

// What each change but one of the state alone adds to the generation.
pub const GENERATION_STEP: u64 = 2;

// No even generation comes after this one.
pub const LAST_GENERATION: u64 = 18446744073709551614;
