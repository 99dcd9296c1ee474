// The numbers of the formats, each once: the definitions take them from here. Counts are the most of their kind.

/// The version of the scenario format. There is no other yet.
pub const VERSION: u8 = 1;

/// The scripts of a scenario, and so the applications of a run. There is at least one.
pub const MOST_SCRIPTS: usize = 8;

/// The bytes of a scenario's text.
pub const MOST_SCENARIO: usize = 1_048_576;

/// The frames of a load, a scenario that is made from a number. There is at least one.
pub const MOST_LOAD: u32 = 200_000;

/// The bytes of a text of an op.
pub const MOST_TEXT: usize = 1024;

/// The capacity that an op lends to a text, in bytes.
pub const MOST_CAPACITY: u64 = 1024;

/// The bytes of the name that an op gives. It has at least one.
pub const MOST_GIVEN: usize = 32;

/// The user paths that an action tells apart.
pub const MOST_SUBACTIONS: usize = 8;

/// The action sets that are attached at once.
pub const MOST_ATTACHED: usize = 32;

/// The bindings that an op lists. A profile has fewer.
pub const MOST_BINDINGS: usize = 600;

/// The bindings that are suggested for a profile.
pub const MOST_SUGGESTED: usize = 512;

/// The action sets that an op lists to be synced. A sync takes fewer.
pub const MOST_ACTIVE: usize = 128;

/// The action sets that a sync lists.
pub const MOST_SYNCED: usize = 96;

/// The layers that an op lists. A frame takes fewer.
pub const MOST_LISTED: usize = 32;

/// The images of a swapchain. A static one has one of them.
pub const IMAGES: usize = 3;

/// The events that wait to be polled. Where one more comes, the oldest is dropped.
pub const EVENTS: usize = 32;

/// The views of a projection that an op lists.
pub const MOST_VIEWS: usize = 4;

/// The last mark. The first is 1.
pub const MOST_MARK: u8 = 64;

/// The last mark whose value is a handle. The values of those behind it are atoms.
pub const MOST_HANDLE_MARK: u8 = 32;

/// The bytes of a line of a device's text, without its line feed.
pub const MOST_LINE: usize = 255;

/// The bytes of a device's text.
pub const MOST_DEVICE: usize = 16_777_216;

/// The last row of inputs. The first is 1.
pub const MOST_ROW: u8 = 40;

/// The bytes of the name of an action set or an action. It has at least one.
pub const MOST_NAME: usize = 63;

/// The bytes of a localized name. It has at least one.
pub const MOST_LOCALIZED: usize = 127;

/// The bytes of a file's name, as the system takes no longer ones. It has at least one.
pub const MOST_FILE_NAME: usize = 4095;
