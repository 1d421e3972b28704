use gem_ids::Listed;
use tool_events::Entry;

/// A history: a list of entries, the oldest first.
pub type Entries = Listed<Entry>;
