// The commands.
use esm_base::Text;
use url::Url;

/// The greatest START of generated input.
pub const MAX_START: usize = 2147483647;

/// What is to be run.
#[derive(Drop)]
pub struct Command {
    /// The URL of BASE.
    pub base: Url,
    /// The URL of the entry.
    pub entry: Text,
    /// The URL of the import map, where one is named.
    pub map: Option<Text>,
    /// How many workers there are, the calling thread among them.
    pub workers: usize,
    /// Whether the log has a line for each start and end of a body.
    pub trace: bool,
    /// Whether a record of the run is written before the log.
    pub recorded: bool,
}

/// What input is to be generated and run.
#[derive(Drop)]
pub struct Generation {
    /// The number that the texts come of.
    pub start: u32,
    /// How many modules there are.
    pub count: u32,
    /// How many workers there are, the calling thread among them.
    pub workers: usize,
}
