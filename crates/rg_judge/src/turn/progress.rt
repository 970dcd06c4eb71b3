use rg_base::options::Options;

/// The numbers of a running utility, as far as its events tell them: its options, the pages when it
/// started, the pages copied, the rows unloaded and reloaded, the pages filled, the lists sorted
/// and the indexes built, the iteration with its target and size, the changes taken, the moments of
/// the drain asked, of the last one given up and of the standing message, the failed tries, the
/// pages last written, and whether the last iteration, the writing and the switch are over.
#[derive(Clone, Copy, Debug, PartialEq, Eq)]
pub struct Progress {
    pub options: Options,
    pub pages: u64,
    pub copied: u64,
    pub unloaded: u64,
    pub reloaded: u64,
    pub filled: u64,
    pub sorted: u64,
    pub built: u64,
    pub iteration: u64,
    pub target: u64,
    pub done: u64,
    pub size: u64,
    pub asked: u32,
    pub gave_up: Option<u32>,
    pub message: Option<u32>,
    pub failed: u32,
    pub shadow: u32,
    pub last: bool,
    pub written: bool,
    pub switched: bool,
}
