ghost use Rattle.std.specs.Prelude.{◌≡◌};

use std::alloc::AllocError;

/// What the program is to do.
#[derive(Clone, Copy, Debug, PartialEq, Eq)]
pub enum Task {
    /// Check a probe file against the reference, on one thread: `pass [--sources]
    /// IMAGE PROBES`.
    Pass,
    /// Check it with several workers: `check [--workers N] [--sources] IMAGE PROBES`.
    Check,
    /// Print the records of a probe file: `dump PROBES`.
    Dump,
    /// Write a probe file in another version: `convert --to N PROBES`.
    Convert,
}

/// What words ask for.
#[derive(Debug, Drop)]
pub struct Command {
    pub task: Task,
    /// The version of the file that `convert` writes, 1 or 2; 0 for the other tasks.
    pub to: u8,
    /// How many workers `check` has, from 1 to 8; 2 for the other tasks.
    pub workers: u8,
    /// Whether a check prints where loads have their bytes from; false for the other tasks.
    pub sources: bool,
    /// The path of the memory image, where the task reads one.
    pub image: Option<String>,
    /// The path of the probe file, where the task reads one.
    pub probes: Option<String>,
}

/// Why words ask for nothing.
#[derive(Clone, Copy, Debug, PartialEq, Eq)]
pub enum WordsRefusal {
    /// The words are not in the table of commands.
    Usage,
    /// The allocator refused memory, so it is not known what they ask for.
    OutOfMemory,
}

impl From<AllocError> for WordsRefusal {
    ghost use Rattle.dt_words.specs.declared.commands.WordsRefusal.TheVariants.{OutOfMemory};

    ghost from_gives = { λ _ refusal. refusal ≡ OutOfMemory };

    fn from(_: AllocError) -> WordsRefusal {
        WordsRefusal::OutOfMemory
    }
}
