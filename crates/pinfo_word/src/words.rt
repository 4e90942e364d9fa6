//! The three words of a row as types.

ghost use Rattle.std.specs.Prelude.{IsTrue};
ghost use Rattle.layer_spec.specs.Rows.{is_main, is_group, is_exit};
ghost use Rattle.pinfo_word.specs.Fields.{main_by, group_by, exit_by};

use sig_sets::SigSet;

/// What a row is. Only running, stopped and zombie rows are processes.
#[derive(Clone, Copy, Debug, PartialEq, Eq)]
pub enum RowKind {
    /// Not claimed.
    Free,
    /// Claimed for a child to come.
    Held,
    /// A process that runs.
    Running,
    /// A process that a signal has stopped.
    Stopped,
    /// A process that has died and that nobody has reaped.
    Zombie,
    /// Never used again.
    Gone,
}

/// A row's main word. Free, held and gone rows have no other field than their kind.
#[derive(Clone, Copy, Debug, PartialEq, Eq)]
pub struct Main {
    /// What the row is.
    pub kind: RowKind,
    /// By which signal a stopped process was stopped, else 0.
    pub stop: u8,
    /// What its parent wasn't told: 1 a stop, 2 a continue, 0 nothing.
    pub report: u8,
    /// Whether the process has executed an exec.
    pub execd: bool,
    /// The Win32 number of its image.
    pub image: u32,
    /// Its pending signals.
    pub pending: SigSet,
    /// The status of a zombie, else 0.
    pub status: u16,
    pub ghost legal: { IsTrue (is_main (main_by kind stop report execd image pending status)) },
}

/// A row's group word.
#[derive(Clone, Copy, Debug, PartialEq, Eq)]
pub struct Group {
    /// The raw parent.
    pub ppid: u16,
    /// The process group.
    pub pgid: u16,
    /// The session.
    pub sid: u16,
    /// Whether it has the terminal.
    pub tty: bool,
    pub ghost legal: { IsTrue (is_group (group_by ppid pgid sid tty)) },
}

/// A row's exit word: with which status an image has exited.
#[derive(Clone, Copy, Debug, PartialEq, Eq)]
pub struct Exit {
    /// The Win32 number of the image.
    pub image: u32,
    /// The status.
    pub status: u16,
    /// Whether it was an image fault.
    pub fault: bool,
    pub ghost legal: { IsTrue (is_exit (exit_by image status fault)) },
}
