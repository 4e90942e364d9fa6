//! Who a main thread is.

ghost use Rattle.std.specs.Prelude.{◌≡◌, ◌+◌};
ghost use Rattle.layer_actor.specs.Actor.{first_identity};

use w32_base::{Acting, Pid, RowNo, WinNo};

/// Which process a main thread's image runs, by its row, and the Win32 number of the image.
#[derive(Clone, Copy, Debug, PartialEq, Eq)]
pub struct Identity {
    /// The row of the process.
    pub row: RowNo,
    /// The image.
    pub image: WinNo,
}

impl Identity {
    /// The first process's.
    pub fn first() -> Identity
        ensures { result ≡ first_identity }
    {
        Identity {
            row: RowNo::new(1),
            image: WinNo::new(2),
        }
    }

    /// The process's number.
    pub fn pid(&self) -> Pid
        ensures { result ≡ self.now.row + 1 }
    {
        self.row.pid()
    }

    /// The process, as the one that acts in an event.
    pub fn acting(&self) -> Acting
        ensures { result ≡ self.now.row + 1 }
    {
        Acting::process(self.row.pid())
    }
}
