//! The numbers of the four objects with which a run begins.

ghost use Rattle.std.specs.Prelude.{◌≡◌, ◌%◌, ◌<◌};

use w32_base::ObjectNo;

/// Even numbers, which rise in this order.
#[derive(Clone, Copy)]
pub struct Numbers {
    /// The shared section's.
    pub section: ObjectNo,
    /// The roster mutex's.
    pub mutex: ObjectNo,
    /// The terminal's.
    pub terminal: ObjectNo,
    /// The first layer process's.
    pub process: ObjectNo,
    pub ghost section_even: { section % 2 ≡ 0 },
    pub ghost mutex_even: { mutex % 2 ≡ 0 },
    pub ghost terminal_even: { terminal % 2 ≡ 0 },
    pub ghost process_even: { process % 2 ≡ 0 },
    pub ghost mutex_above: { section < mutex },
    pub ghost terminal_above: { mutex < terminal },
    pub ghost process_above: { terminal < process },
}
