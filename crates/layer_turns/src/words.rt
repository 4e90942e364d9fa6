//! The words of a row, and what they tell.

ghost use Rattle.std.specs.Prelude.{◌≡◌, ◌<◌, IsTrue};
ghost use Rattle.layer_spec.specs.Rows.{main_place, group_place, exit_place};
ghost use Rattle.layer_spec.specs.Transitions.{is_op};
ghost use Rattle.pinfo_word.specs.Shown.{shown_op};
ghost use Rattle.roster.specs.Words.{is_process_word, is_live_word, changed_word};

use pinfo_word::{Main, Op, RowKind, trans};
use w32_base::RowNo;

/// The place of a row's main word in the section.
pub fn main_place(row: RowNo) -> u32
    ensures { result ≡ main_place row }
{
    3 * u32::from(row.get()) - 2
}

/// The place of its group word.
pub fn group_place(row: RowNo) -> u32
    ensures { result ≡ group_place row }
{
    3 * u32::from(row.get()) - 1
}

/// The place of its exit word.
pub fn exit_place(row: RowNo) -> u32
    ensures { result ≡ exit_place row }
{
    3 * u32::from(row.get())
}

/// Whether the row of a main word is a process.
pub fn is_process(word: u64) -> bool
    ensures { result ≡ is_process_word word }
{
    match Main::decode(word) {
        Some(main) => match main.kind {
            RowKind::Running | RowKind::Stopped | RowKind::Zombie => true,
            RowKind::Free | RowKind::Held | RowKind::Gone => false,
        },
        None => false,
    }
}

/// Whether it is one that isn't a zombie.
pub fn is_live(word: u64) -> bool
    ensures { result ≡ is_live_word word }
{
    match Main::decode(word) {
        Some(main) => match main.kind {
            RowKind::Running | RowKind::Stopped => true,
            RowKind::Free | RowKind::Held | RowKind::Zombie | RowKind::Gone => false,
        },
        None => false,
    }
}

/// The main word that comes of one by a change, where the row changes so.
pub fn changed(op: Op, word: u64) -> Option<u64>
    requires { IsTrue (is_op (shown_op op)) }
    ensures { result ≡ changed_word (shown_op op) word }
{
    match Main::decode(word) {
        Some(main) => match trans(&main, &op) {
            Some(new) => Some(new.encode()),
            None => None,
        },
        None => None,
    }
}
