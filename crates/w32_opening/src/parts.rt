//! The modules, calls, handles and words with which a run begins.

ghost use Rattle.std.specs.Prelude.{◌≡◌, ◌+◌, ◌-◌, ◌<◌, ◌≤◌, [], ◌∷◌, ◌++◌, replicate, length, IfOk};
ghost use Rattle.win32_spec.specs.Making.{opening_call};
ghost use Rattle.win32_spec.specs.Opening.{ArePlaced, opening_words};
ghost use Rattle.w32_opening.specs.Rows.{IsRow};

use script_spec::Script;
use std::alloc::Global;
use w32_base::{Call, HandleNo, Memory, ObjectNo};
use w32_handles::Handles;
use w32_kinds::{Placements, WORDS};
use w32_section::Section;

/// Row 1's main word: it is running, and has image 2.
const FIRST_MAIN_WORD: u64 = (2 << 50) + (2 << 31);

/// Row 1's group word: parent 1, group 2, session 2 and the terminal.
const FIRST_GROUP_WORD: u64 = 1 + (2 << 12) + (2 << 24) + (1 << 36);

/// The modules of the first layer process, placed one after another.
pub fn first_placements(script: &Script) -> Placements
    ensures { ArePlaced script.now 1 0 script.now.setup.modules [] result }
{
    let modules = script.setup.modules.as_slice();
    let mut placed = Placements::new();
    for number in 0..script.setup.modules.len() {
        let base = placed.place_for(script, 1, &modules[number]);
        placed.push(number as u8, base);
    }
    placed
}

/// The first calls of this many threads. It fails only for want of memory.
pub fn first_calls(alloc: Global, threads: usize) -> Result<Vec<Call>, Memory>
    ensures { IfOk result (λ posted. posted.items ≡ replicate threads opening_call) }
{
    filled(alloc, Call::Load(HandleNo::new(1), 0), threads)
}

// So many copies of an item.
fn filled<T: Copy>(alloc: Global, item: T, count: usize) -> Result<Vec<T>, Memory>
    ensures { IfOk result (λ items. items.items ≡ replicate count item) }
{
    let mut items = Vec::with_capacity(alloc, count)?;
    for _place in 0..count {
        items.push(item)?;
    }
    Ok(items)
}

/// The words of the section: one row is claimed, and it has its main word and its group word. It fails only for want of
/// memory.
pub fn first_words(alloc: Global) -> Result<Section<WORDS>, Memory>
    ensures { IfOk result (λ section. section ≡ opening_words) }
{
    let mut section = Section::open(alloc)?;
    let _ = section.add(0, 1);
    let _ = section.add(1, FIRST_MAIN_WORD);
    let _ = section.add(2, FIRST_GROUP_WORD);
    Ok(section)
}

/// Handles on these objects, under the numbers from 1 on.
pub fn three_handles(first: ObjectNo, second: ObjectNo, third: ObjectNo) -> Handles
    ensures value { result ≡ record { number = 1; names = first } ∷ record { number = 2; names = second }
        ∷ record { number = 3; names = third } ∷ [] }
    ensures row { IsRow 1 result }
{
    let mut handles = Handles::new();
    open_next(&mut handles, first);
    open_next(&mut handles, second);
    open_next(&mut handles, third);
    handles
}

/// One more handle, behind the others.
pub fn open_next(handles: &mut Handles, o: ObjectNo)
    requires few { length handles.old < 64 }
    requires row { IsRow 1 handles.old }
    ensures opened { handles.new ≡ handles.old ++ record { number = length handles.old + 1; names = o } ∷ [] }
    ensures row { IsRow 1 handles.new }
{
    let Ok(_) = handles.open(o) else {
        unreachable!()
    };
}

/// The modules of each slot: those of the first layer process, and none in the others. It fails only for want of
/// memory.
pub fn first_modules(
    alloc: Global,
    slots: usize,
    placed: Placements,
) -> Result<Vec<Placements>, Memory>
    requires { 2 ≤ slots }
    ensures { IfOk result (λ modules. modules.items ≡ [] ∷ placed ∷ replicate (slots - 2) []) }
{
    let mut modules = Vec::with_capacity(alloc, slots)?;
    modules.push(Placements::new())?;
    modules.push(placed)?;
    for _slot in 0..slots - 2 {
        modules.push(Placements::new())?;
    }
    Ok(modules)
}
