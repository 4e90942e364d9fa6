//! The five regions of a process's memory.

ghost use Rattle.std.specs.Prelude.{◌≡◌, ◌↔◌, ◌≤◌, ◌+◌, false, length, IfOk, OnOk, OnErr, IsErr};
ghost use Rattle.win32_spec.specs.Regions.{region_of, with_region, is_inside, range_of, written, zeroed_own};

use std::alloc::Global;
use w32_base::{Bytes, Memory, Own, Program, Region};

/// How many bytes the data region has.
const DATA_BYTES: usize = 64;

/// How many bytes the cygheap has.
const CYGHEAP_BYTES: usize = 288;

/// How many bytes the scratch region has.
const SCRATCH_BYTES: usize = 512;

/// A byte of the range lies outside the region.
#[derive(Clone, Copy, Debug, PartialEq, Eq)]
pub struct BadRange;

/// Copies as many bytes of a region as `into` has, from a place on, into it.
///
/// # Errors
///
/// One of these bytes lies outside the region; `into` stays as it was. A range of no bytes is never outside.
pub fn read_own(own: &Own, region: Region, place: u32, into: &mut [u8]) -> Result<(), BadRange>
    ensures outside { IsErr result ↔ (is_inside (length (region_of own.now region)) place (length into.old) ≡ false) }
    ensures bytes { OnOk result (into.new ≡ range_of (region_of own.now region) place (length into.old)) }
    ensures unchanged { OnErr result (into.new ≡ into.old) }
{
    let bytes = bytes_of(own, region);
    if !lies_inside(bytes.len(), place, into.len()) {
        return Err(BadRange);
    }
    if !into.is_empty() {
        let start = place as usize;
        into.copy_from_slice(&bytes[start..start + into.len()]);
    }
    Ok(())
}

/// Copies bytes into a region from a place on. All else stays.
///
/// # Errors
///
/// A byte would lie outside the region; nothing changes then. A range of no bytes is never outside.
pub fn write_own(own: &mut Own, region: Region, place: u32, from: &[u8]) -> Result<(), BadRange>
    ensures outside { IsErr result ↔ (is_inside (length (region_of own.old region)) place (length from.now) ≡ false) }
    ensures bytes { OnOk result
        (own.new ≡ with_region own.old region (written (region_of own.old region) place from.now)) }
    ensures unchanged { OnErr result (own.new ≡ own.old) }
{
    if !lies_inside(bytes_of(own, region).len(), place, from.len()) {
        return Err(BadRange);
    }
    if !from.is_empty() {
        copy_in(own, region, place as usize, from);
    }
    Ok(())
}

/// The memory of a new process of this program. Each byte is 0: who makes the process sets its program's number.
///
/// # Errors
///
/// There is no memory for it.
pub fn open_own(alloc: Global, program: &Program) -> Result<Own, Memory>
    ensures { IfOk result (λ own. own ≡ zeroed_own program.now.heap program.now.stack) }
{
    Ok(Own {
        dat: Bytes::zeros(alloc, DATA_BYTES)?,
        heap: Bytes::zeros(alloc, usize::from(program.heap))?,
        stack: Bytes::zeros(alloc, usize::from(program.stack))?,
        cyg: Bytes::zeros(alloc, CYGHEAP_BYTES)?,
        scratch: Bytes::zeros(alloc, SCRATCH_BYTES)?,
    })
}

/// The bytes of a region.
fn bytes_of(own: &Own, region: Region) -> &[u8]
    ensures { result.now ≡ region_of own.now region }
{
    match region {
        Region::Dat => own.dat.as_slice(),
        Region::Heap => own.heap.as_slice(),
        Region::Stack => own.stack.as_slice(),
        Region::Cyg => own.cyg.as_slice(),
        Region::Scratch => own.scratch.as_slice(),
    }
}

/// Whether so many bytes from a place on lie in a region of this many bytes.
fn lies_inside(size: usize, place: u32, count: usize) -> bool
    ensures { result ≡ is_inside size place count }
{
    let place = place as usize;
    count == 0 || (place <= size && count <= size - place)
}

/// Copies bytes that lie inside into a region.
fn copy_in(own: &mut Own, region: Region, place: usize, from: &[u8])
    requires { place + length from.now ≤ length (region_of own.old region) }
    ensures { own.new ≡ with_region own.old region (written (region_of own.old region) place from.now) }
{
    match region {
        Region::Dat => own.dat.copy_in(place, from),
        Region::Heap => own.heap.copy_in(place, from),
        Region::Stack => own.stack.copy_in(place, from),
        Region::Cyg => own.cyg.copy_in(place, from),
        Region::Scratch => own.scratch.copy_in(place, from),
    }
}

#[cfg(test)]
mod tests {
    use super::*;
    use std::test::Fail;
    use w32_base::{Code, Instr, Name};

    fn opened(alloc: Global) -> Result<Own, Fail> {
        let code = Code::from_vec(vec![in alloc; Instr::Pause]?);
        let name = Name::try_new(b"main").ok_or("no name")?;
        let program = Program {
            name,
            heap: 4,
            stack: 64,
            code,
        };
        Ok(open_own(alloc, &program)?)
    }

    #[test]
    fn a_new_process_has_zeros(rt: HostRuntime) -> Result<(), Fail> {
        let own = opened(rt.alloc())?;
        assert_eq!(rt; own.dat.as_slice(), [0; 64].as_slice());
        assert_eq!(rt; own.heap.as_slice(), [0; 4].as_slice());
        assert_eq!(rt; own.stack.as_slice(), [0; 64].as_slice());
        assert_eq!(rt; own.cyg.as_slice(), [0; 288].as_slice());
        assert_eq!(rt; own.scratch.as_slice(), [0; 512].as_slice());
        Ok(())
    }

    #[test]
    fn no_byte_is_read_at_the_end_of_a_region(rt: HostRuntime) -> Result<(), Fail> {
        let own = opened(rt.alloc())?;
        let mut into = [7];
        assert_eq!(rt; read_own(&own, Region::Heap, 4, &mut into), Err(BadRange));
        assert_eq!(rt; into, [7]);
        assert_eq!(rt; read_own(&own, Region::Heap, 9, &mut []), Ok(()));
        Ok(())
    }

    #[test]
    fn reads_what_was_written(rt: HostRuntime) -> Result<(), Fail> {
        let mut own = opened(rt.alloc())?;
        assert_eq!(rt;
            write_own(&mut own, Region::Heap, 3, &[1, 2]),
            Err(BadRange)
        );
        assert_eq!(rt; own.heap.as_slice(), [0; 4].as_slice());
        assert_eq!(rt; write_own(&mut own, Region::Heap, 2, &[1, 2]), Ok(()));
        assert_eq!(rt; own.heap.as_slice(), [0, 0, 1, 2].as_slice());
        let mut into = [0; 3];
        assert_eq!(rt; read_own(&own, Region::Heap, 1, &mut into), Ok(()));
        assert_eq!(rt; into, [0, 1, 2]);
        Ok(())
    }
}
