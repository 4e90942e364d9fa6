//! Each call once on its happy path, and the edges that the types keep.

use crate::{
    Acting, Bytes, Code, Directive, Entry, HandleList, HandleNo, Instr, Journal, Limits, Module,
    Modules, Name, Number, ObjectNo, Operand, Outcome, Pid, Program, Programs, Register, RowNo,
    ShortBytes, Slot, ThreadNo, WinNo,
};
use std::test::Fail;

#[test]
fn numbers_keep_their_ranges(rt: HostRuntime) -> Result<(), Fail> {
    assert_eq!(rt; Slot::try_new(64).ok_or("slot")?.get(), 64);
    assert!(rt; Slot::try_new(65).is_none());
    assert_eq!(rt; ThreadNo::try_new(2).ok_or("thread")?.get(), 2);
    assert!(rt; ThreadNo::try_new(3).is_none());
    assert!(rt; HandleNo::try_new(0).is_none());
    assert_eq!(rt; HandleNo::try_new(64).ok_or("handle")?.get(), 64);
    assert_eq!(rt; RowNo::try_new(4000).ok_or("row")?.pid().get(), 4001);
    assert_eq!(rt; Pid::try_new(2).ok_or("pid")?.row().get(), 1);
    assert!(rt; Pid::try_new(1).is_none());
    assert!(rt; Acting::try_new(1).is_none());
    assert_eq!(rt; Acting::process(Pid::new(2)).get(), 2);
    assert_eq!(rt; Acting::host().get(), 0);
    assert!(rt; Number::try_new(4_294_967_296).is_none());
    assert_eq!(rt;
        Number::try_new(-2_147_483_648).ok_or("number")?.get(),
        -2_147_483_648
    );
    assert_eq!(rt; Number::signed(-1).get(), -1);
    assert_eq!(rt; Number::unsigned(7).get(), 7);
    assert_eq!(rt; WinNo::new(3).get(), 3);
    assert_eq!(rt; ObjectNo::new(5).get(), 5);
    assert_eq!(rt; Register::try_new(7).ok_or("register")?.get(), 7);
    assert!(rt; Register::try_new(8).is_none());
    Ok(())
}

#[test]
fn short_lists_hold_what_they_get(rt: HostRuntime) -> Result<(), Fail> {
    let mut bytes: ShortBytes<4> = ShortBytes::new();
    assert!(rt; bytes.is_empty());
    bytes.push(7);
    assert_eq!(rt; bytes.get(0), Some(7));
    assert_eq!(rt; bytes.get(1), None);
    let mut list = HandleList::new();
    assert!(rt; list.is_empty());
    list.push(HandleNo::new(4));
    assert_eq!(rt; list.len(), 1);
    assert_eq!(rt; list.get(0).ok_or("handle")?.get(), 4);
    assert_eq!(rt; list.numbers(), [4u8].as_slice());
    let name = Name::try_new(b"core9").ok_or("name")?;
    assert_eq!(rt; name.as_slice(), b"core9".as_slice());
    assert!(rt; Name::try_new(b"9core").is_none());
    assert!(rt; Name::try_new(b"").is_none());
    assert!(rt; Name::try_new(b"abcdefghijklmnopq").is_none());
    Ok(())
}

#[test]
fn memory_keeps_bytes(rt: HostRuntime) -> Result<(), Fail> {
    let mut bytes: Bytes<10> = Bytes::zeros(rt.alloc(), 8)?;
    assert!(rt; bytes.len() == 8);
    bytes.set(7, 9);
    bytes.set_word(0, 258);
    bytes.copy_in(4, &[3, 4]);
    assert_eq!(rt; bytes.as_slice(), [2u8, 1, 0, 0, 3, 4, 0, 9].as_slice());
    assert_eq!(rt; bytes.word(0), 258);
    assert_eq!(rt; bytes.get(8), None);
    bytes.reset(10);
    assert_eq!(rt; bytes.as_slice(), [0u8; 10].as_slice());
    bytes.clear();
    assert!(rt; bytes.is_empty());
    Ok(())
}

#[test]
fn a_setup_has_its_parts(rt: HostRuntime) -> Result<(), Fail> {
    let code = Code::from_vec(vec![in rt.alloc(); Instr::Exit(Operand::Number(0))]?);
    assert!(rt; !code.is_empty());
    assert_eq!(rt; code.len(), 1);
    assert_eq!(rt; code.get(0), Some(Instr::Exit(Operand::Number(0))));
    assert_eq!(rt; code.into_vec().len(), 1);
    let modules = Modules::from_vec(Vec::new(rt.alloc()));
    assert!(rt; modules.is_empty());
    assert_eq!(rt; modules.len(), 0);
    assert_eq!(rt; modules.as_slice().len(), 0);
    let name = Name::try_new(b"main").ok_or("name")?;
    let module = Module {
        name,
        base: 10,
        size: 4,
    };
    assert_eq!(rt; module.base, 10);
    let limits = Limits {
        slots: 1,
        rows: 1,
        budget: 1,
    };
    assert_eq!(rt; limits.budget, 1);
    let code = Code::from_vec(vec![in rt.alloc(); Instr::GetPid]?);
    let program = Program {
        name,
        heap: 0,
        stack: 64,
        code,
    };
    let programs = Programs::from_vec(vec![in rt.alloc(); program]?);
    assert_eq!(rt; programs.len(), 1);
    assert!(rt; !programs.is_empty());
    assert_eq!(rt; programs.first().stack, 64);
    assert_eq!(rt; programs.as_slice().len(), 1);
    Ok(())
}

#[test]
fn a_journal_gives_its_entries_back(rt: HostRuntime) -> Result<(), Fail> {
    let entry = Entry {
        directive: Directive::Turn(Slot::new(1), ThreadNo::new(0)),
        call: None,
        outcome: Outcome::Idle,
        event: None,
    };
    let journal = Journal::from_vec(vec![in rt.alloc(); entry]?);
    assert!(rt; !journal.is_empty());
    assert_eq!(rt; journal.len(), 1);
    assert_eq!(rt; journal.as_slice().len(), 1);
    assert_eq!(rt; journal.into_vec().len(), 1);
    Ok(())
}
