use super::*;
use cyg_script::print_script;
use std::test::Fail;

#[test]
fn a_script_of_two_forks_is_printed(rt: HostRuntime) -> Result<(), Fail> {
    let text = print_script(rt.alloc(), &make(rt.alloc(), 2)?)?;
    let want: &[u8] =
        b"cygscript 1\nslots 2\nrows 3\nbudget 500000\nprogram main heap 64 stack 64\n\
fork\njzero r0 7\nwait r0 0\nfork\njzero r0 7\nwait r0 0\nexit 0\ngetpid\nexit r0\nschedule\nsettle\n";
    assert!(rt; text.as_slice() == want);
    Ok(())
}

#[test]
fn the_most_forks_fit(rt: HostRuntime) -> Result<(), Fail> {
    let script = make(rt.alloc(), MOST_FORKS)?;
    assert_eq!(rt; script.setup.programs.first().code.len(), 1503);
    Ok(())
}
