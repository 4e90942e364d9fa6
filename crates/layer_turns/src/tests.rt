//! A call's result in an image.

use super::*;
use std::test::Fail;
use w32_base::{Answer, Errno, Own};

#[test]
fn a_result_stands_in_r0_and_the_next_place_moves_on(rt: HostRuntime) -> Result<(), Fail> {
    let mut own = Own::new(rt.alloc())?;
    assert!(rt; !answer(&mut own, 5));
    own.dat.reset(64);
    assert!(rt; answer(&mut own, result_of(Answer::Error(Errno::EINVAL))));
    if own.dat.len() == 64 {
        assert_eq!(rt; (own.dat.word(0), own.dat.word(32)), (4294967274, 1));
        own.dat.set_word(32, u32::MAX);
    }
    assert!(rt; !answer(&mut own, 5));
    Ok(())
}
