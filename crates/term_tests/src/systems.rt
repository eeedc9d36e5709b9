//! Rules make a system.
use crate::texts::system;
use std::test::Fail;

#[test]
fn a_rule_makes_a_system(rt: HostRuntime) -> Result<(), Fail> {
    let trs = system(rt.alloc(), &[2], &[(b"a01", b"1")])?;
    assert!(rt; trs.rules().len() == 1);
    assert!(rt; trs.is_defined(0) && !trs.is_defined(1));
    assert!(rt; trs.same(&trs));
    Ok(())
}
