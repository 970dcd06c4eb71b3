use super::HeldDescriptors;
use std::test::Fail;

// A test has its three descriptors. Those of a program that was started without are tried with the
// program.
#[test]
fn takes_none_of_those_that_are_open(rt: HostRuntime) -> Result<(), Fail> {
    assert_eq!(rt; HeldDescriptors::take(&rt)?.count(), 0);
    Ok(())
}
