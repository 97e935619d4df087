//! Values of cores, and overrides of them.

use super::*;

#[test]
fn values_of_cores(rt: HostRuntime) {
    // the common granule of write-backs on two cores: 0 means that it isn't told
    assert_eq!(rt; fold(Rule::HigherOrZero, 0, &[4, 0]), 0);
    assert_eq!(rt; fold(Rule::HigherOrZero, 0, &[4, 5]), 5);
    // the instruction cache's policy on three cores, where the second differs
    assert_eq!(rt; fold(Rule::Exact, 2, &[3, 3]), 3);
    assert_eq!(rt; fold(Rule::Exact, 2, &[3, 1, 3]), 2);
    // floating point is absent on the second core
    assert_eq!(rt; fold(Rule::Lower, -1, &[0, -1]), -1);
    assert_eq!(rt; fold(Rule::Higher, 0, &[1, 2, 0]), 2);
}

#[test]
fn overrides(rt: HostRuntime) {
    assert_eq!(rt; forced(Rule::Lower, 0, Some(0), &[1, 1]), 0);
    assert_eq!(rt; forced(Rule::Lower, 0, Some(2), &[1]), 1);
    assert_eq!(rt; forced(Rule::Exact, 0, Some(0), &[1, 1]), 0);
    assert_eq!(rt; forced(Rule::Exact, 0, Some(2), &[1, 1]), 1);
    assert_eq!(rt; forced(Rule::HigherOrZero, 0, Some(5), &[0, 4]), 0);
    assert_eq!(rt; forced(Rule::Higher, 0, None, &[1, 2]), 2);
}
