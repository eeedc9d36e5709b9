//! A certificate is accepted, and one is rejected.
use certifier::{Claim, Rejected, certify};
use std::test::*;

// The system with the one rule f(x) -> f(f(x)).
const PROBLEM: &[u8] = b"(format TRS)\n(fun f 1)\n(rule (f x) (f (f x)))\n";

#[test]
fn certifies_a_loop(rt: HostRuntime) {
    let certificate =
        b"NO\n(certificate 1 nonterminating)\n(step 0 (loop (f x) (path (at () 0)) (1)))\n";
    match certify(rt.alloc(), PROBLEM, certificate) {
        Err(_) => assert!(rt; false),
        Ok(answer) => {
            assert!(rt; answer.claim == Claim::Nonterminating);
            assert!(rt; answer.system.find(b"f") == Some(0));
        }
    }
}

#[test]
fn names_the_version(rt: HostRuntime) {
    let found = certify(rt.alloc(), PROBLEM, b"NO\n(certificate 9 nonterminating)\n");
    assert!(rt; matches!(found, Err(Rejected::Version(9))));
}
