//! Values from outside: the strengths of the table of VALIDATE_PASSWORD_STRENGTH() in the MySQL 8.0 Reference Manual, and a
//! call of each with ample memory.

use crate::{Level, Policy, PolicyFault, off};
use std::test::Fail;

/// The defaults of `validate_password`, with the check of the user's name.
fn medium(rt: &HostRuntime) -> Policy {
    Policy::new(rt.alloc(), Level::Medium, 8, 1, 1, 1, true)
}

#[test]
fn strength_rises_with_what_the_password_has(rt: HostRuntime) -> Result<(), Fail> {
    let mut policy = medium(&rt);
    let cases: [(&[u8], u8); 5] = [
        (b"abc".as_slice(), 0),
        (b"abcd".as_slice(), 25),
        (b"abcdefgh".as_slice(), 50),
        (b"Abcdef1!".as_slice(), 100),
        (b"toor".as_slice(), 0),
    ];
    for (password, want) in cases {
        assert_eq!(rt; policy.strength(b"root", password)?, want);
    }
    assert_eq!(rt; policy.add_word(b"abc"), Err(PolicyFault::WordLength));
    assert_eq!(rt; policy.add_word(b"ABCD"), Ok(()));
    assert_eq!(rt; policy.strength(b"root", b"Abcdef1!")?, 75);
    Ok(())
}

#[test]
fn passwords_meet_a_policy(rt: HostRuntime) -> Result<(), Fail> {
    let policy = medium(&rt);
    assert!(rt; !policy.meets(b"root", b"short")?);
    assert!(rt; policy.meets(b"root", b"Abcdef1!")?);
    assert!(rt; off(rt.alloc()).meets(b"root", b"")?);
    Ok(())
}
