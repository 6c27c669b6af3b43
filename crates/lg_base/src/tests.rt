//! Vectors from outside: bytes of the protocol's documentation, and the texts that people see.

use crate::{Bytes, Code, Host, Items, Name, Operation, Out, ReadFault, Reader};
use std::process::Abort;
use std::test::Fail;

#[test]
fn length_encoded_integers_are_read(rt: HostRuntime) {
    let cases: [(&[u8], Result<u64, ReadFault>); 9] = [
        (b"\xfa".as_slice(), Ok(250)),
        (b"\xfc\x05\x00".as_slice(), Ok(5)),
        (b"\xfd\x01\x02\x03".as_slice(), Ok(0x030201)),
        (
            b"\xfe\x01\x02\x03\x04\x05\x06\x07\x08".as_slice(),
            Ok(0x0807060504030201),
        ),
        (b"\xfb".as_slice(), Err(ReadFault::BadLenenc { at: 0 })),
        (b"\xff\x00".as_slice(), Err(ReadFault::BadLenenc { at: 0 })),
        (b"\xfd\x01\x02".as_slice(), Err(ReadFault::Short { at: 3 })),
        (
            b"\xfe\x01\x02\x03\x04\x05\x06\x07".as_slice(),
            Err(ReadFault::Short { at: 8 }),
        ),
        (b"".as_slice(), Err(ReadFault::Short { at: 0 })),
    ];
    for (bytes, want) in cases {
        let mut reader = Reader::new(bytes);
        assert_eq!(rt; reader.lenenc(), want);
        if want.is_err() {
            assert_eq!(rt; reader.at(), 0);
            assert_eq!(rt; reader.rest(), bytes);
        }
    }
}

#[test]
fn fields_are_read_in_turn(rt: HostRuntime) {
    let mut reader = Reader::new(b"\x01\x02\x03\x04\x05\x06\x07\x08\x09\x0ahello\x00 world");
    assert_eq!(rt; reader.read_u8(), Ok(1));
    assert_eq!(rt; reader.read_u16(), Ok(0x0302));
    assert_eq!(rt; reader.read_u24(), Ok(0x060504));
    assert_eq!(rt; reader.read_u32(), Ok(0x0a090807));
    assert_eq!(rt; reader.nul_text(), Ok(b"hello".as_slice()));
    assert_eq!(rt; reader.nul_text(), Err(ReadFault::Short { at: 22 }));
    assert_eq!(rt; reader.take(3), Ok(b" wo".as_slice()));
    assert_eq!(rt; reader.take(u64::MAX), Err(ReadFault::Short { at: 22 }));
    assert_eq!(rt; reader.peek(), Some(b'r'));
    assert_eq!(rt; reader.at(), 19);
    assert_eq!(rt; reader.rest(), b"rld".as_slice());
    assert_eq!(rt; reader.peek(), None);
}

#[test]
fn fields_are_written(rt: HostRuntime) -> Result<(), Fail> {
    let mut out = Out::new(rt.alloc());
    out.byte(7)?;
    out.write_u16(0x0102)?;
    out.write_u24(0x010203)?;
    out.write_u32(0x01020304)?;
    out.nul_text(b"nat")?;
    out.bytes(b"!")?;
    let want = b"\x07\x02\x01\x03\x02\x01\x04\x03\x02\x01nat\x00!";
    assert_eq!(rt; out.as_slice(), want.as_slice());
    assert_eq!(rt; out.into_bytes().as_slice(), want.as_slice());
    Ok(())
}

#[test]
fn length_encoded_integers_are_written_shortest(rt: HostRuntime) -> Result<(), Fail> {
    let cases: [(u64, &[u8]); 7] = [
        (0, b"\x00".as_slice()),
        (250, b"\xfa".as_slice()),
        (251, b"\xfc\xfb\x00".as_slice()),
        (65535, b"\xfc\xff\xff".as_slice()),
        (65536, b"\xfd\x00\x00\x01".as_slice()),
        (16777215, b"\xfd\xff\xff\xff".as_slice()),
        (16777216, b"\xfe\x00\x00\x00\x01\x00\x00\x00\x00".as_slice()),
    ];
    for (x, want) in cases {
        let mut out = Out::new(rt.alloc());
        out.lenenc(x)?;
        assert_eq!(rt; out.as_slice(), want);
    }
    Ok(())
}

#[test]
fn what_is_written_can_be_cut_off(rt: HostRuntime) -> Result<(), Fail> {
    let mut out = Out::new(rt.alloc());
    out.bytes(b"abcde")?;
    for (length, want) in [
        (6, b"abcde".as_slice()),
        (2, b"ab".as_slice()),
        (0, b"".as_slice()),
    ] {
        out.truncate(length);
        assert_eq!(rt; out.as_slice(), want);
        let mut other = out.beside();
        other.byte(b'x')?;
        assert_eq!(rt; other.as_slice(), b"x".as_slice());
        assert_eq!(rt; out.as_slice(), want);
    }
    let copied = Bytes::copy(out.allocator(), b"y")?;
    assert_eq!(rt; copied.as_slice(), b"y".as_slice());
    Ok(())
}

#[test]
fn lists_keep_what_was_pushed(rt: HostRuntime) -> Result<(), Fail> {
    let mut items: Items<u16> = Items::new(rt.alloc());
    assert!(rt; items.is_empty());
    items.push(7)?;
    items.push(9)?;
    assert_eq!(rt; items.as_slice(), [7, 9].as_slice());
    assert_eq!(rt; items.len(), 2);
    assert_eq!(rt; *items.get(1), 9);
    let held = items.into_vec();
    assert_eq!(rt; held.as_slice(), [7, 9].as_slice());
    assert!(rt; !Items::from_vec(held).is_empty());
    Ok(())
}

#[test]
fn lists_of_bytes_are_equal_byte_by_byte(rt: HostRuntime) -> Result<(), Fail> {
    for (text, other, equal) in [
        (b"".as_slice(), b"".as_slice(), true),
        (b"Ann".as_slice(), b"Ann".as_slice(), true),
        (b"Ann".as_slice(), b"ann".as_slice(), false),
        (b"Ann".as_slice(), b"An".as_slice(), false),
        (b"".as_slice(), b"\x00".as_slice(), false),
    ] {
        let user = Bytes::copy(rt.alloc(), text)?;
        assert_eq!(rt; user.as_slice(), text);
        let held = Bytes::copy(rt.alloc(), other)?.into_vec();
        assert_eq!(rt; held.as_slice(), other);
        let other = Bytes::from_vec(held);
        assert_eq!(rt; user == other, equal);
        let host = Host::Any;
        let name = Name { user, host };
        let same = Name { user: other, host };
        assert_eq!(rt; name == same, equal);
        let local = Name {
            user: same.user,
            host: Host::Localhost,
        };
        assert!(rt; name != local);
    }
    Ok(())
}

/// Compares the number, the state and the text of an error.
fn check(
    rt: &(impl Abort + AllocGlobal),
    code: &Code,
    number: u16,
    state: &[u8],
    text: &[u8],
) -> Result<(), Fail> {
    let mut out = Out::new(rt.alloc());
    code.text(&mut out)?;
    assert_eq!(rt; code.number(), number);
    assert_eq!(rt; code.state().as_slice(), state);
    assert_eq!(rt; out.as_slice(), text);
    Ok(())
}

#[test]
fn a_refused_login_names_the_user(rt: HostRuntime) -> Result<(), Fail> {
    let denied = Code::Denied {
        user: Bytes::copy(rt.alloc(), b"nat")?,
        using_password: true,
    };
    check(
        &rt,
        &denied,
        1045,
        b"28000",
        b"Access denied for user 'nat'@'localhost' (using password: YES)",
    )?;
    let locked = Code::Locked {
        user: Bytes::copy(rt.alloc(), &[b'u'; 70])?,
    };
    check(
        &rt,
        &locked,
        3118,
        b"HY000",
        b"Access denied for user 'uuuuuuuuuuuuuuuuuuuuuuuuuuuuuuuuuuuuuuuuuuuuuuuuuuuuuuuuuuuuuuuu'@'localhost'. Account is locked.",
    )
}

#[test]
fn a_lock_tells_its_days(rt: HostRuntime) -> Result<(), Fail> {
    let blocked = Code::Blocked {
        user: Bytes::copy(rt.alloc(), b"ann")?,
        days: Some(3),
        left: 2,
        limit: 32767,
    };
    check(
        &rt,
        &blocked,
        3955,
        b"HY000",
        b"Access denied for user 'ann'@'localhost'. Account is blocked for 3 day(s) (2 day(s) remaining) due to 32767 consecutive failed logins.",
    )?;
    let unlimited = Code::Blocked {
        user: Bytes::copy(rt.alloc(), b"ann")?,
        days: None,
        left: 0,
        limit: 3,
    };
    check(
        &rt,
        &unlimited,
        3955,
        b"HY000",
        b"Access denied for user 'ann'@'localhost'. Account is blocked for unlimited day(s) (unlimited day(s) remaining) due to 3 consecutive failed logins.",
    )
}

#[test]
fn a_refused_statement_tells_why(rt: HostRuntime) -> Result<(), Fail> {
    check(
        &rt,
        &Code::Syntax {
            place: 1234567890123,
        },
        1064,
        b"42000",
        b"You have an error in your SQL syntax at place 1234567890123",
    )?;
    check(
        &rt,
        &Code::KeeperFault,
        50008,
        b"HY000",
        b"The account store failed",
    )?;
    let cannot = Code::Cannot {
        operation: Operation::AlterUser,
        user: Bytes::copy(rt.alloc(), b"b")?,
        any_host: true,
    };
    check(
        &rt,
        &cannot,
        1396,
        b"HY000",
        b"Operation ALTER USER failed for 'b'@'%'",
    )?;
    let method = Code::NoMethod {
        name: Bytes::copy(rt.alloc(), b"foo")?,
    };
    check(&rt, &method, 1524, b"HY000", b"Plugin 'foo' is not loaded")
}
