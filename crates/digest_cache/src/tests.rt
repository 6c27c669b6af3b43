//! Digests on ample memory.

use crate::digests::Digests;
use std::test::Fail;

#[test]
fn digests_are_kept_for_the_numbers_with_room(rt: HostRuntime) -> Result<(), Fail> {
    let mut digests = Digests::new(rt.alloc());
    digests.reserve(2)?;
    let room = digests.spare();
    for (id, first) in [(7, 1), (3, 2), (7, 9)] {
        digests.reserve(1)?;
        digests.put(id, [first; 32]);
    }
    assert_eq!(rt; digests.spare().saturating_add(2), room);
    assert_eq!(rt; digests.of(7), Some([1; 32]));
    assert_eq!(rt; digests.of(3), Some([2; 32]));
    assert_eq!(rt; digests.of(5), None);
    digests.remove(5);
    digests.remove(7);
    assert_eq!(rt; digests.of(7), None);
    assert_eq!(rt; digests.of(3), Some([2; 32]));
    digests.clear_all();
    assert_eq!(rt; digests.of(3), None);
    assert_eq!(rt; digests.spare(), room);
    Ok(())
}
