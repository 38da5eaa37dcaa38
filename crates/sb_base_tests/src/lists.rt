//! A list is lent, copied and given back.

use sb_list::Listed;
use std::test::Fail;

#[test]
fn a_list_gives_its_vec_back(rt: HostRuntime) -> Result<(), Fail> {
    let words: Listed<u64> = Listed::new(vec![in rt.alloc(); 5, 7]?);
    assert_eq!(rt; words.items(), [5, 7].as_slice());
    assert_eq!(rt; words.copied(rt.alloc())?.items(), [5, 7].as_slice());
    assert_eq!(rt; words.into_vec().as_slice(), [5, 7].as_slice());
    Ok(())
}
