// Pins and words, by one thread.
use crate::caches::{Parts, bring_in, close, kill, look, new_parts, open, remark, retire};
use life_table::Key;
use std::test::Fail;
use word_table::{Duty, TryOpen, pins_hold_words};

const KEY: Key = Key {
    number: 192,
    generation: 1,
};

const NEXT_LIFE: Key = Key {
    number: 192,
    generation: 2,
};

#[test]
fn a_new_cache_has_no_inode(rt: HostRuntime) -> Result<(), Fail> {
    let Parts {
        cache,
        first: mut session,
        mut keeper,
        ..
    } = new_parts(rt.alloc())?;
    session.reserve()?;
    let tried = open(&cache, &mut session, KEY);
    assert!(rt; matches!(tried, TryOpen::Ask { seen: 0 }));
    let Some(pin) = bring_in(&cache, &mut keeper, &mut session, KEY, false) else {
        panic!(rt; "it is not in the cache");
    };
    assert_eq!(rt; pin.key(), KEY);
    assert_eq!(rt; close(&cache, &mut session, pin), None);
    Ok(())
}

#[test]
fn a_pinned_word_is_neither_retired_nor_killed(rt: HostRuntime) -> Result<(), Fail> {
    let Parts {
        cache,
        first: mut session,
        second: mut watcher,
        mut keeper,
        ..
    } = new_parts(rt.alloc())?;
    let Some(pin) = bring_in(&cache, &mut keeper, &mut session, KEY, false) else {
        panic!(rt; "it is not in the cache");
    };
    assert_eq!(rt; look(&cache, &mut watcher, 192), 0x1_8000_0001);
    assert!(rt; !retire(&cache, &mut keeper, 192));
    assert!(rt; !kill(&cache, &mut keeper, KEY));
    assert_eq!(rt; close(&cache, &mut session, pin), None);
    assert_eq!(rt; look(&cache, &mut watcher, 192), 0x1_8000_0000);
    assert!(rt; !kill(&cache, &mut keeper, KEY));
    assert!(rt; retire(&cache, &mut keeper, 192));
    assert_eq!(rt; look(&cache, &mut watcher, 192), 0x1_0000_0000);
    pins_hold_words();
    Ok(())
}

#[test]
fn an_unlinked_inode_is_killed_after_its_last_close(rt: HostRuntime) -> Result<(), Fail> {
    let Parts {
        cache,
        first: mut session,
        second: mut other,
        third: mut watcher,
        mut keeper,
    } = new_parts(rt.alloc())?;
    let Some(pin) = bring_in(&cache, &mut keeper, &mut session, KEY, true) else {
        panic!(rt; "it is not in the cache");
    };
    assert!(rt; bring_in(&cache, &mut keeper, &mut other, KEY, true).is_none());
    remark(&cache, &mut keeper, &mut session, &pin, false);
    assert_eq!(rt; look(&cache, &mut watcher, 192), 0x1_8000_0001);
    remark(&cache, &mut keeper, &mut session, &pin, true);
    let TryOpen::Pinned { pin: last } = open(&cache, &mut other, KEY) else {
        panic!(rt; "it is in the cache");
    };
    assert_eq!(rt; look(&cache, &mut watcher, 192), 0x1_c000_0002);
    assert_eq!(rt; close(&cache, &mut session, pin), None);
    assert!(rt; !kill(&cache, &mut keeper, KEY));
    assert_eq!(rt; close(&cache, &mut other, last), Some(Duty { key: KEY }));
    let tried = open(&cache, &mut session, KEY);
    assert!(rt;
        matches!(
            tried,
            TryOpen::Ask {
                seen: 0x1_c000_0000
            }
        )
    );
    assert!(rt; !retire(&cache, &mut keeper, 192));
    assert!(rt; !kill(&cache, &mut keeper, NEXT_LIFE));
    assert!(rt; kill(&cache, &mut keeper, KEY));
    assert_eq!(rt; look(&cache, &mut watcher, 192), 0x1_0000_0000);
    Ok(())
}
