use life_table::{
    Blocks, Key, Listed, blocks_come_back_once, changes_pass_over_holds, changes_tell_the_table,
    each_call_has_one_reply, holders_have_rows, no_key_comes_back, print_handle, read_handle,
    recovery_frees_once, rows_are_within_limits, tables_stay_well_formed,
};
use std::test::Fail;

const FIRST: Key = Key {
    number: 192,
    generation: 1,
};

#[test]
fn handles_are_read_and_printed(rt: HostRuntime) -> Result<(), Fail> {
    assert_eq!(rt; read_handle("192.1"), Some(FIRST));
    let last = Key {
        number: 2_097_151,
        generation: 4_294_967_295,
    };
    assert_eq!(rt; read_handle("2097151.4294967295"), Some(last));
    for text in [
        "192",
        "0192.1",
        "192.0",
        "192.01",
        "+192.1",
        "192.+1",
        "192.1.",
        ".1",
        "192.",
        "2097152.1",
        "192.4294967296",
        "192,1",
        "192.1 ",
        "",
    ] {
        assert_eq!(rt; read_handle(text), None, "{text}");
    }
    assert_eq!(rt; print_handle(rt.alloc(), FIRST)?.as_str(), "192.1");
    Ok(())
}

#[test]
fn lists_keep_their_items(rt: HostRuntime) -> Result<(), Fail> {
    let blocks: Blocks = Listed::from_vec(Vec::from_slice(rt.alloc(), &[32, 33])?);
    assert_eq!(rt; blocks.as_slice(), [32, 33].as_slice());
    assert_eq!(rt; blocks.into_vec().as_slice(), [32, 33].as_slice());
    let none: Blocks = Listed::new(rt.alloc());
    assert_eq!(rt; none.as_slice().len(), 0);
    tables_stay_well_formed();
    no_key_comes_back();
    each_call_has_one_reply();
    holders_have_rows();
    blocks_come_back_once();
    changes_tell_the_table();
    changes_pass_over_holds();
    recovery_frees_once();
    rows_are_within_limits();
    Ok(())
}
