use super::*;

/// Generation 1 in the cache, with links and without a pin.
const IDLE: u64 = 0x1_8000_0000;
/// The same without links.
const UNLINKED: u64 = 0x1_c000_0000;

#[test]
fn words_show_what_an_open_finds(rt: HostRuntime) {
    for (word, generation, sight) in [
        (0x1_8fff_ffff, 1, Sight::Crowded),
        (IDLE, 1, Sight::Open),
        (UNLINKED, 1, Sight::Awaits),
        (IDLE, 2, Sight::Other),
        (UNLINKED + 1, 1, Sight::Open),
        (0, 1, Sight::Other),
    ] {
        assert_eq!(rt; shows(word, generation), sight, "{word:x}");
    }
}

#[test]
fn words_step(rt: HostRuntime) {
    assert_eq!(rt; open_of(IDLE, 1), Some(0x1_8000_0001));
    assert_eq!(rt; open_of(UNLINKED, 1), None);
    assert_eq!(rt; open_of(UNLINKED + 1, 1), Some(0x1_c000_0002));
    assert_eq!(rt; close_of(UNLINKED + 1), Some(UNLINKED));
    assert_eq!(rt; close_of(IDLE), None);
    assert_eq!(rt; mark_of(IDLE + 1), Some(UNLINKED + 1));
    assert_eq!(rt; unmark_of(UNLINKED + 1), Some(IDLE + 1));
    assert_eq!(rt; install_of(0x1_0000_0000, 2, true), Some(0x2_c000_0001));
    assert_eq!(rt; install_of(IDLE, 2, true), None);
    assert_eq!(rt; retire_of(IDLE), Some(0x1_0000_0000));
    assert_eq!(rt; retire_of(IDLE + 1), None);
    assert_eq!(rt; kill_of(UNLINKED, 1), Some(0x1_0000_0000));
    assert_eq!(rt; kill_of(UNLINKED, 2), None);
    assert_eq!(rt; open_of(IDLE | 3 << 28, 1), Some(0x1_b000_0001));
    assert_eq!(rt;
        read_word(0x1_b000_0001),
        Word {
            generation: 1,
            live: true,
            unlinked: false,
            unused: 3,
            pins: 1
        }
    );
    each_number_is_one_word();
    each_sight_says_one_thing();
    steps_leave_words();
}
