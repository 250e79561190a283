// Worked examples that need no open, on a group and on the plain program side by side.
use crate::pairs::{Pair, text_of};
use life_table::{Call, Key};
use std::alloc::Global;
use std::test::Fail;

/// What is done.
#[derive(Clone, Copy)]
enum Step {
    /// A call, and the text of its reply.
    Call(Call, &'static str),
    /// These calls, so often.
    Turns(u32, &'static [Call]),
    /// The free of the first row without links, whose commit has so many images.
    Free(Key, usize),
    /// An inode in use is stored with so many links, and the group loaded.
    Links(Key, u32),
    /// Inode 192 is stored in this life, and the group loaded.
    Generation(u32),
}

struct Example {
    name: &'static str,
    /// Whether the group has 128 blocks, and not 64.
    wide: bool,
    steps: &'static [Step],
}

const A: Key = Key {
    number: 192,
    generation: 1,
};

const B: Key = Key {
    number: 193,
    generation: 1,
};

const LAST: Key = Key {
    number: 255,
    generation: 1,
};

const LAST_LIFE: Key = Key {
    number: 192,
    generation: 4_294_967_294,
};

const CREATE: Call = Call::Create { group: 0 };

const STAT: Call = Call::Stat { key: A };

const ONE_RUN_EACH: &str =
    "links 1 blocks 22 runs 32+1 34+1 36+1 38+1 40+1 42+1 44+1 46+1 48+1 50+1 52+1 54+1 \
    56+1 58+1 60+1 62+1 64+1 66+1 68+1 70+1 72+2";

const EXAMPLES: [Example; 6] = [
    Example {
        name: "loaded group",
        wide: false,
        steps: &[
            Step::Call(CREATE, "192.1"),
            Step::Links(A, 1),
            Step::Call(STAT, "links 1 blocks 0 runs"),
            Step::Call(CREATE, "193.1"),
            Step::Call(Call::Unlink { key: A }, "ok"),
            Step::Free(A, 3),
        ],
    },
    Example {
        name: "full group",
        wide: false,
        steps: &[
            Step::Call(CREATE, "192.1"),
            Step::Call(Call::Tmpfile { group: 0 }, "193.1"),
            Step::Call(Call::Grow { key: B, count: 20 }, "ok"),
            Step::Call(Call::Grow { key: A, count: 12 }, "ok"),
            Step::Call(Call::Grow { key: A, count: 20 }, "no space"),
            Step::Free(B, 4),
            Step::Call(Call::Grow { key: A, count: 20 }, "ok"),
            Step::Call(STAT, "links 1 blocks 32 runs 52+12 32+20"),
            Step::Call(Call::Grow { key: A, count: 1 }, "no space"),
            Step::Call(CREATE, "193.2"),
        ],
    },
    Example {
        name: "no inodes",
        wide: false,
        steps: &[
            Step::Call(CREATE, "192.1"),
            Step::Call(Call::Grow { key: A, count: 32 }, "ok"),
            Step::Turns(63, &[CREATE]),
            Step::Call(CREATE, "no inodes"),
            Step::Call(Call::Tmpfile { group: 0 }, "no inodes"),
            Step::Call(Call::Unlink { key: LAST }, "ok"),
            Step::Free(LAST, 3),
            Step::Call(CREATE, "255.2"),
            Step::Call(CREATE, "no inodes"),
        ],
    },
    Example {
        name: "twenty-two runs",
        wide: true,
        steps: &[
            Step::Call(CREATE, "192.1"),
            Step::Call(CREATE, "193.1"),
            Step::Turns(
                21,
                &[
                    Call::Grow { key: A, count: 1 },
                    Call::Grow { key: B, count: 1 },
                ],
            ),
            Step::Call(Call::Grow { key: A, count: 1 }, "too many extents"),
            Step::Call(Call::Cut { key: B, count: 1 }, "ok"),
            Step::Call(Call::Grow { key: A, count: 1 }, "ok"),
            Step::Call(STAT, ONE_RUN_EACH),
        ],
    },
    Example {
        name: "links and blocks",
        wide: false,
        steps: &[
            Step::Call(CREATE, "192.1"),
            Step::Call(Call::Grow { key: A, count: 2 }, "ok"),
            Step::Call(Call::Cut { key: A, count: 3 }, "cut too far"),
            Step::Call(Call::Cut { key: A, count: 2 }, "ok"),
            Step::Call(Call::Unlink { key: A }, "ok"),
            Step::Call(Call::Unlink { key: A }, "no links"),
            Step::Call(Call::Link { key: A }, "ok"),
            Step::Links(A, 2_147_483_647),
            Step::Call(Call::Link { key: A }, "too many links"),
            Step::Call(Call::Unlink { key: A }, "ok"),
            Step::Call(STAT, "links 2147483646 blocks 0 runs"),
        ],
    },
    Example {
        name: "last generation",
        wide: false,
        steps: &[
            Step::Call(CREATE, "192.1"),
            Step::Generation(4_294_967_294),
            Step::Call(STAT, ""),
            Step::Call(Call::Unlink { key: LAST_LIFE }, "ok"),
            Step::Free(LAST_LIFE, 3),
            Step::Call(CREATE, "193.1"),
            Step::Call(Call::Stat { key: LAST_LIFE }, ""),
        ],
    },
];

/// Makes these calls, so often.
fn take_turns(alloc: Global, pair: &mut Pair, count: u32, calls: &[Call]) -> Result<(), Fail> {
    for _turn in 0..count {
        for call in calls {
            pair.call(alloc, *call)?;
        }
    }
    Ok(())
}

/// Takes a step, and tells whether it came out as it should.
fn take_step(alloc: Global, pair: &mut Pair, step: Step) -> Result<bool, Fail> {
    match step {
        Step::Call(call, wanted) => {
            let reply = pair.call(alloc, call)?;
            Ok(text_of(alloc, &reply)?.as_str() == wanted)
        }
        Step::Free(key, images) => Ok(pair.free(alloc, 0)? == Some((key, images))),
        Step::Turns(count, calls) => {
            take_turns(alloc, pair, count, calls)?;
            Ok(true)
        }
        Step::Links(key, links) => {
            pair.store_links(alloc, key, links)?;
            Ok(true)
        }
        Step::Generation(generation) => {
            pair.store_generation(alloc, 192, generation)?;
            Ok(true)
        }
    }
}

/// The first step that comes out otherwise; that behind the last one where the group and the plain program differ then.
fn first_other(alloc: Global, example: &Example) -> Result<Option<usize>, Fail> {
    let mut pair = Pair::new(alloc, example.wide)?;
    for (place, step) in example.steps.iter().enumerate() {
        if !take_step(alloc, &mut pair, *step)? {
            return Ok(Some(place));
        }
    }
    Ok(if pair.agrees(alloc)? {
        None
    } else {
        Some(example.steps.len())
    })
}

#[test]
fn groups_answer_as_the_examples_say(rt: HostRuntime) -> Result<(), Fail> {
    for example in &EXAMPLES {
        let other = first_other(rt.alloc(), example)?;
        assert_eq!(rt; other, None, "{}", example.name);
    }
    Ok(())
}
