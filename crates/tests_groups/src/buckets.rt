ghost use Rattle.std.specs.Prelude.{[], replicate};
ghost use Rattle.agi_buckets.specs.Buckets.{AreBuckets};

use agi_buckets::{Nexts, list, pointers_give_one_list, put, remove};
use life_limits::NO_INODE;
use std::test::Fail;

/// The pointers of a group with three inodes, which are of one bucket.
#[derive(Drop)]
struct Memory {
    heads: [u32; 64],
    nexts: [u32; 384],
}

impl Memory {
    /// No inode is in a bucket.
    fn new() -> Memory
        ensures { AreBuckets (⟦<Memory as Nexts>⟧.pointers result) (replicate 64 []) }
    {
        pointers_give_one_list();
        Memory {
            heads: [NO_INODE; 64],
            nexts: [NO_INODE; 384],
        }
    }
}

impl Nexts for Memory {
    ghost use Rattle.std.specs.Prelude.{◌∷◌, [], slice_index};

    ghost pointers = { λ m. record { heads = m.heads; next = λ agino. slice_index m.nexts agino; places = 192 ∷ 256 ∷ 320 ∷ [] } };

    ghost room = { λ _. 2 };

    fn head(&self, bucket: u32) -> u32 {
        self.heads[bucket as usize]
    }

    fn set_head(&mut self, bucket: u32, agino: u32) {
        self.heads[bucket as usize] = agino;
    }

    fn next(&self, agino: u32) -> u32 {
        self.nexts[agino as usize]
    }

    fn set_next(&mut self, agino: u32, next: u32) {
        self.nexts[agino as usize] = next;
    }
}

#[test]
fn an_inode_is_put_first_and_taken_out_of_the_middle(rt: HostRuntime) -> Result<(), Fail> {
    let mut memory = Memory::new();
    put(&mut memory, 192);
    put(&mut memory, 320);
    put(&mut memory, 256);
    assert_eq!(rt;
        list(rt.alloc(), &memory, 0)?.as_slice(),
        [256, 320, 192].as_slice()
    );
    assert_eq!(rt; remove(&mut memory, 320), Some(256));
    assert_eq!(rt;
        list(rt.alloc(), &memory, 0)?.as_slice(),
        [256, 192].as_slice()
    );
    assert_eq!(rt; list(rt.alloc(), &memory, 1)?.len(), 0);
    assert_eq!(rt; memory.next(320), NO_INODE);
    pointers_give_one_list();
    Ok(())
}
