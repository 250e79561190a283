ghost use Rattle.std.specs.Prelude.{◌≡◌, ◌≤◌, ◌<◌, IfOk, length};
ghost use Rattle.std.specs.List.{All};
ghost use Rattle.log_batch.specs.Newest.{IsCommit};

use life_bytes::Sector;
use life_ports::NoMemory;
use log_batch::{Batch, DirtySectors};
use log_record::{Commit, Image, ImageList};
use std::alloc::Global;
use std::collections::VecDeque;
use std::test::Fail;

fn image(home: u64, byte: u8) -> Image
    ensures { result.home ≡ home }
{
    Image {
        home,
        sector: Sector { bytes: [byte; 512] },
    }
}

/// A commit of two sectors, each filled with a byte.
fn commit(alloc: Global, homes: (u64, u64), byte: u8) -> Result<Commit, NoMemory>
    requires { homes.0 < homes.1 }
    ensures { IfOk result IsCommit }
{
    let mut images = ImageList::new(alloc);
    images.push(image(homes.0, byte))?;
    images.push(image(homes.1, byte))?;
    Ok(Commit { group: 0, images })
}

#[test]
fn a_batch_has_the_newest_images(rt: HostRuntime) -> Result<(), Fail> {
    let mut batch = Batch::new(rt.alloc())?;
    let mut commits = VecDeque::new(rt.alloc());
    commits.push_back(commit(rt.alloc(), (7, 9), 1)?)?;
    commits.push_back(commit(rt.alloc(), (3, 7), 2)?)?;
    commits.push_back(commit(rt.alloc(), (8, 9), 3)?)?;
    assert_eq!(rt; batch.gather(&commits), 3);
    assert_eq!(rt;
        batch.images(),
        [image(3, 2), image(7, 2), image(8, 3), image(9, 3)].as_slice()
    );
    Ok(())
}

/// The first three images, each of which but the last is taken out.
fn first_three(dirty: &mut DirtySectors) -> [Option<Image>; 3] {
    let first = dirty.first();
    dirty.remove_first();
    let second = dirty.first();
    dirty.remove_first();
    [first, second, dirty.first()]
}

#[test]
fn dirty_sectors_come_by_home(rt: HostRuntime) -> Result<(), Fail> {
    let mut dirty = DirtySectors::new(rt.alloc());
    dirty.reserve(3)?;
    dirty.put_all(&[image(9, 1), image(4, 2), image(9, 3)]);
    let was_empty = dirty.is_empty();
    let images = first_three(&mut dirty);
    assert_eq!(rt; images, [Some(image(4, 2)), Some(image(9, 3)), None]);
    assert!(rt; !was_empty && dirty.is_empty());
    Ok(())
}
