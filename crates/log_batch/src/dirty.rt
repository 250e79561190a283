// The logged sectors that are not home yet.
ghost use Rattle.std.specs.Prelude.{◌≡◌, ◌≤◌, ◌<◌, ◌+◌, ◌↔◌, [], length, drop, IsTrue, OnOk, slice_get};
ghost use Rattle.log_batch.specs.Put.{put, put_all};

use life_bytes::Sector;
use life_ports::NoMemory;
use log_record::Image;
use std::alloc::Global;
use std::cmp::Reverse;
use std::collections::{BinaryHeap, HashMap};
use std::marker::Model;

/// The newest logged image of each sector that is not home yet, by ascending home.
#[derive(Drop)]
pub struct DirtySectors {
    sectors: HashMap<u64, Sector>,
    homes: BinaryHeap<Reverse<u64>>,
}

impl Model for DirtySectors {
    ghost use Rattle.std.specs.Prelude.{◌-◌, min};
    ghost use Rattle.std.specs.HashMap.{spare};
    ghost use Rattle.std.specs.BinaryHeap.{heap_items, heap_len, heap_capacity};
    ghost use Rattle.log_batch.specs.Dirty.{Dirty, Matches, held};

    ghost Value = { Dirty };

    ghost view = { λ d. record { images = held d.sectors.entries; room = min (spare d.sectors) (heap_capacity d.homes - heap_len d.homes) } };

    ghost invariant = { λ d. Matches d.sectors.entries (heap_items d.homes) };
}

impl DirtySectors {
    /// No sectors, which take no memory.
    pub fn new(alloc: Global) -> DirtySectors
        ensures { result.images ≡ [] }
    {
        DirtySectors {
            sectors: HashMap::new(alloc),
            homes: BinaryHeap::new(alloc),
        }
    }

    /// Makes room for so many more sectors.
    pub fn reserve(&mut self, more: usize) -> Result<(), NoMemory>
        ensures images { self.new.images ≡ self.old.images }
        ensures room { OnOk result (more ≤ self.new.room) }
        ensures kept { self.old.room ≤ self.new.room }
    {
        self.sectors.reserve(more)?;
        self.homes.reserve(more)?;
        Ok(())
    }

    pub fn is_empty(&self) -> bool
        ensures { IsTrue result ↔ (length self.now.images ≡ 0) }
    {
        self.sectors.is_empty()
    }

    /// Puts an image in the place of its sector's older one, where there is one. There has to be room for it.
    pub fn put(&mut self, image: &Image)
        requires { 0 < self.old.room }
        ensures images { self.new.images ≡ put image.now self.old.images }
        ensures room { self.old.room ≤ self.new.room + 1 }
    {
        let home = image.home;
        if let Ok(None) = self.sectors.insert(home, image.sector) {
            let _ = self.homes.push(Reverse(home));
        }
    }

    /// Puts several images in the places of their sectors' older ones. There has to be room for them.
    pub fn put_all(&mut self, images: &[Image])
        requires { length images.now ≤ self.old.room }
        ensures images { self.new.images ≡ put_all images.now self.old.images }
        ensures room { self.old.room ≤ self.new.room + length images.now }
    {
        for image in images {
            self.put(image);
        }
    }

    /// The image with the least home.
    pub fn first(&self) -> Option<Image>
        ensures { result ≡ slice_get self.now.images 0 }
    {
        let home = self.homes.peek()?.0;
        let sector = *self.sectors.get(&home)?;
        Some(Image { home, sector })
    }

    /// Takes away the image with the least home, where there is one.
    pub fn remove_first(&mut self)
        ensures images { self.new.images ≡ drop 1 self.old.images }
        ensures room { self.old.room ≤ self.new.room }
    {
        if let Some(Reverse(home)) = self.homes.pop() {
            let _ = self.sectors.remove(&home);
        }
    }
}
