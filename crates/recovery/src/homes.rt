// The newest image of each sector that a log writes.
ghost use Rattle.std.specs.Prelude.{◌≡◌, ◌<◌, List, [], length, IsTrue, OnOk, OnErr, option_copied};
ghost use Rattle.std.specs.List.{All};
ghost use Rattle.life_bytes.specs.declared.sector.Sector.{Sector};
ghost use Rattle.life_ports.specs.Faults.{HasCause};
ghost use Rattle.disk_model.specs.Disk.{Elapses, HasOneImage, IsImage, as_read};
ghost use Rattle.log_batch.specs.Put.{put, put_all};
ghost use Rattle.log_image.specs.Overlay.{newest, overlaid};
ghost use Rattle.recovery.specs.Put.{IsPartlyPut, MakesWrites};

use disk_model::Disk;
use life_bytes::Sector;
use life_ports::{Failed, NoMemory};
use log_record::Image;
use std::alloc::Global;
use std::collections::BTreeMap;
use std::marker::Model;

/// One image for each of some sectors, which contracts see as the list of the images by ascending home.
#[derive(Drop)]
pub struct HomeImages {
    sectors: BTreeMap<u64, Sector>,
}

impl Model for HomeImages {
    ghost use Rattle.std.specs.Prelude.{List};
    ghost use Rattle.log_record.specs.declared.image.Image.{Image};
    ghost use Rattle.log_batch.specs.Put.{KeysRise};
    ghost use Rattle.recovery.specs.Homes.{images_in};

    ghost Value = { List Image };

    ghost view = { λ h. images_in h.sectors.entries };

    ghost invariant = { λ h. KeysRise (λ i. i.home) 0 (images_in h.sectors.entries) };
}

impl HomeImages {
    /// No images, which take no memory.
    pub(crate) fn new(alloc: Global) -> HomeImages
        ensures { result ≡ [] }
    {
        HomeImages {
            sectors: BTreeMap::new(alloc),
        }
    }

    /// The image of a sector, if there is one.
    pub fn get(&self, home: u64) -> Option<&Sector>
        ensures { option_copied result ≡ newest home self.now }
    {
        self.sectors.get(&home)
    }

    /// Puts an image in the place of its sector's older one, where there is one.
    pub(crate) fn put(&mut self, image: &Image) -> Result<(), NoMemory>
        ensures ok { OnOk result (self.new ≡ put image.now self.old) }
        ensures err { OnErr result (self.new ≡ self.old) }
    {
        self.sectors.insert(image.home, image.sector)?;
        Ok(())
    }

    /// Puts several images in the places of their sectors' older ones. Where memory lacks, some of them are put.
    pub(crate) fn put_all(&mut self, images: &[Image]) -> Result<(), NoMemory>
        ensures { OnOk result (self.new ≡ put_all images.now self.old) }
    {
        for image in images {
            self.put(image)?;
        }
        Ok(())
    }

    /// Writes each image to its sector of the disk, by ascending home, one write each. Ends with the first write that fails.
    pub(crate) fn write_home<D: Disk>(&self, disk: &mut D) -> Result<(), Failed>
        requires { All (λ image. image.home < D.sector_count disk.old) self.now }
        ensures reads { IsTrue D.known → OnOk result (as_read (D.cells disk.new) ≡ overlaid (as_read (D.cells disk.old)) self.now) }
        ensures left { IsTrue D.known → HasOneImage (D.cells disk.old) → (image : List Sector) → IsImage (D.cells disk.new) image
            → IsPartlyPut self.now (as_read (D.cells disk.old)) image }
        ensures time { IsTrue D.known → HasOneImage (D.cells disk.old) → Elapses (D.moment disk.old) (D.moment disk.new)
            (D.left_since disk.old) (D.left_since disk.new) (IsPartlyPut self.now (as_read (D.cells disk.old))) }
        ensures sectors { D.sector_count disk.new ≡ D.sector_count disk.old }
        ensures writes { MakesWrites (length self.now) result (D.arming disk.old) (D.arming disk.new) }
        ensures cause { HasCause result (D.fault_count disk.old) (D.fault_count disk.new) }
    {
        for (home, sector) in &self.sectors {
            disk.write(*home, &[*sector])?;
        }
        Ok(())
    }
}
