// Images of sectors, and commits of them.
ghost use Rattle.std.specs.Prelude.{◌≡◌, ◌∷◌, ◌++◌, [], length, OnOk, OnErr, ◌↔◌, IsTrue};

use life_bytes::Sector;
use life_ports::NoMemory;
use std::alloc::Global;
use std::marker::Model;

/// What a sector is to hold.
#[derive(Clone, Copy, Debug, PartialEq, Eq)]
pub struct Image {
    /// The sector of the disk that the image belongs to.
    pub home: u64,
    pub sector: Sector,
}

/// A list of images, which contracts see as the list itself.
#[derive(Debug, Drop)]
pub struct ImageList {
    images: Vec<Image>,
}

impl Model for ImageList {
    ghost use Rattle.std.specs.Prelude.{List};
    ghost use Rattle.log_record.specs.declared.image.Image.{Image};

    ghost Value = { List Image };

    ghost view = { λ l. l.images.items };
}

impl ImageList {
    /// The empty list, which takes no memory.
    pub fn new(alloc: Global) -> ImageList
        ensures { result ≡ [] }
    {
        ImageList {
            images: Vec::new(alloc),
        }
    }

    /// Adds an image at the end.
    pub fn push(&mut self, image: Image) -> Result<(), NoMemory>
        ensures ok { OnOk result (self.new ≡ self.old ++ image ∷ []) }
        ensures err { OnErr result (self.new ≡ self.old) }
    {
        self.images.push(image)?;
        Ok(())
    }

    pub fn as_slice(&self) -> &[Image]
        ensures { result.now ≡ self.now }
    {
        self.images.as_slice()
    }

    pub fn len(&self) -> usize
        ensures { result ≡ length self.now }
    {
        self.images.len()
    }

    pub fn is_empty(&self) -> bool
        ensures { IsTrue result ↔ (length self.now ≡ 0) }
    {
        self.images.is_empty()
    }

    /// The images as a vector, without copying them.
    pub fn into_vec(self) -> Vec<Image>
        ensures { result.items ≡ self }
    {
        let ImageList { images } = self;
        images
    }
}

impl From<Vec<Image>> for ImageList {
    ghost from_gives = { λ images list. list ≡ images.items };

    fn from(images: Vec<Image>) -> ImageList {
        ImageList { images }
    }
}

/// A change of one group: the sectors that it writes, which become durable together.
#[derive(Debug, Drop)]
pub struct Commit {
    pub group: u32,
    pub images: ImageList,
}
