// The commits that one record takes.
ghost use Rattle.std.specs.Prelude.{◌≡◌, ◌≤◌, ◌<◌, ◌+◌, ◌-◌, ◌*◌, ◌^◌, ℕ, [], length, map, take, vec_len, vec_capacity, slice_index_or, IfOk};
ghost use Rattle.std.specs.List.{All};
ghost use Rattle.life_limits.specs.declared.TheConstants.{MAX_IMAGES};
ghost use Rattle.log_record.specs.declared.image.Commit.{Commit};
ghost use Rattle.log_record.specs.declared.image.Image.{Image};
ghost use Rattle.log_batch.specs.Newest.{IsBatch, IsCommit, commit_images};
ghost use Rattle.log_batch.specs.Picks.{ArePicks, picked_image};
ghost use Rattle.log_batch.specs.Put.{put_all};

use crate::find::{Pick, put_pick};
use life_limits::MAX_IMAGES;
use life_ports::NoMemory;
use log_record::{Commit, Image};
use std::alloc::Global;
use std::collections::VecDeque;
use std::marker::Model;

/// Puts the images of the commit at a place over those that are picked.
fn put_commit(picks: &mut Vec<Pick>, commits: &VecDeque<Commit>, at: usize)
    requires picks { ArePicks commits.now.items picks.old.items }
    requires within { at < length commits.now.items }
    requires commits { All IsCommit commits.now.items }
    requires room { vec_len picks.old + MAX_IMAGES ≤ vec_capacity picks.old }
    ensures picks { ArePicks commits.now.items picks.new.items }
    ensures put { (d : Commit) → map (picked_image commits.now.items) picks.new.items
        ≡ put_all (slice_index_or commits.now.items at d).images (map (picked_image commits.now.items) picks.old.items) }
    ensures size { vec_len picks.new ≤ vec_len picks.old + MAX_IMAGES }
    ensures capacity { vec_capacity picks.new ≡ vec_capacity picks.old }
{
    let images = commits[at].images.as_slice();
    for i in 0..images.len() {
        let home = images[i].home;
        put_pick(
            picks,
            Pick {
                home,
                commit: at,
                image: i,
            },
        );
    }
}

/// Picks the newest images of so many first commits.
fn pick_first(picks: &mut Vec<Pick>, commits: &VecDeque<Commit>, taken: usize)
    requires within { taken ≤ length commits.now.items }
    requires commits { All IsCommit commits.now.items }
    requires room { 2 * MAX_IMAGES ≤ vec_capacity picks.old }
    requires few { length (put_all (commit_images (take taken commits.now.items)) []) ≤ MAX_IMAGES }
    ensures picks { ArePicks commits.now.items picks.new.items }
    ensures put { map (picked_image commits.now.items) picks.new.items ≡ put_all (commit_images (take taken commits.now.items)) [] }
    ensures capacity { vec_capacity picks.new ≡ vec_capacity picks.old }
{
    picks.clear();
    for at in 0..taken {
        put_commit(picks, commits, at);
    }
}

/// Picks the newest images of as many first commits as one record takes, and answers how many those are.
fn pick_most(picks: &mut Vec<Pick>, commits: &VecDeque<Commit>) -> u32
    requires commits { All IsCommit commits.now.items }
    requires room { 2 * MAX_IMAGES ≤ vec_capacity picks.old }
    ensures picks { ArePicks commits.now.items picks.new.items }
    ensures put { map (picked_image commits.now.items) picks.new.items ≡ put_all (commit_images (take result commits.now.items)) [] }
    ensures within { result ≤ length commits.now.items }
    ensures few { vec_len picks.new ≤ MAX_IMAGES }
    ensures longest { result < length commits.now.items → result < 2 ^ 32 - 1
        → MAX_IMAGES < length (put_all (commit_images (take (result + 1) commits.now.items)) []) }
    ensures capacity { vec_capacity picks.new ≡ vec_capacity picks.old }
{
    picks.clear();
    let limit = commits.len().min(u32::MAX as usize);
    for at in 0..limit {
        put_commit(picks, commits, at);
        if picks.len() > MAX_IMAGES as usize {
            pick_first(picks, commits, at);
            return at as u32;
        }
    }
    limit as u32
}

/// Copies the images that are picked.
fn copy_images(picks: &[Pick], commits: &VecDeque<Commit>, into: &mut Vec<Image>)
    requires picks { ArePicks commits.now.items picks.now }
    requires room { length picks.now ≤ vec_capacity into.old }
    ensures images { into.new.items ≡ map (picked_image commits.now.items) picks.now }
    ensures capacity { vec_capacity into.new ≡ vec_capacity into.old }
{
    into.clear();
    for pick in picks {
        let image = commits[pick.commit].images.as_slice()[pick.image];
        into.push_reserved(image);
    }
}

/// The newest image of each sector that some commits write, as many as one record has, with room for them from the start.
#[derive(Drop)]
pub struct Batch {
    picks: Vec<Pick>,
    images: Vec<Image>,
}

impl Model for Batch {
    ghost use Rattle.std.specs.Prelude.{◌≤◌, ◌*◌, List, vec_capacity};
    ghost use Rattle.life_limits.specs.declared.TheConstants.{MAX_IMAGES};
    ghost use Rattle.log_record.specs.declared.image.Image.{Image};

    ghost Value = { List Image };

    ghost view = { λ b. b.images.items };

    ghost invariant = { λ b. (2 * MAX_IMAGES ≤ vec_capacity b.picks) × (MAX_IMAGES ≤ vec_capacity b.images) };
}

impl Batch {
    /// An empty batch, with room for all that it will hold.
    pub fn new(alloc: Global) -> Result<Batch, NoMemory>
        ensures { IfOk result (λ batch. batch ≡ []) }
    {
        let picks = Vec::with_capacity(alloc, 2 * MAX_IMAGES as usize)?;
        let images = Vec::with_capacity(alloc, MAX_IMAGES as usize)?;
        Ok(Batch { picks, images })
    }

    /// Takes the images of as many first commits as one record takes, and answers how many commits those are.
    pub fn gather(&mut self, commits: &VecDeque<Commit>) -> u32
        requires { All IsCommit commits.now.items }
        ensures { IsBatch commits.now.items result self.new }
    {
        let taken = pick_most(&mut self.picks, commits);
        copy_images(&self.picks, commits, &mut self.images);
        taken
    }

    /// The images, by ascending home.
    pub fn images(&self) -> &[Image]
        ensures { result.now ≡ self.now }
    {
        self.images.as_slice()
    }
}
