//! The words of the inode cache, which threads change without a lock.
//!
//! A cache has one word of 64 bits for each inode of an image. The word says whether the inode is in the cache, in which
//! life (its generation), whether it lost its last link, and how many hold it. It is a reference count, with a mark and a
//! generation beside it that change in the same atomic step.
//!
//! - A *session* opens and closes inodes for one thread. An open is one load and one exchange, a close is one subtraction.
//!   No lock is taken, nothing is waited for, and no memory is needed, however many inodes, sessions and pins there are.
//! - A *keeper* lies behind the lock of a group. It alone brings the group's inodes into the cache (`install`), marks them,
//!   takes an idle one out (`retire`), and takes one out that was freed (`kill`).
//! - A *pin* is a hold. While it is out, the inode is in the cache, in that life of it: a word with pins is neither retired
//!   nor killed.
//!
//! An open that finds no such inode does not decide anything: it says what it saw, and whoever takes the group's lock
//! decides. A close that gives up the last hold on an inode without links hands out a duty, to have the inode freed.
//!
//! Contracts see what each session and keeper knows (`Known`): the pins that it has, and the log of the words that it loaded,
//! found or left, the newest first. The word that an open leaves alone is not in it: the pin tells of that. Each call says
//! what comes to the log, so what it saw can't be made up. What ties all of these to the words is the rule of the table
//! (`specs/Rule.antt`), which holds between any two steps of any threads. The place of a word is the sector in which its inode
//! stands.
#![tactic(auto)]

mod cache;
mod keeper;
mod known;
mod laws;
mod make;
mod moves;
mod rule;
mod session;
mod steps;
mod words;

pub use cache::{Cache, Duty, Pin};
pub use keeper::Keeper;
pub use laws::pins_hold_words;
pub use make::{CacheParts, make_cache};
pub use session::{Session, TryOpen};
