//! What a call in a group comes to, before it is made.

use group_ops::Change;
use life_table::Reply;

/// The reply of a call, once for the mount's record and once for the group's history, and the change, where it makes one.
#[derive(Drop)]
pub(crate) struct Decision {
    pub(crate) reply: Reply,
    pub(crate) noted: Reply,
    pub(crate) change: Option<Change>,
}
