//! The rooms of a door: how many of its links may be unfinished at once.

use lg_base::Memory;
use std::alloc::Global;
use std::sync::Arc;

/// How many rooms a door has.
const ROOMS: usize = 255;

/// What a link has while it isn't finished. To let it go gives the room back.
#[derive(Drop)]
pub struct Room {
    shared: Arc<u8>,
}

/// The rooms of a door. Each room that is taken is one owner more of what is shared, beside the door itself.
#[derive(Drop)]
pub struct Rooms {
    shared: Arc<u8>,
}

impl Rooms {
    /// Rooms of which none is taken.
    pub fn new(alloc: Global) -> Result<Rooms, Memory> {
        Ok(Rooms {
            shared: Arc::new(alloc, 0)?,
        })
    }

    /// A room, if one is left.
    pub fn take(&self) -> Option<Room> {
        if Arc::strong_count(&self.shared) > ROOMS {
            return None;
        }
        match Arc::try_clone(&self.shared) {
            Ok(shared) => Some(Room { shared }),
            Err(_) => None,
        }
    }
}
