// The memory of all searches.
use crate::SEARCHES;
use sheet::SheetRoom;
use std::alloc::{AllocError, Global};
use std::array;

// A room for each search, in the order of the list.
#[derive(Drop)]
pub struct Rooms(pub [SheetRoom; SEARCHES]);

impl Rooms {
    pub fn reserve(heap: Global) -> Result<Rooms, AllocError> {
        Ok(Rooms(array::try_from_fn(|_| SheetRoom::reserve(heap))?))
    }
}
