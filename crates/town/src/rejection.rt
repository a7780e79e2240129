//! A refused town file.
use crate::room::Room;
use fault::file::FileFault;

/// Why a file was refused, and the room that was given to read it.
#[derive(Drop)]
pub struct Rejection<M> {
    pub fault: FileFault,
    pub room: Room<M>,
}
