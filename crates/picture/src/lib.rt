// The picture of the service at the end of what `explain` prints: definitions, in specs/, and the functions that write
// it into a lent buffer.
#![tactic(auto)]

mod aside;
mod files;
mod heading;
mod picture;
mod refused;
mod server;
mod station;
mod store;

pub use picture::{PICTURE_ROOM, write_picture};
