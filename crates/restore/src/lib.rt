// An image, read: what bytes hold, whether they are an image, and the service that takes one.
#![tactic(auto)]

mod decoding;
mod numbers;
mod places;
mod reading;
mod used;

pub use reading::{image_sizes, read_image};
