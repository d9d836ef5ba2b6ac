// What the first line gives as settings.
use sizes::Sizes;

// Why a line gives no sizes.
#[derive(Clone, Copy)]
pub enum NoSizes {
    // A settings line with a number outside its range.
    OutOfRange,
    // No settings line.
    Missing,
}

pub type Setting = Result<Sizes, NoSizes>;
