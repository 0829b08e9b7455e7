// The limits of a reading, each by its name.

// The bytes of an image.
pub const MAX_IMAGE: usize = 65536;

// The entries of which a reading keeps a view. (The length of the array of views stands as a number beside it.)
pub const MAX_VIEWS: usize = 16;
