// What the live bands add to the samples.
pub mod bands;
pub mod pass;
pub mod sum;
