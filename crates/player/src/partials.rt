// The partials of the samples: one by one where they are few, else in columns.
pub mod fade;
pub mod floor;
pub mod in_columns;
pub mod one_by_one;
pub mod phase;
pub mod phases;
pub mod sample;
pub mod sines;
pub mod sum;
