pub use no_memory :: NoMemory ;
pub use no_memory :: NotStored ;
mod no_memory ;
