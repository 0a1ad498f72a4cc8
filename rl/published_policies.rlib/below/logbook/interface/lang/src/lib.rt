pub use tokens :: Rule ;
pub use tokens :: Seen ;
pub use word :: Word ;
mod tokens ;
mod word ;
