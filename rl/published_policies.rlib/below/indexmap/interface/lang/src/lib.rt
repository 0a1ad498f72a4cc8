pub use equivalent :: Equivalent ;
pub use map :: IndexMap ;
mod columns ;
mod equivalent ;
mod index_table ;
pub mod map ;
pub mod set ;
