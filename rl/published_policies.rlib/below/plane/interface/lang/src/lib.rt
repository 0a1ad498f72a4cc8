pub use shape :: Shape ;
mod fault ;
mod point ;
mod shape ;
